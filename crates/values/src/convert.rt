// Promotion of an integer to the nearest single, and the cuts of a single to an integer.
ghost use Rattle.std.specs.Prelude.{◌≡◌, ◌-◌, ◌/◌, ◌^◌, ◌<◌, ◌≤◌, pos, ◌+ℤ◌, int_div, int_rem};
ghost use Rattle.std.specs.Int.Count.{count_leading_zeros};
ghost use Rattle.std.specs.Float.Ieee.Nearest.{closest};
ghost use Rattle.values.specs.Convert.{promoted, cut, truncated, rounded};

use crate::integers::in_range;
use std::cmp::Ordering;

// The weight of the lowest bit that is kept: the number of leading zeros says how many low bits are rounded away.
fn unit_of(m: u32) -> u32
    requires { 16777216 < m }
    ensures { result ≡ 2 ^ (8 - count_leading_zeros 32 m) }
{
    let dropped = 8 - m.leading_zeros();
    1 << dropped
}

// m / unit, to the nearest whole number, ties to even.
fn divided(m: u32, unit: u32) -> u32
    requires { (0 < unit) × (unit ≤ 256) × (m / unit < 16777216) }
    ensures { result ≡ closest m unit }
{
    let kept = m / unit;
    let twice = m % unit * 2;
    match twice.cmp(&unit) {
        Ordering::Less => kept,
        Ordering::Equal => kept + kept % 2,
        Ordering::Greater => kept + 1,
    }
}

// The single nearest to m, ties to even: up to 2 ^ 24 it is m itself, above it 24 bits of m, rounded, at their place.
fn nearest(m: u32) -> f32
    ensures { result ≡ promoted (pos m) }
{
    if m <= 16777216 {
        return m as f32;
    }
    let unit = unit_of(m);
    let n = divided(m, unit);
    (n as f32) * (unit as f32)
}

pub fn promote(z: i32) -> f32
    ensures { result ≡ promoted z }
{
    let size = nearest(z.unsigned_abs());
    if z < 0 { -size } else { size }
}

// The integer, or Outside 32 bits.
fn whole(z: i64) -> Option<i32>
    ensures { result ≡ cut z }
{
    if in_range(z) {
        return Some(z as i32);
    }
    None
}

// Toward zero. The tests leave what 64 bits hold, and no infinity or NaN.
pub fn truncate(x: f32) -> Option<i32>
    ensures { result ≡ truncated x }
{
    if -9223372036854775808.0 <= x {
        if x < 9223372036854775808.0 {
            return whole(std::num::truncating_f32_to_i64(x));
        }
    }
    None
}

// Half of h, halves away from zero.
fn halved(h: i64) -> Option<i32>
    ensures { result ≡ cut (int_div h (pos 2) +ℤ int_rem h (pos 2)) }
{
    whole(h / 2 + h % 2)
}

// To the nearest integer, halves away from zero. Twice x is exact, and its cut keeps the half; x + 0.5 would be rounded.
pub fn round(x: f32) -> Option<i32>
    ensures { result ≡ rounded x }
{
    if -4611686018427387904.0 < x {
        if x < 4611686018427387904.0 {
            return halved(std::num::truncating_f32_to_i64(x + x));
        }
    }
    None
}
