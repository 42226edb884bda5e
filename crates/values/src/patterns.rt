// Integers as 32-bit patterns: bitwise operators, shifts and the time since a tick. And the patterns of singles.
ghost use Rattle.std.specs.Prelude.{◌≡◌, from_bits};
ghost use Rattle.std.specs.Float.{binary32};
ghost use Rattle.std.specs.Float.Ieee.Scale.{finite};
ghost use Rattle.values.specs.Patterns.{low_bits, signed_of, bitwise_int, complement_int, shift_int, since_int};

use crate::{BitOp, Fault, Outcome, ShiftOp, Value};

// The lowest bit of the exponent's field in the pattern of a single, and the field with all its bits set.
const EXPONENT: u32 = 0x0080_0000;

const ALL_ONES: u32 = 255;

// Neither an infinity nor a NaN: their exponent is all ones.
pub fn is_finite_single(n: u32) -> bool
    ensures { result ≡ finite (from_bits binary32 n) }
{
    n / EXPONENT % 256 != ALL_ONES
}

pub fn bitwise(op: BitOp, a: i32, b: i32) -> i32
    ensures { result ≡ bitwise_int op a b }
{
    match op {
        BitOp::And => a & b,
        BitOp::Or => a | b,
        BitOp::Xor => a ^ b,
    }
}

pub fn complement(a: i32) -> i32
    ensures { result ≡ complement_int a }
{
    !a
}

// The pattern of an integer.
pub fn pattern(a: i32) -> u32
    ensures { result ≡ low_bits 32 a }
{
    a.cast_unsigned()
}

// The integer of a pattern.
pub fn from_pattern(n: u32) -> i32
    ensures { result ≡ signed_of 32 n }
{
    n.cast_signed()
}

pub fn shift(op: ShiftOp, a: i32, s: i32) -> Outcome
    ensures { result ≡ shift_int op a s }
{
    if !(0..=31).contains(&s) {
        return Outcome::Stopped(Fault::OutOfRange);
    }
    let count = s as u32;
    match op {
        ShiftOp::Left => Outcome::Done(Value::Int(a << count)),
        ShiftOp::Right => Outcome::Done(Value::Int(a >> count)),
        ShiftOp::RightZero => Outcome::Done(Value::Int(from_pattern(pattern(a) >> count))),
    }
}

// The tick less x, around the end of the counter.
pub fn since(tick: u32, x: i32) -> i32
    ensures { result ≡ since_int tick x }
{
    from_pattern(tick.wrapping_sub(pattern(x)))
}
