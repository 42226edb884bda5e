// The remainder of two singles on whole numbers: what the f32 `%` gives, bit for bit, for a machine whose C library has no fmodf, or
// one that takes a step for each binary digit between the operands, up to 276 of them. Here a step takes eight.
#![tactic(auto)]

ghost use Rattle.std.specs.Prelude.{◌≡◌, ◌-◌, ◌*◌, ◌/◌, ◌%◌, ◌^◌, ◌≤◌, ◌<◌};
ghost use Rattle.std.specs.Float.{binary32, nan};
ghost use Rattle.std.specs.Float.Ieee.{rem};
ghost use Rattle.reals.specs.Laws.{pattern_units};

// The sign of a bit pattern.
const SIGN: u32 = 0x8000_0000;

// The lowest bit of its exponent's field.
const EXPONENT: u32 = 0x0080_0000;

// The pattern of the infinity; a finite single's is below it.
const INFINITY: u32 = 0x7f80_0000;

// m * 2 ^ d % w. What is left after a step has at most 24 binary digits, so that eight more fit 32 bits.
fn shifted_rem(m: u32, d: u32, w: u32) -> u32
    requires { (m < 2 ^ 24) × (0 < w) × (w < 2 ^ 24) }
    ensures { result ≡ m * 2 ^ d % w }
{
    let mut n = m;
    for _ in 0..d / 8 {
        n = n * 256 % w;
    }
    (n << (d % 8)) % w
}

// The place of a pattern's last digit: the exponent's field less one, where a field of 0, a subnormal's, counts as 1.
fn place(a: u32) -> u32
    ensures { result ≡ a / 2 ^ 23 - 1 }
{
    (a / EXPONENT).saturating_sub(1)
}

// The pattern of n * 2 ^ j units: n is shifted until it has 24 digits, or as far as the place j allows.
fn encode(n: u32, j: u32) -> u32
    requires { (n < 2 ^ 24) × (j ≤ 253) }
    ensures { (result < 255 * 2 ^ 23) × (pattern_units result ≡ n * 2 ^ j) }
{
    if n == 0 {
        return 0;
    }
    let room = n.leading_zeros() - 8;
    if j < room {
        return n << j;
    }
    (n << room) + (j - room) * EXPONENT
}

// The pattern of the remainder of two singles by their patterns, which have no sign. Both are whole multiples of the unit of b's
// last place, and so is the remainder.
fn pattern_rem(a: u32, b: u32) -> u32
    requires { (0 < b) × (b ≤ a) × (a < 255 * 2 ^ 23) }
    ensures { (result < 255 * 2 ^ 23) × (pattern_units result ≡ pattern_units a % pattern_units b) }
{
    let i = place(a);
    let j = place(b);
    let w = b - j * EXPONENT;
    let n = shifted_rem(a - i * EXPONENT, i - j, w);
    encode(n, j)
}

// The NaN: the quotient of two zeros, which has no value.
fn quiet_nan() -> f32
    ensures { result ≡ nan }
{
    0.0 / 0.0
}

// x % y for every x and y, by no float operation but the tests for a NaN and the making of one.
pub fn remainder(x: f32, y: f32) -> f32
    ensures { result ≡ rem binary32 x y }
{
    // a NaN has no pattern
    if x.is_nan() || y.is_nan() {
        return quiet_nan();
    }
    let p = f32::to_bits(x);
    let a = p % SIGN;
    let b = f32::to_bits(y) % SIGN;
    if b == 0 || INFINITY <= a {
        return quiet_nan();
    }
    if a < b {
        return x;
    }
    f32::from_bits(p - a + pattern_rem(a, b))
}
