// The single nearest to the decimal n * 10 ^ scale, ties to even, by whole numbers of 64 bits and no float operation. The decimal is a
// fraction whose denominator is too large for 64 bits, but is the product of two numbers b and a that are not. It is kept as a mixed
// number, whose remainder is two digits: one below b and one below a.
#![tactic(auto)]

ghost use Rattle.std.specs.Prelude.{◌≡◌, false, ◌*◌, ◌^◌, ◌≤◌, ◌<◌};
ghost use Rattle.std.specs.Float.{binary32};
ghost use Rattle.std.specs.Float.Ieee.{round, to_bits};
ghost use Rattle.literals.specs.Literals.{literal_pattern};
ghost use Rattle.literals.specs.private.MixedNumbers.{numerator, Represents, Normalized, TiesToEven, RoundedFrom};

mod mixed;

use mixed::Mixed;

// The powers of ten from 1 on.
const TENS: [u64; 15] = [
    1,
    10,
    100,
    1000,
    10000,
    100000,
    1000000,
    10000000,
    100000000,
    1000000000,
    10000000000,
    100000000000,
    1000000000000,
    10000000000000,
    100000000000000,
];

// Both parts of the denominator 2 ^ 58, for decimals that are whole numbers.
const BASE: u64 = 0x2000_0000;

// The least number of 25 binary digits: the 24 of a single, and one that is rounded away.
const WIDE: u64 = 0x0100_0000;

// Mantissas below this stay below 2 ^ 48 when they are doubled 31 times.
const SHORT: u32 = 131072;

// A single is a whole number of units of 2 ^ -149.
const UNITS: u32 = 149;

// The lowest bit of a pattern's exponent field.
const EXPONENT: u32 = 0x0080_0000;

// A mixed number, doubled as often as `shift` says.
#[derive(Clone, Copy)]
struct Normal {
    number: Mixed,
    shift: u32,
}

// x doubled, sixteen times at once, until its whole part has at least 25 binary digits.
fn normalize(x: Mixed) -> Normal
    requires { (x.whole < 2 ^ 48) × (0 < numerator x.b x.a x) }
    ensures { Normalized x.b x.a (numerator x.b x.a x) result.number result.shift }
{
    let mut number = x;
    let mut shift: u32 = 0;
    while number.whole < WIDE {
        number = number.times(65536);
        shift += 16;
    }
    Normal { number, shift }
}

// w and a part below 1, which is 0 where `left` is, over 2 * half: to the nearest whole number, ties to even.
fn nearest(w: u64, half: u64, left: u64) -> u64
    requires { (0 < half) × (half < 2 ^ 48) × (w < 2 ^ 48) }
    ensures { TiesToEven w (2 * half) left result }
{
    let unit = 2 * half;
    let kept = w / unit;
    let last = w % unit;
    if last < half {
        return kept;
    }
    if half < last {
        return kept + 1;
    }
    if 0 < left {
        return kept + 1;
    }
    kept + kept % 2
}

// The pattern of the single nearest to the number, halved as often as it was doubled, times 2 ^ c: 24 rounded digits, and above them
// their place in the exponent's field, to which the leading digit adds one, and a carry past the 24 digits another.
fn rounded(x: Normal, c: u32) -> u32
    requires { (2 ^ 24 ≤ x.number.whole) × (x.number.whole < 2 ^ 48) × (c ≤ 58) × (x.shift < 142) }
    ensures { RoundedFrom x.number.b x.number.a c x.number x.shift result }
{
    let number = x.number;
    // all digits but 24
    let dropped = 40 - number.whole.leading_zeros();
    let digits = nearest(number.whole, 1 << (dropped - 1), number.high + number.low);
    (UNITS + c + dropped - x.shift) * EXPONENT + (digits as u32)
}

// The pattern of the single nearest to x * 2 ^ c.
fn encode(x: Mixed, c: u32) -> u32
    requires { (x.whole < 2 ^ 48) × (0 < numerator x.b x.a x) × (c ≤ 58) }
    ensures { result ≡ to_bits binary32 (round binary32 false (numerator x.b x.a x * 2 ^ c) (x.b * x.a)) }
{
    rounded(normalize(x), c)
}

fn power(k: u32) -> u64
    requires { k ≤ 14 }
    ensures { result ≡ 10 ^ k }
{
    TENS[k as usize]
}

// n over the power of one digit behind the dot or two, which most literals have, doubled 31 times at once: mostly that is enough. Each
// branch divides by a constant, which takes a multiplication and no division, and at a literal index the table is not built.
fn doubled(n: u32, d: u32) -> Mixed
    requires { (0 < d) × (d < 3) }
    ensures { Represents (10 ^ d) 1 (n * 2 ^ 31) result }
{
    let numerator = (n as u64) * 2147483648;
    if d == 1 {
        Mixed::split(numerator, TENS[1], 1)
    } else {
        Mixed::split(numerator, TENS[2], 1)
    }
}

// The pattern of n / 10 ^ d.
fn quotient(n: u32, d: u32) -> u32
    requires { (0 < n) × (0 < d) × (d ≤ 28) }
    ensures { result ≡ to_bits binary32 (round binary32 false n (10 ^ d)) }
{
    if n < SHORT && d < 3 {
        let number = doubled(n, d);
        if WIDE <= number.whole {
            return rounded(Normal { number, shift: 31 }, 0);
        }
    }
    let a = power(d / 2);
    let b = power(d - d / 2);
    encode(Mixed::split(n as u64, b, a), 0)
}

// The pattern of n * 10 ^ e.
fn product(n: u32, e: u32) -> u32
    requires { (0 < n) × (e ≤ 20) }
    ensures { result ≡ to_bits binary32 (round binary32 false (n * 10 ^ e) 1) }
{
    let x = Mixed::split(n as u64, BASE, BASE).times(power(e / 2));
    let y = x.times(power(e - e / 2));
    encode(y, 58)
}

// The pattern of the single nearest to n * 10 ^ scale. At a scale outside -28 to 20, which no literal has, it is 0.
pub fn pattern(n: u32, scale: i32) -> u32
    ensures { result ≡ literal_pattern n scale }
{
    if n == 0 {
        return 0;
    }
    match scale {
        -28..=-1 => quotient(n, scale.unsigned_abs()),
        0..=20 => product(n, scale.unsigned_abs()),
        _ => 0,
    }
}
