// 32-bit integers: the exact value, or a fault. Sums and products are worked out at 64 bits, which hold them.
ghost use Rattle.std.specs.Prelude.{◌≡◌, ◌+◌, ◌<◌, ◌≤◌, cond, pos, ◌*ℤ◌, neg_ℤ, unsigned_abs};
ghost use Rattle.values.specs.Integers.{in_range, exact_int, int_arith, compare_int, choice_int, exponent, int_power};
ghost use Rattle.values.specs.Multiplications.{PowerCount};

use crate::{ChoiceOp, CompareOp, Fault, Outcome, Value};
use reals::ArithOp;

// 32 bits hold z.
pub fn in_range(z: i64) -> bool
    ensures { result ≡ in_range z }
{
    (-2147483648..=2147483647).contains(&z)
}

// The integer, or Overflow outside 32 bits.
pub fn exact(z: i64) -> Outcome
    ensures { result ≡ exact_int z }
{
    match i32::try_from(z) {
        Ok(z) => Outcome::Done(Value::Int(z)),
        Err(_) => Outcome::Stopped(Fault::Overflow),
    }
}

// The least integer by -1 leaves 32 bits as a quotient, which is exact at 64, and has remainder 0.
pub fn arith(op: ArithOp, a: i32, b: i32) -> Outcome
    ensures { result ≡ int_arith op a b }
{
    match op {
        ArithOp::Add => exact((a as i64) + (b as i64)),
        ArithOp::Sub => exact((a as i64) - (b as i64)),
        ArithOp::Mul => exact((a as i64) * (b as i64)),
        ArithOp::Div => {
            if b == 0 {
                return Outcome::Stopped(Fault::DividedByZero);
            }
            exact((a as i64) / (b as i64))
        }
        ArithOp::Rem => {
            if b == 0 {
                return Outcome::Stopped(Fault::DividedByZero);
            }
            exact((a as i64) % (b as i64))
        }
    }
}

pub fn compare(op: CompareOp, a: i32, b: i32) -> bool
    ensures { result ≡ compare_int op a b }
{
    op.holds(a, b)
}

pub fn choose(op: ChoiceOp, a: i32, b: i32) -> i32
    ensures { result ≡ choice_int op a b }
{
    op.of(a, b)
}

pub fn negate(a: i32) -> Outcome
    ensures { result ≡ exact_int (neg_ℤ a) }
{
    exact(-(a as i64))
}

pub fn absolute(a: i32) -> Outcome
    ensures { result ≡ exact_int (pos (unsigned_abs a)) }
{
    if a < 0 {
        return exact(-(a as i64));
    }
    Outcome::Done(Value::Int(a))
}

// A product, and how many multiplications were made up to it.
#[derive(Clone, Copy)]
struct Product {
    value: i64,
    count: u32,
}

// The outcome of a power, and how many multiplications it took.
#[derive(Clone, Copy)]
pub struct CountedPower {
    pub outcome: Outcome,
    pub count: u32,
}

// The only multiplication of a whole power: it raises the count.
fn times(x: i32, y: i32, count: u32) -> Product
    requires { count < 12 }
    ensures { (result.value ≡ x *ℤ y) × (result.count ≡ count + 1) }
{
    Product {
        value: (x as i64) * (y as i64),
        count: count + 1,
    }
}

// By the binary digits of n from the highest down: a square for each digit after the first, and the base once more for a one. What is
// held is always a power of a with an exponent of at most n, so a product that leaves 32 bits is one that the power needs, and it
// does not come back.
fn binary_power(a: i32, n: u32) -> CountedPower
    requires { (0 < n) × (n ≤ 64) }
    ensures { PowerCount a (pos n) result.outcome result.count }
{
    let mut p = a;
    let mut count: u32 = 0;
    for left in (0..31 - n.leading_zeros()).rev() {
        let square = times(p, p, count);
        if !in_range(square.value) {
            return CountedPower {
                outcome: Outcome::Stopped(Fault::Overflow),
                count: square.count,
            };
        }
        p = square.value as i32;
        count = square.count;
        if (n >> left) % 2 == 1 {
            let product = times(p, a, count);
            if !in_range(product.value) {
                return CountedPower {
                    outcome: Outcome::Stopped(Fault::Overflow),
                    count: product.count,
                };
            }
            p = product.value as i32;
            count = product.count;
        }
    }
    CountedPower {
        outcome: Outcome::Done(Value::Int(p)),
        count: count,
    }
}

// What a power takes as its exponent: 0 to 64.
pub(crate) fn exponent(n: i32) -> Option<u32>
    ensures { result ≡ cond (exponent n) (Some (unsigned_abs n)) None }
{
    if (0..=64).contains(&n) {
        Some(n as u32)
    } else {
        None
    }
}

// An exponent that is refused takes no multiplication, and neither does 0.
pub fn counted_power(a: i32, n: i32) -> CountedPower
    ensures { PowerCount a n result.outcome result.count }
{
    match exponent(n) {
        None => CountedPower {
            outcome: Outcome::Stopped(Fault::OutOfRange),
            count: 0,
        },
        Some(0) => CountedPower {
            outcome: Outcome::Done(Value::Int(1)),
            count: 0,
        },
        Some(n) => binary_power(a, n),
    }
}

pub fn power(a: i32, n: i32) -> Outcome
    ensures { result ≡ int_power a n }
{
    let power = counted_power(a, n);
    power.outcome
}
