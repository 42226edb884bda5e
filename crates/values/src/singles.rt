// Singles: one IEEE operation each, with infinite results and zero divisors turned into faults.
ghost use Rattle.std.specs.Prelude.{◌≡◌};
ghost use Rattle.std.specs.Float.Ieee.Scale.{finite};
ghost use Rattle.reals.specs.Operations.{divides};
ghost use Rattle.values.specs.Singles.{settle, real_arith, compare_real, choice_real, real_power, real_product, real_abs};

use crate::integers::exponent;
use crate::{ChoiceOp, CompareOp, Fault, Outcome, Value};
use reals::ArithOp;

// Neither an infinity nor a NaN, which no comparison holds of.
pub fn is_finite(x: f32) -> bool
    ensures { result ≡ finite x }
{
    x.is_finite()
}

pub fn settled(x: f32) -> Outcome
    ensures { result ≡ settle x }
{
    if is_finite(x) {
        Outcome::Done(Value::Real(x))
    } else if x.is_nan() {
        Outcome::Stopped(Fault::OutOfRange)
    } else {
        Outcome::Stopped(Fault::Overflow)
    }
}

fn has_divisor(op: ArithOp) -> bool
    ensures { result ≡ divides op }
{
    matches!(op, ArithOp::Div | ArithOp::Rem)
}

// A zero divisor of either sign equals 0.0.
pub fn arith(op: ArithOp, x: f32, y: f32) -> Outcome
    ensures { result ≡ real_arith op x y }
{
    if has_divisor(op) && y == 0.0 {
        return Outcome::Stopped(Fault::DividedByZero);
    }
    settled(reals::operate(op, x, y))
}

// Not by `CompareOp::holds`, here and below: over any type a single is compared by `partial_cmp`, which asks up to three times. COUNTIF over R then
// takes up to 1.4 times the instructions.
pub fn compare(op: CompareOp, x: f32, y: f32) -> bool
    ensures { result ≡ compare_real op x y }
{
    match op {
        CompareOp::Lt => x < y,
        CompareOp::Gt => y < x,
        CompareOp::Le => x <= y,
        CompareOp::Ge => y <= x,
        CompareOp::Eq => x == y,
        CompareOp::Ne => x != y,
    }
}

pub fn choose(op: ChoiceOp, x: f32, y: f32) -> f32
    ensures { result ≡ choice_real op x y }
{
    match op {
        ChoiceOp::Max => if x < y { y } else { x },
        ChoiceOp::Min => if y < x { y } else { x },
    }
}

// The sign alone: -0.0 becomes 0.0.
pub fn absolute(x: f32) -> f32
    ensures { result ≡ real_abs x }
{
    x.abs()
}

// 1.0 multiplied n times by x, rounded each time. Settled once, at the end: a NaN stays a NaN, and an infinite product stays
// infinite, since the x that made it is not zero.
fn product(x: f32, n: u32) -> Outcome
    ensures { result ≡ real_product x n }
{
    let mut p: f32 = 1.0;
    for _ in 0..n {
        p *= x;
    }
    settled(p)
}

pub fn power(x: f32, n: i32) -> Outcome
    ensures { result ≡ real_power x n }
{
    match exponent(n) {
        Some(n) => product(x, n),
        None => Outcome::Stopped(Fault::OutOfRange),
    }
}
