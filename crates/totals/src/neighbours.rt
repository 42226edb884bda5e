// The integers next to the value that cells of integers are compared with: found once, so that no cell is promoted.
ghost use Rattle.std.specs.Prelude.{◌≡◌, true, ◌≤◌, pos, nat_abs, ◌+ℤ◌, IfSome, MatchOption};
ghost use Rattle.std.specs.Float.Ieee.{lt};
ghost use Rattle.values.specs.Convert.{promoted};
ghost use Rattle.values.specs.declared.Value.TheVariants.{Real};
ghost use Rattle.operators.specs.Operators.{as_real};
ghost use Rattle.totals.specs.private.Integers.{Enclosed};

use values::{Value, singles};

// Up to here a single holds every integer.
const WHOLE: i32 = 16777216;

// The least integer that is not less than the value, and the greatest that is not greater.
#[derive(Clone, Copy)]
pub struct Neighbours {
    pub low: i32,
    pub high: i32,
}

fn is_less(z: i32, x: f32) -> bool
    ensures { result ≡ lt (promoted z) x }
{
    values::convert::promote(z) < x
}

fn is_greater(z: i32, x: f32) -> bool
    ensures { result ≡ lt x (promoted z) }
{
    x < values::convert::promote(z)
}

// Whether these two are the last integer below x and the last not above it. Promotion keeps the order, so what holds of them and of the
// integers after them holds of all.
fn encloses(below: i32, high: i32, x: f32) -> bool
    requires { (nat_abs below ≤ 16777217) × (nat_abs high ≤ 16777217) }
    ensures { result ≡ true → Enclosed (below +ℤ pos 1) high (Real x) }
{
    if !singles::is_finite(x) {
        return false;
    }
    if is_less(below + 1, x) {
        return false;
    }
    if is_greater(high, x) {
        return false;
    }
    if is_less(below, x) {
        is_greater(high + 1, x)
    } else {
        false
    }
}

// An integer, or the one before it.
fn back(z: i32, one: bool) -> i32
    requires { nat_abs z ≤ 16777216 }
    ensures { nat_abs result ≤ 16777217 }
{
    if one { z - 1 } else { z }
}

// By a guess, which is tested: z is x without its fraction.
fn about(z: i32, x: f32) -> Option<Neighbours>
    ensures { IfSome result (λ n. Enclosed n.low n.high (Real x)) }
{
    if z < -WHOLE {
        return None;
    }
    if WHOLE < z {
        return None;
    }
    let below = back(z, !is_less(z, x));
    let high = back(z, is_greater(z, x));
    if encloses(below, high, x) {
        Some(Neighbours {
            low: below + 1,
            high,
        })
    } else {
        None
    }
}

fn of_real(x: f32) -> Option<Neighbours>
    ensures { IfSome result (λ n. Enclosed n.low n.high (Real x)) }
{
    match values::convert::truncate(x) {
        Some(z) => about(z, x),
        None => None,
    }
}

// Of a value; none are known of a real that is too large for its fraction.
pub fn of(v: Value) -> Option<Neighbours>
    ensures { MatchOption result (Real (as_real v) ≡ v) (λ n. Enclosed n.low n.high v) }
{
    match v {
        Value::Int(z) => Some(Neighbours { low: z, high: z }),
        Value::Real(x) => of_real(x),
    }
}
