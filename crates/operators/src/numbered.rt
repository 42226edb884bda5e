// The binary operators by number, for the machine: one match on the kinds of the operands and one on the number, each arm a single
// operation. As an enum of enums an operator would be matched twice, and two operands of one kind would pass through memory.
ghost use Rattle.std.specs.Prelude.{◌≡◌, ◌||◌};
ghost use Rattle.operators.specs.Reals.{real_value};
ghost use Rattle.operators.specs.Tables.{binary_of};
ghost use Rattle.operators.specs.private.Admitted.{admitted};
ghost use Rattle.operators.specs.private.Numbered.{binary_numbered, OnReals};

use crate::integers;
use reals::ArithOp;
use values::{ChoiceOp, CompareOp, Outcome, Value, singles};

const POWER: u8 = 0;

// Two operands of which one is real, and the other as real as it.
fn of_singles(n: u8, x: f32, y: f32) -> Outcome
    ensures { OnReals n x y result }
{
    match n {
        POWER => Outcome::WrongKind,
        1 => singles::arith(ArithOp::Mul, x, y),
        2 => singles::arith(ArithOp::Div, x, y),
        3 => singles::arith(ArithOp::Rem, x, y),
        4 => singles::arith(ArithOp::Add, x, y),
        5 => singles::arith(ArithOp::Sub, x, y),
        6 => Outcome::WrongKind,
        7 => Outcome::WrongKind,
        8 => Outcome::WrongKind,
        9 => Outcome::Done(crate::from_bool(singles::compare(CompareOp::Lt, x, y))),
        10 => Outcome::Done(crate::from_bool(singles::compare(CompareOp::Gt, x, y))),
        11 => Outcome::Done(crate::from_bool(singles::compare(CompareOp::Le, x, y))),
        12 => Outcome::Done(crate::from_bool(singles::compare(CompareOp::Ge, x, y))),
        13 => Outcome::Done(crate::from_bool(singles::compare(CompareOp::Eq, x, y))),
        14 => Outcome::Done(crate::from_bool(singles::compare(CompareOp::Ne, x, y))),
        15 => Outcome::WrongKind,
        16 => Outcome::WrongKind,
        17 => Outcome::WrongKind,
        18 => Outcome::Done(Value::Real(singles::choose(ChoiceOp::Max, x, y))),
        19 => Outcome::Done(Value::Real(singles::choose(ChoiceOp::Min, x, y))),
        _ => Outcome::WrongKind,
    }
}

// A number that is no operator's takes nothing. The singles have one caller, in which they are then written out.
pub fn binary(n: u8, a: Value, b: Value) -> Outcome
    ensures { result ≡ binary_numbered (binary_of n) a b }
{
    if n == POWER {
        return crate::power(a, b);
    }
    match a {
        Value::Int(i) => match b {
            Value::Int(j) => return integers::binary(n, i, j),
            Value::Real(_) => {}
        },
        Value::Real(_) => {}
    }
    of_singles(n, crate::as_real(a), crate::as_real(b))
}

// As `binary`, or in the profile without reals: there a real is no operand.
pub fn binary_in(n: u8, a: Value, b: Value, reals: bool) -> Outcome
    ensures { result ≡ admitted reals (real_value a || real_value b) (binary_numbered (binary_of n) a b) }
{
    if reals {
        return binary(n, a, b);
    }
    match a {
        Value::Int(i) => match b {
            Value::Int(j) => integers::binary(n, i, j),
            Value::Real(_) => Outcome::WrongKind,
        },
        Value::Real(_) => Outcome::WrongKind,
    }
}
