// The operators on integers alone: what the full operators do where every operand is one, and all that the profile without reals has. A
// real has no part in them, so that code which calls nothing else needs no floating point.
ghost use Rattle.std.specs.Prelude.{◌≡◌, false};
ghost use Rattle.values.specs.declared.Value.TheVariants.{Int};
ghost use Rattle.operators.specs.Operators.{truth_rule, unary_rule, index_rule};
ghost use Rattle.operators.specs.Reals.{real_unary};
ghost use Rattle.operators.specs.Tables.{binary_of};
ghost use Rattle.operators.specs.private.Admitted.{admitted};
ghost use Rattle.operators.specs.private.Numbered.{binary_numbered};

use crate::UnaryOp;
use reals::ArithOp;
use values::{BitOp, ChoiceOp, CompareOp, Fault, Outcome, ShiftOp, Value, integers, patterns};

// Non-zero is true.
pub fn truth(z: i32) -> bool
    ensures { result ≡ truth_rule (Int z) }
{
    z != 0
}

// TOREAL and FRAC, which leave a real, are no operations here.
pub fn unary(op: UnaryOp, z: i32) -> Outcome
    ensures { result ≡ admitted false (real_unary op) (unary_rule op (Int z)) }
{
    match op {
        UnaryOp::Neg => integers::negate(z),
        UnaryOp::Complement => Outcome::Done(Value::Int(patterns::complement(z))),
        UnaryOp::Not => Outcome::Done(crate::from_bool(!truth(z))),
        UnaryOp::Abs => integers::absolute(z),
        UnaryOp::ToReal => Outcome::WrongKind,
        UnaryOp::Trunc => Outcome::Done(Value::Int(z)),
        UnaryOp::Round => Outcome::Done(Value::Int(z)),
        UnaryOp::Frac => Outcome::WrongKind,
    }
}

// By number, as in numbered.rt. A number that is no operator's takes nothing.
pub fn binary(n: u8, i: i32, j: i32) -> Outcome
    ensures { result ≡ binary_numbered (binary_of n) (Int i) (Int j) }
{
    match n {
        0 => integers::power(i, j),
        1 => integers::arith(ArithOp::Mul, i, j),
        2 => integers::arith(ArithOp::Div, i, j),
        3 => integers::arith(ArithOp::Rem, i, j),
        4 => integers::arith(ArithOp::Add, i, j),
        5 => integers::arith(ArithOp::Sub, i, j),
        6 => patterns::shift(ShiftOp::Left, i, j),
        7 => patterns::shift(ShiftOp::Right, i, j),
        8 => patterns::shift(ShiftOp::RightZero, i, j),
        9 => Outcome::Done(crate::from_bool(integers::compare(CompareOp::Lt, i, j))),
        10 => Outcome::Done(crate::from_bool(integers::compare(CompareOp::Gt, i, j))),
        11 => Outcome::Done(crate::from_bool(integers::compare(CompareOp::Le, i, j))),
        12 => Outcome::Done(crate::from_bool(integers::compare(CompareOp::Ge, i, j))),
        13 => Outcome::Done(crate::from_bool(integers::compare(CompareOp::Eq, i, j))),
        14 => Outcome::Done(crate::from_bool(integers::compare(CompareOp::Ne, i, j))),
        15 => Outcome::Done(Value::Int(patterns::bitwise(BitOp::And, i, j))),
        16 => Outcome::Done(Value::Int(patterns::bitwise(BitOp::Xor, i, j))),
        17 => Outcome::Done(Value::Int(patterns::bitwise(BitOp::Or, i, j))),
        18 => Outcome::Done(Value::Int(integers::choose(ChoiceOp::Max, i, j))),
        19 => Outcome::Done(Value::Int(integers::choose(ChoiceOp::Min, i, j))),
        _ => Outcome::WrongKind,
    }
}

// The element of a number: one that lies outside the bank names none.
pub fn index(z: i32, elements: u32) -> Result<u32, Fault>
    ensures { result ≡ index_rule elements (Int z) }
{
    if z < 0 {
        return Err(Fault::IndexError);
    }
    let i = z as u32;
    if i < elements {
        Ok(i)
    } else {
        Err(Fault::IndexError)
    }
}
