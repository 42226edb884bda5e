// The operators by number: specs/Tables.antt. A match: a table would be copied at every use. The binary ones are worked out by number in
// numbered.rt.
ghost use Rattle.std.specs.Prelude.{◌≡◌};
ghost use Rattle.operators.specs.Tables.{unary_of};

use crate::{BinaryOp, UnaryOp};

// Numbers of unary operators.
pub const NEG: u8 = 0;

pub const COMPLEMENT: u8 = 1;

pub const NOT: u8 = 2;

pub const ABS: u8 = 3;

pub const TO_REAL: u8 = 4;

pub const TRUNC: u8 = 5;

pub const ROUND: u8 = 6;

pub const FRAC: u8 = 7;

// Numbers of the binary operators that are functions.
pub const MAX: u8 = 18;

pub const MIN: u8 = 19;

pub fn unary_of(n: u8) -> Option<UnaryOp>
    ensures { result ≡ unary_of n }
{
    match n {
        NEG => Some(UnaryOp::Neg),
        COMPLEMENT => Some(UnaryOp::Complement),
        NOT => Some(UnaryOp::Not),
        ABS => Some(UnaryOp::Abs),
        TO_REAL => Some(UnaryOp::ToReal),
        TRUNC => Some(UnaryOp::Trunc),
        ROUND => Some(UnaryOp::Round),
        FRAC => Some(UnaryOp::Frac),
        _ => None,
    }
}
