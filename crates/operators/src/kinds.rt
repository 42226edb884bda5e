// Kinds as numbers, and what the operators by number make of them: specs/Kinds.antt. Compiler and verifier both ask here.
ghost use Rattle.std.specs.Prelude.{◌≡◌, ◌&&◌};
ghost use Rattle.values.specs.declared.Kind.TheVariants.{Int};
ghost use Rattle.operators.specs.Tables.{unary_of, binary_of};
ghost use Rattle.operators.specs.Kinds.{is_int, join, number_kind, kind_number, typed, unary_typed, binary_typed};

pub const INT: u8 = 0;

pub const REAL: u8 = 1;

// Added to the kind of a result where the operands' kinds are not taken. What is less is a kind.
pub const NOT_TAKEN: u8 = 2;

// Any number but 0 stands for a real.
fn kind(k: u8) -> u8
    ensures { result ≡ kind_number (number_kind k) }
{
    if k == INT { INT } else { REAL }
}

// Real where either is.
pub fn joined(left: u8, right: u8) -> u8
    ensures { result ≡ kind_number (join (number_kind left) (number_kind right)) }
{
    if left == INT { kind(right) } else { REAL }
}

// Of an integer only, as `~` and SINCE.
pub fn of_integer(k: u8) -> u8
    ensures { result ≡ typed (is_int (number_kind k)) Int }
{
    if k == INT { INT } else { NOT_TAKEN }
}

// Of integers only.
fn whole(left: u8, right: u8) -> u8
    ensures { result ≡ typed (is_int (number_kind left) && is_int (number_kind right)) Int }
{
    if left != INT {
        return NOT_TAKEN;
    }
    if right == INT { INT } else { NOT_TAKEN }
}

// A power has its base's kind, and an integer for its exponent.
fn raised(base: u8, exponent: u8) -> u8
    ensures { result ≡ typed (is_int (number_kind exponent)) (number_kind base) }
{
    if exponent == INT {
        kind(base)
    } else {
        NOT_TAKEN + kind(base)
    }
}

// The kind of a result, with NOT_TAKEN added where the operand's kind is not taken; NOT_TAKEN for a number that is no operator's.
pub fn unary_kind(op: u32, k: u8) -> u8
    ensures { result ≡ unary_typed (unary_of op) (number_kind k) }
{
    match op {
        0 => kind(k),
        1 => of_integer(k),
        2 => INT,
        3 => kind(k),
        4 => REAL,
        5 => INT,
        6 => INT,
        7 => REAL,
        _ => NOT_TAKEN,
    }
}

// The classes of binary operators stand in the list one behind the other: a power, arithmetic, and from these numbers on shifts,
// comparisons, bitwise operators, MAX and MIN.
const POWER: u32 = 0;

const SHIFTS: u32 = 6;

const COMPARISONS: u32 = 9;

const BITWISE: u32 = 15;

const CHOICES: u32 = 18;

const END: u32 = 20;

// As `unary_kind`, of two operands.
pub fn binary_kind(op: u32, left: u8, right: u8) -> u8
    ensures { result ≡ binary_typed (binary_of op) (number_kind left) (number_kind right) }
{
    if op == POWER {
        return raised(left, right);
    }
    if op < SHIFTS {
        return joined(left, right);
    }
    if op < COMPARISONS {
        return whole(left, right);
    }
    if op < BITWISE {
        return INT;
    }
    if op < CHOICES {
        return whole(left, right);
    }
    if op < END {
        joined(left, right)
    } else {
        NOT_TAKEN
    }
}
