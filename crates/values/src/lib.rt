// What a value is, and how its two kinds of number behave: 32-bit integers and singles (paper 01, "Values and kinds").
// Nothing here mixes kinds: that is the crate operators.
#![tactic(auto)]

ghost use Rattle.std.specs.Prelude.{◌≡◌};
ghost use Rattle.values.specs.Values.{fault_number};
ghost use Rattle.values.specs.private.Comparisons.{comparison, choice};

pub mod convert;
pub mod integers;
pub mod patterns;
pub mod singles;

#[derive(Clone, Copy)]
pub enum Kind {
    Int,
    Real,
}

#[derive(Clone, Copy)]
pub enum Value {
    Int(i32),
    Real(f32),
}

#[derive(Clone, Copy)]
pub enum Fault {
    DividedByZero,
    Overflow,
    OutOfRange,
    IndexError,
}

// What working something out gives. WrongKind: an operand was of a kind that the operator does not take.
#[derive(Clone, Copy)]
pub enum Outcome {
    Done(Value),
    Stopped(Fault),
    WrongKind,
}

#[derive(Clone, Copy)]
pub enum BitOp {
    And,
    Or,
    Xor,
}

#[derive(Clone, Copy)]
pub enum ShiftOp {
    Left,
    Right,
    RightZero,
}

#[derive(Clone, Copy)]
pub enum CompareOp {
    Lt,
    Gt,
    Le,
    Ge,
    Eq,
    Ne,
}

#[derive(Clone, Copy)]
pub enum ChoiceOp {
    Max,
    Min,
}

// Paper 01's number of a fault.
impl From<Fault> for u32 {
    ghost from_gives = { λ f n. n ≡ fault_number f };

    fn from(f: Fault) -> u32 {
        match f {
            Fault::DividedByZero => 11,
            Fault::Overflow => 12,
            Fault::OutOfRange => 13,
            Fault::IndexError => 14,
        }
    }
}

impl CompareOp {
    // Whether it holds of two values of one kind.
    fn holds<T: PartialOrd + Copy>(self, a: T, b: T) -> bool
        ensures { result ≡ comparison T.eq T.partial_cmp self a b }
    {
        match self {
            CompareOp::Lt => a < b,
            CompareOp::Gt => b < a,
            CompareOp::Le => a <= b,
            CompareOp::Ge => b <= a,
            CompareOp::Eq => a == b,
            CompareOp::Ne => a != b,
        }
    }
}

impl ChoiceOp {
    // The second only where it is the greater, or the less.
    fn of<T: PartialOrd + Copy>(self, a: T, b: T) -> T
        ensures { result ≡ choice T.partial_cmp self a b }
    {
        match self {
            ChoiceOp::Max => if a < b { b } else { a },
            ChoiceOp::Min => if b < a { b } else { a },
        }
    }
}
