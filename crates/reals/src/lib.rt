// Single-precision arithmetic: the five operations on bare singles. What each gives, in whole numbers of units of 2 ^ -149,
// is stated in specs/ and proved in proofs/Laws.antt.
#![tactic(auto)]

ghost use Rattle.std.specs.Prelude.{◌≡◌};
ghost use Rattle.reals.specs.Operations.{ieee};

#[derive(Clone, Copy)]
pub enum ArithOp {
    Add,
    Sub,
    Mul,
    Div,
    Rem,
}

// One IEEE operation, rounded once; Rem is C's fmod.
pub fn operate(op: ArithOp, x: f32, y: f32) -> f32
    ensures { result ≡ ieee op x y }
{
    match op {
        ArithOp::Add => x + y,
        ArithOp::Sub => x - y,
        ArithOp::Mul => x * y,
        ArithOp::Div => x / y,
        ArithOp::Rem => x % y,
    }
}
