// Every operator of paper 01 on values: mixed kinds, truth, the branches of IF, and the element that an index names.
#![tactic(auto)]

ghost use Rattle.std.specs.Prelude.{◌≡◌, true, not, ◌||◌};
ghost use Rattle.operators.specs.Operators.{as_real, pair_of, arith_rule, power_rule};
ghost use Rattle.operators.specs.Operators.{from_bool, cut_outcome, truth_rule, unary_rule, since_rule, branch_rule, cut_below, index_rule};
ghost use Rattle.operators.specs.Reals.{real_value, real_unary};
ghost use Rattle.operators.specs.private.Admitted.{admitted};

use reals::ArithOp;
use values::{BitOp, ChoiceOp, CompareOp, Fault, Kind, Outcome, ShiftOp, Value};

pub mod integers;
pub mod kinds;
pub mod numbered;
pub mod tables;

// The operators whose two operands are both worked out: && and || are not among them.
#[derive(Clone, Copy)]
pub enum BinaryOp {
    Arith(ArithOp),
    Power,
    Shift(ShiftOp),
    Compare(CompareOp),
    Bits(BitOp),
    Choice(ChoiceOp),
}

// Trunc is both TRUNC and TOINT.
#[derive(Clone, Copy)]
pub enum UnaryOp {
    Neg,
    Complement,
    Not,
    Abs,
    ToReal,
    Trunc,
    Round,
    Frac,
}

// Two operands of one kind.
#[derive(Clone, Copy)]
pub enum Pair {
    Ints(i32, i32),
    Reals(f32, f32),
}

// A real as it is, an integer promoted.
pub fn as_real(v: Value) -> f32
    ensures { result ≡ as_real v }
{
    match v {
        Value::Int(z) => values::convert::promote(z),
        Value::Real(x) => x,
    }
}

// Integers if both are; otherwise the integer among them is promoted.
pub fn paired(a: Value, b: Value) -> Pair
    ensures { result ≡ pair_of a b }
{
    match a {
        Value::Int(i) => match b {
            Value::Int(j) => Pair::Ints(i, j),
            Value::Real(y) => Pair::Reals(values::convert::promote(i), y),
        },
        Value::Real(x) => Pair::Reals(x, as_real(b)),
    }
}

pub fn arith(op: ArithOp, a: Value, b: Value) -> Outcome
    ensures { result ≡ arith_rule op a b }
{
    match paired(a, b) {
        Pair::Ints(i, j) => values::integers::arith(op, i, j),
        Pair::Reals(x, y) => values::singles::arith(op, x, y),
    }
}

pub fn power(a: Value, n: Value) -> Outcome
    ensures { result ≡ power_rule a n }
{
    match n {
        Value::Int(k) => match a {
            Value::Int(z) => values::integers::power(z, k),
            Value::Real(x) => values::singles::power(x, k),
        },
        Value::Real(_) => Outcome::WrongKind,
    }
}

fn from_bool(b: bool) -> Value
    ensures { result ≡ from_bool b }
{
    if b { Value::Int(1) } else { Value::Int(0) }
}

// Non-zero is true, and -0.0 is zero.
pub fn truth(v: Value) -> bool
    ensures { result ≡ truth_rule v }
{
    match v {
        Value::Int(z) => integers::truth(z),
        Value::Real(x) => x != 0.0,
    }
}

// Whether a value may be held: any, or in the profile without reals (reals false) an integer.
pub fn is_admitted(v: Value, reals: bool) -> bool
    ensures { result ≡ (reals || not (real_value v)) }
{
    if reals {
        return true;
    }
    match v {
        Value::Int(_) => true,
        Value::Real(_) => false,
    }
}

// In the profile without reals (reals false) a real, which none of its code holds, is as good as false.
pub fn truth_in(v: Value, reals: bool) -> bool
    ensures { (reals || not (real_value v)) ≡ true → result ≡ truth_rule v }
{
    if reals {
        return truth(v);
    }
    match v {
        Value::Int(z) => integers::truth(z),
        Value::Real(_) => false,
    }
}

fn negate(v: Value) -> Outcome
    ensures { result ≡ unary_rule UnaryOp.Neg v }
{
    match v {
        Value::Int(z) => integers::unary(UnaryOp::Neg, z),
        Value::Real(x) => Outcome::Done(Value::Real(-x)),
    }
}

fn complement(v: Value) -> Outcome
    ensures { result ≡ unary_rule UnaryOp.Complement v }
{
    match v {
        Value::Int(z) => integers::unary(UnaryOp::Complement, z),
        Value::Real(_) => Outcome::WrongKind,
    }
}

fn absolute(v: Value) -> Outcome
    ensures { result ≡ unary_rule UnaryOp.Abs v }
{
    match v {
        Value::Int(z) => integers::unary(UnaryOp::Abs, z),
        Value::Real(x) => Outcome::Done(Value::Real(values::singles::absolute(x))),
    }
}

fn from_cut(c: Option<i32>) -> Outcome
    ensures { result ≡ cut_outcome c }
{
    match c {
        Some(z) => Outcome::Done(Value::Int(z)),
        None => Outcome::Stopped(Fault::OutOfRange),
    }
}

// An integer is a cut already.
fn round(v: Value) -> Outcome
    ensures { result ≡ unary_rule UnaryOp.Round v }
{
    match v {
        Value::Int(_) => Outcome::Done(v),
        Value::Real(x) => from_cut(values::convert::round(x)),
    }
}

fn truncate(v: Value) -> Outcome
    ensures { result ≡ unary_rule UnaryOp.Trunc v }
{
    match v {
        Value::Int(_) => Outcome::Done(v),
        Value::Real(x) => from_cut(values::convert::truncate(x)),
    }
}

pub fn unary(op: UnaryOp, v: Value) -> Outcome
    ensures { result ≡ unary_rule op v }
{
    match op {
        UnaryOp::Neg => negate(v),
        UnaryOp::Complement => complement(v),
        UnaryOp::Not => Outcome::Done(from_bool(!truth(v))),
        UnaryOp::Abs => absolute(v),
        UnaryOp::ToReal => Outcome::Done(Value::Real(as_real(v))),
        UnaryOp::Trunc => truncate(v),
        UnaryOp::Round => round(v),
        UnaryOp::Frac => arith(ArithOp::Rem, v, Value::Real(1.0)),
    }
}

// As `unary`, or in the profile without reals: there a real is no operand, and TOREAL and FRAC are no operations.
pub fn unary_in(op: UnaryOp, v: Value, reals: bool) -> Outcome
    ensures { result ≡ admitted reals (real_unary op || real_value v) (unary_rule op v) }
{
    if reals {
        return unary(op, v);
    }
    match v {
        Value::Int(z) => integers::unary(op, z),
        Value::Real(_) => Outcome::WrongKind,
    }
}

// The tick less v, around the end of the counter.
pub fn since(tick: u32, v: Value) -> Outcome
    ensures { result ≡ since_rule tick v }
{
    match v {
        Value::Int(z) => Outcome::Done(Value::Int(values::patterns::since(tick, z))),
        Value::Real(_) => Outcome::WrongKind,
    }
}

// The chosen branch of IF, where the other branch is of the kind given.
pub fn branch(v: Value, other: Kind) -> Value
    ensures { result ≡ branch_rule v other }
{
    match other {
        Kind::Int => v,
        Kind::Real => Value::Real(as_real(v)),
    }
}

fn cut_below(c: Option<i32>, elements: u32) -> Result<u32, Fault>
    ensures { result ≡ cut_below elements c }
{
    match c {
        Some(z) => integers::index(z, elements),
        None => Err(Fault::OutOfRange),
    }
}

// The element that an index names, of a bank with so many. A real below zero names none, which a cut would hide; -0.0 is not below zero.
pub fn index(v: Value, elements: u32) -> Result<u32, Fault>
    ensures { result ≡ index_rule elements v }
{
    match v {
        Value::Int(z) => integers::index(z, elements),
        Value::Real(x) => {
            if x < 0.0 {
                return Err(Fault::IndexError);
            }
            cut_below(values::convert::truncate(x), elements)
        }
    }
}
