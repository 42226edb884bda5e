// Tokens of a formula's text (paper 01, "Tokens"), and what the bytes of a whole numeral or word are.
#![tactic(auto)]

use memory::Bank;
use totals::{MatchOp, TotalOp};
use values::Value;

pub mod bytes;
pub mod functions;
pub mod identifiers;
pub mod numerals;
pub mod symbols;

#[derive(Clone, Copy)]
pub enum Function {
    Abs,
    ToReal,
    ToInt,
    Trunc,
    Round,
    Frac,
    Max,
    Min,
    If,
    TickMs,
    Since,
    Total(TotalOp),
    Match(MatchOp),
}

// Symbol: an operator, a bracket or the comma, by its number in the table of symbols.
#[derive(Clone, Copy)]
pub enum Token {
    Number(Value),
    Cell(Bank, u32),
    Letter(Bank),
    Name(Function),
    Symbol(u8),
}
