// The totals by number: specs/Numbers.antt.
ghost use Rattle.std.specs.Prelude.{◌≡◌};
ghost use Rattle.memory.specs.Numbers.{bank_numbered};
ghost use Rattle.totals.specs.Numbers.{total_of, match_of, total_typed, match_typed};

use crate::{MatchOp, TotalOp};
use memory::numbers;
use operators::kinds;
use values::{ChoiceOp, CompareOp};

pub fn total_of(n: u8) -> Option<TotalOp>
    ensures { result ≡ total_of n }
{
    match n {
        0 => Some(TotalOp::Sum),
        1 => Some(TotalOp::Average),
        2 => Some(TotalOp::Choice(ChoiceOp::Max)),
        3 => Some(TotalOp::Choice(ChoiceOp::Min)),
        _ => None,
    }
}

pub fn match_of(n: u8) -> Option<MatchOp>
    ensures { result ≡ match_of n }
{
    match n {
        0 => Some(MatchOp::Count(CompareOp::Eq)),
        1 => Some(MatchOp::Count(CompareOp::Ne)),
        2 => Some(MatchOp::Count(CompareOp::Ge)),
        3 => Some(MatchOp::Count(CompareOp::Gt)),
        4 => Some(MatchOp::Count(CompareOp::Le)),
        5 => Some(MatchOp::Count(CompareOp::Lt)),
        6 => Some(MatchOp::Sum(CompareOp::Eq)),
        7 => Some(MatchOp::Sum(CompareOp::Ne)),
        8 => Some(MatchOp::Sum(CompareOp::Ge)),
        9 => Some(MatchOp::Sum(CompareOp::Gt)),
        10 => Some(MatchOp::Sum(CompareOp::Le)),
        11 => Some(MatchOp::Sum(CompareOp::Lt)),
        _ => None,
    }
}

// The kind of a total over a bank, both by number, as operators::kinds numbers it; NOT_TAKEN where one of them is none.
pub fn total_kind(op: u32, bank: u32) -> u8
    ensures { result ≡ total_typed (total_of op) (bank_numbered bank) }
{
    let kind = numbers::bank_kind(bank);
    if kind == kinds::NOT_TAKEN {
        return kinds::NOT_TAKEN;
    }
    match op {
        0 => kind,
        1 => kinds::REAL,
        2 => kind,
        3 => kind,
        _ => kinds::NOT_TAKEN,
    }
}

// The numbers of counts end here, and those of sums.
const COUNTS: u32 = 6;

const END: u32 = 12;

pub fn match_kind(op: u32, bank: u32) -> u8
    ensures { result ≡ match_typed (match_of op) (bank_numbered bank) }
{
    let kind = numbers::bank_kind(bank);
    if kind == kinds::NOT_TAKEN {
        return kinds::NOT_TAKEN;
    }
    if op < COUNTS {
        return kinds::INT;
    }
    if op < END { kind } else { kinds::NOT_TAKEN }
}
