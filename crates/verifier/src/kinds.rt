// What an instruction leaves, by kind, from the number of its eight bytes and for its class. A kind is a number, as in operators::kinds;
// NOT_TAKEN and more is none, for what is no instruction or does not take these kinds.
ghost use Rattle.std.specs.Prelude.{◌≡◌, ℕ, leb};
ghost use Rattle.memory.specs.Numbers.{bank_numbered};
ghost use Rattle.code.specs.declared.Class.TheVariants.{PushReal, Tick, Since, Load, LoadIndexed, Unary, Binary, Total, Match};
ghost use Rattle.code.specs.Instructions.{word_of, instruction_of};
ghost use Rattle.code.specs.private.Classes.{instr_in};
ghost use Rattle.verifier.specs.Typing.{well_formed};
ghost use Rattle.verifier.specs.Profile.{well_formed_in};
ghost use Rattle.verifier.specs.private.Shapes.{element_typed, within_bank, bars_range, LeavesKind, ReplacesKind, ReplacesTwo};

use code::Class;
use memory::numbers;
use operators::kinds;
use totals::{ranges, tables};
use values::patterns;

// An infinity or a NaN is not pushed.
pub fn real_kind(w: u64) -> u8
    ensures { LeavesKind (instr_in PushReal w) result }
{
    if patterns::is_finite_single(code::word_of(w)) {
        kinds::REAL
    } else {
        kinds::NOT_TAKEN
    }
}

// The tick is an integer.
pub fn tick_kind(w: u64) -> u8
    ensures { LeavesKind (instr_in Tick w) result }
{
    if code::word_of(w) == 0 {
        kinds::INT
    } else {
        kinds::NOT_TAKEN
    }
}

pub fn since_kind(w: u64, k: u8) -> u8
    ensures { ReplacesKind (instr_in Since w) k result }
{
    if code::word_of(w) == 0 {
        kinds::of_integer(k)
    } else {
        kinds::NOT_TAKEN
    }
}

// The kind of an element, where its bank has it.
fn element_kind(bank: u32, element: u32) -> u8
    ensures { result ≡ element_typed (bank_numbered bank) element }
{
    if element < numbers::bank_elements(bank) {
        numbers::bank_kind(bank)
    } else {
        kinds::NOT_TAKEN
    }
}

pub fn load_kind(w: u64) -> u8
    ensures { LeavesKind (instr_in Load w) result }
{
    element_kind(code::number_of(w) as u32, code::word_of(w))
}

// Whatever the index: the kind of the first element, which every bank has.
pub fn indexed_kind(w: u64) -> u8
    ensures { (k : ℕ) → ReplacesKind (instr_in LoadIndexed w) k result }
{
    if code::word_of(w) == 0 {
        element_kind(code::number_of(w) as u32, 0)
    } else {
        kinds::NOT_TAKEN
    }
}

pub fn unary_kind(w: u64, k: u8) -> u8
    ensures { ReplacesKind (instr_in Unary w) k result }
{
    if code::word_of(w) == 0 {
        kinds::unary_kind(code::number_of(w) as u32, k)
    } else {
        kinds::NOT_TAKEN
    }
}

pub fn binary_kind(w: u64, left: u8, right: u8) -> u8
    ensures { ReplacesTwo (instr_in Binary w) left right result }
{
    if code::word_of(w) == 0 {
        kinds::binary_kind(code::number_of(w) as u32, left, right)
    } else {
        kinds::NOT_TAKEN
    }
}

// Whether the range of an instruction's word lies within its bank.
fn in_bank(w: u64) -> bool
    ensures { result ≡ within_bank (word_of w) }
{
    let word = code::word_of(w);
    let elements = numbers::bank_elements(code::range_bank(word) as u32);
    ranges::is_within(elements, code::range_first(word), code::range_count(word))
}

pub fn total_kind(w: u64) -> u8
    ensures { LeavesKind (instr_in Total w) result }
{
    if in_bank(w) {
        tables::total_kind(
            code::number_of(w) as u32,
            code::range_bank(code::word_of(w)) as u32,
        )
    } else {
        kinds::NOT_TAKEN
    }
}

// Whatever the expression.
pub fn match_kind(w: u64) -> u8
    ensures { (k : ℕ) → ReplacesKind (instr_in Match w) k result }
{
    if in_bank(w) {
        tables::match_kind(
            code::number_of(w) as u32,
            code::range_bank(code::word_of(w)) as u32,
        )
    } else {
        kinds::NOT_TAKEN
    }
}

// Whether the range is of R and there are no reals: a count over R leaves an integer, so its kind does not say it.
pub fn is_barred(w: u64, reals: bool) -> bool
    ensures { result ≡ bars_range reals (word_of w) }
{
    if reals {
        return false;
    }
    numbers::bank_kind(code::range_bank(code::word_of(w)) as u32) == kinds::REAL
}

// A jump stays within the code or goes to its end: so many instructions follow it.
pub fn stays(w: u64, left: usize) -> bool
    ensures { result ≡ leb (word_of w) left }
{
    (code::word_of(w) as usize) <= left
}

// An instruction is known where so many follow it, whether or not it is reached. Each that is, and is no jump, acts on two integers.
pub fn known(w: u64, left: usize) -> bool
    ensures { result ≡ well_formed left (instruction_of w) }
{
    match code::class_of(w) {
        Class::PushInt => true,
        Class::PushReal => real_kind(w) < kinds::NOT_TAKEN,
        Class::Jump | Class::JumpIfFalse | Class::JumpIfTrue => stays(w, left),
        Class::Tick => tick_kind(w) < kinds::NOT_TAKEN,
        Class::Since => since_kind(w, kinds::INT) < kinds::NOT_TAKEN,
        Class::Load => load_kind(w) < kinds::NOT_TAKEN,
        Class::LoadIndexed => indexed_kind(w) < kinds::NOT_TAKEN,
        Class::Unary => unary_kind(w, kinds::INT) < kinds::NOT_TAKEN,
        Class::Binary => binary_kind(w, kinds::INT, kinds::INT) < kinds::NOT_TAKEN,
        Class::Total => total_kind(w) < kinds::NOT_TAKEN,
        Class::Match => match_kind(w) < kinds::NOT_TAKEN,
        Class::Unknown => false,
    }
}

// As `known`; in the profile without reals (reals false) an instruction that reads R is none.
pub fn known_in(w: u64, left: usize, reals: bool) -> bool
    ensures { result ≡ well_formed_in reals left (instruction_of w) }
{
    if !known(w, left) {
        return false;
    }
    if reals {
        return true;
    }
    !code::reads_real(w)
}
