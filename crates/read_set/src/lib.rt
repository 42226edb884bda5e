// Which cells code reads (paper 02, Ask 11): specs/Cells.antt. Each instruction marks where its cells begin and how many they are; one
// pass over the numbers of all cells then lists those that a mark reaches. No instruction marks more than one word.
#![tactic(auto)]

ghost use Rattle.std.specs.Prelude.{◌≡◌, ◌/◌, ◌<◌, length, set};
ghost use Rattle.std.proofs.lemmas.List.Edits.{sets};
ghost use Rattle.code.specs.declared.Class.TheVariants.{Load, LoadIndexed, Total, Match};
ghost use Rattle.code.specs.Instructions.{instruction_of, instructions};
ghost use Rattle.code.specs.private.Classes.{instr_in};
ghost use Rattle.read_set.specs.Cells.{first_number, cell_count, cell_numbers, read_by};
ghost use Rattle.read_set.specs.private.Intervals.{empty, within, RangeReads, Reads};
ghost use Rattle.read_set.specs.private.Reaches.{extended, reached_numbers, Marks};

use code::Class;
use memory::{Bank, numbers};
use totals::{ranges, tables};

// How many cells there are.
pub const CELLS: usize = 1152;

// Cells by number: so many from the first on.
#[derive(Clone, Copy)]
pub struct Interval {
    pub first: usize,
    pub count: u32,
}

// The number of a bank's first cell.
pub fn first_number(bank: Bank) -> usize
    ensures { result ≡ first_number bank }
{
    match bank {
        Bank::X => 0,
        Bank::C => 64,
        Bank::V => 128,
        Bank::N => 384,
        Bank::D => 640,
        Bank::R => 896,
    }
}

fn nothing() -> Interval
    ensures { result ≡ empty }
{
    Interval { first: 0, count: 0 }
}

// So many cells of a bank from an element on, where the bank has them.
fn stretch(bank: Bank, element: u32, count: u32) -> Interval
    ensures { result ≡ within bank element count }
{
    if ranges::is_good(bank, element, count) {
        Interval {
            first: first_number(bank) + (element as usize),
            count,
        }
    } else {
        nothing()
    }
}

// One function for each class of instruction that reads cells, with w the number of its eight bytes.
fn one_cell(w: u64) -> Interval
    ensures { Reads (instr_in Load w) result }
{
    match numbers::bank_numbered(code::number_of(w)) {
        Some(b) => stretch(b, code::word_of(w), 1),
        None => nothing(),
    }
}

fn whole_bank(w: u64) -> Interval
    ensures { Reads (instr_in LoadIndexed w) result }
{
    if code::word_of(w) != 0 {
        return nothing();
    }
    match numbers::bank_numbered(code::number_of(w)) {
        Some(b) => stretch(b, 0, memory::layout_of(b).elements),
        None => nothing(),
    }
}

fn range(word: u32) -> Interval
    ensures { RangeReads word result }
{
    match numbers::bank_numbered(code::range_bank(word)) {
        Some(b) => stretch(b, code::range_first(word), code::range_count(word)),
        None => nothing(),
    }
}

fn total(w: u64) -> Interval
    ensures { Reads (instr_in Total w) result }
{
    match tables::total_of(code::number_of(w)) {
        Some(_) => range(code::word_of(w)),
        None => nothing(),
    }
}

fn matching(w: u64) -> Interval
    ensures { Reads (instr_in Match w) result }
{
    match tables::match_of(code::number_of(w)) {
        Some(_) => range(code::word_of(w)),
        None => nothing(),
    }
}

// What an instruction reads: nothing, its cell, its bank or its range.
fn interval_of(w: u64) -> Interval
    ensures { Reads (instruction_of w) result }
{
    match code::class_of(w) {
        Class::PushInt | Class::PushReal | Class::Tick | Class::Since => nothing(),
        Class::Jump | Class::JumpIfFalse | Class::JumpIfTrue => nothing(),
        Class::Load => one_cell(w),
        Class::LoadIndexed => whole_bank(w),
        Class::Unary | Class::Binary => nothing(),
        Class::Total => total(w),
        Class::Match => matching(w),
        Class::Unknown => nothing(),
    }
}

// A mark is how many cells are reached from its number on.
fn extend(reaches: &mut [u32], first: usize, count: u32)
    requires { first < length reaches.old }
    ensures { reaches.new ≡ extended reaches.old first count }
{
    if reaches[first] < count {
        reaches[first] = count;
    }
}

// Marks what the first n instructions of the code read. Those beyond the buffer are not there.
fn mark(code: &[u8], n: usize, reaches: &mut [u32])
    requires { length reaches.old ≡ cell_count }
    ensures { Marks (instructions code.now n) reaches.old reaches.new }
{
    for place in 0..n.min(code.len() / 8) {
        let cells = interval_of(code::fetch(code, place));
        extend(reaches, cells.first, cells.count);
    }
}

// Where there is no room, nothing is written.
fn put(list: &mut [u16], at: usize, number: usize)
    requires { number < cell_count }
    ensures { list.new ≡ set list.old at number }
{
    if at < list.len() {
        list[at] = number as u16;
    }
}

// The numbers that a mark reaches.
fn listing(reaches: &[u32], list: &mut [u16]) -> usize
    requires { length reaches.now ≡ cell_count }
    ensures value { result ≡ length (reached_numbers reaches.now) }
    ensures list_after { list.new ≡ sets list.old 0 (reached_numbers reaches.now) }
{
    let mut found: usize = 0;
    let mut end: usize = 0;
    for number in 0..CELLS {
        end = end.max(number + (reaches[number] as usize));
        if number < end {
            put(list, found, number);
            found += 1;
        }
    }
    found
}

// How many cells the first n instructions of a code and the first k of an index code read, and in the list the numbers of the first of
// them, as many as fit.
pub fn cells(code: &[u8], n: usize, index: &[u8], k: usize, list: &mut [u16]) -> usize
    ensures value { result ≡ length (read_by code.now n index.now k) }
    ensures list_after { list.new ≡ sets list.old 0 (cell_numbers (read_by code.now n index.now k)) }
{
    let mut reaches = [0u32; 1152];
    mark(code, n, &mut reaches);
    mark(index, k, &mut reaches);
    listing(&reaches, list)
}
