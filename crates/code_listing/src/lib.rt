// The listing of code (specs/Listing.antt): a line an instruction. What is listed has been checked, so every instruction is known.
#![tactic(auto)]

ghost use Rattle.std.specs.Prelude.{◌≡◌, ◌++◌, suc, ◌+◌, ◌*◌, ◌≤◌, ◌<◌, length};
ghost use Rattle.std.proofs.lemmas.List.Edits.{sets};
ghost use Rattle.words.specs.Ascii.{ascii};
ghost use Rattle.memory.specs.declared.Bank.TheVariants.{D, R};
ghost use Rattle.memory.specs.Numbers.{bank_numbered};
ghost use Rattle.code.specs.declared.Instr.TheVariants.{Unknown};
ghost use Rattle.code.specs.Instructions.{word_of, range_bank, range_first, range_count, instruction_of, instructions};
ghost use Rattle.code.specs.private.Classes.{number_of};
ghost use Rattle.lines.specs.Printing.{cell_text};
ghost use Rattle.lines.specs.private.Steps.{Puts};
ghost use Rattle.text_tables.specs.Tables.{row_at};
ghost use Rattle.code_listing.specs.Listing.{jump_text, instr_text, line_text, lines_from, listing_room, listed};
ghost use Rattle.code_listing.specs.private.Parts.{letter_of, cell_of, range_of, KnownCode};

use code::Class;
use lines::printing;
use memory::{Bank, numbers};

// What must be lent for the text: 32 bytes a line.
pub const LEAST_TEXT: usize = 65536;

// The names of the numbered operators, a row each.
const UNARY: [u8; 38] = *b"NEGATE\n~\n!\nABS\nTOREAL\nTRUNC\nROUND\nFRAC";

const BINARY: [u8; 52] =
    *b"**\n*\n/\n%\n+\n-\n<<\n>>\n>>>\n<\n>\n<=\n>=\n==\n!=\n&\n^\n|\nMAX\nMIN";

const TOTALS: [u8; 19] = *b"SUMR\nAVGR\nMAXR\nMINR";

const MATCHES: [u8; 107] = *b"COUNTIFEQ
COUNTIFNE
COUNTIFGE
COUNTIFGT
COUNTIFLE
COUNTIFLT
SUMIFEQ
SUMIFNE
SUMIFGE
SUMIFGT
SUMIFLE
SUMIFLT";

// The letters of the banks.
pub const BANKS: [u8; 11] = *b"X\nC\nV\nN\nD\nR";

// An answer by its number, as C is handed it, and how long the text is.
#[derive(Clone, Copy)]
pub struct ListedText {
    pub answer: u32,
    pub length: usize,
}

fn put_integer(out: &mut [u8], at: usize, word: u32) -> usize
    requires { at + 20 ≤ length out.old }
    ensures puts { Puts out.old at out.new result (ascii "PUSH_INT " ++ cell_text D word) }
    ensures upper_bound { result ≤ at + 20 }
{
    let next = printing::put_all(out, at, b"PUSH_INT ");
    printing::put_value(out, next, Bank::D, word as u64)
}

fn put_single(out: &mut [u8], at: usize, word: u32) -> usize
    requires { at + 21 ≤ length out.old }
    ensures puts { Puts out.old at out.new result (ascii "PUSH_REAL " ++ cell_text R word) }
    ensures upper_bound { result ≤ at + 21 }
{
    let next = printing::put_all(out, at, b"PUSH_REAL ");
    printing::put_value(out, next, Bank::R, word as u64)
}

fn put_jump(out: &mut [u8], at: usize, name: &[u8], place: usize, word: u32) -> usize
    requires name_len_bound { (length name.now ≤ 14) × (place < 2048) }
    requires at_in_bounds { at + 24 ≤ length out.old }
    ensures puts { Puts out.old at out.new result (jump_text name.now place word) }
    ensures upper_bound { result ≤ at + 24 }
{
    let next = printing::put_all(out, at, name);
    printing::put_decimal(out, next, 1 + (place as u64) + (word as u64))
}

fn put_load(out: &mut [u8], at: usize, w: u64) -> usize
    requires w_bound { word_of w < 1000 }
    requires at_in_bounds { at + 9 ≤ length out.old }
    ensures puts { Puts out.old at out.new result (ascii "LOAD " ++ cell_of (bank_numbered (number_of w)) (word_of w)) }
    ensures upper_bound { result ≤ at + 9 }
{
    let next = printing::put_all(out, at, b"LOAD ");
    match numbers::bank_numbered(code::number_of(w)) {
        Some(bank) => printing::put_name(out, next, bank, code::word_of(w)),
        None => next,
    }
}

fn put_indexed(out: &mut [u8], at: usize, w: u64) -> usize
    requires { at + 14 ≤ length out.old }
    ensures puts { Puts out.old at out.new result (ascii "LOAD_INDEXED " ++ letter_of (bank_numbered (number_of w))) }
    ensures upper_bound { result ≤ at + 14 }
{
    let next = printing::put_all(out, at, b"LOAD_INDEXED ");
    match numbers::bank_numbered(code::number_of(w)) {
        Some(bank) => text_tables::put_row(out, next, &BANKS, u8::from(bank) as usize),
        None => next,
    }
}

// A range by the word that has it.
fn put_range(out: &mut [u8], at: usize, word: u32) -> usize
    requires { at + 11 ≤ length out.old }
    ensures puts { Puts out.old at out.new result (range_of (bank_numbered (range_bank word)) (range_first word) (range_count word)) }
    ensures upper_bound { result ≤ at + 11 }
{
    match numbers::bank_numbered(code::range_bank(word)) {
        Some(bank) => {
            let a = printing::put_all(out, at, b" ");
            let b = printing::put_name(out, a, bank, code::range_first(word));
            let c = printing::put_all(out, b, b" ");
            printing::put_decimal(out, c, code::range_count(word) as u64)
        }
        None => at,
    }
}

// An operator over a range, by its row in a table.
fn put_ranging(out: &mut [u8], at: usize, table: &[u8], w: u64) -> usize
    requires table_len_bound { length (row_at (number_of w) table.now) ≤ 9 }
    requires at_in_bounds { at + 20 ≤ length out.old }
    ensures puts { Puts out.old at out.new result (row_at (number_of w) table.now
        ++ range_of (bank_numbered (range_bank (word_of w))) (range_first (word_of w)) (range_count (word_of w))) }
    ensures upper_bound { result ≤ at + 20 }
{
    let next = text_tables::put_row(out, at, table, code::number_of(w) as usize);
    put_range(out, next, code::word_of(w))
}

// The instruction of the number of eight bytes.
fn put_instruction(out: &mut [u8], at: usize, place: usize, w: u64) -> usize
    requires fact { (instruction_of w ≡ Unknown → ⊥) × (place < 2048) }
    requires at_in_bounds { at + 24 ≤ length out.old }
    ensures puts { Puts out.old at out.new result (instr_text place (instruction_of w)) }
    ensures upper_bound { result ≤ at + 24 }
{
    let number = code::number_of(w) as usize;
    match code::class_of(w) {
        Class::PushInt => put_integer(out, at, code::word_of(w)),
        Class::PushReal => put_single(out, at, code::word_of(w)),
        Class::Jump => put_jump(out, at, b"JUMP ", place, code::word_of(w)),
        Class::JumpIfFalse => put_jump(out, at, b"JUMP_IF_FALSE ", place, code::word_of(w)),
        Class::JumpIfTrue => put_jump(out, at, b"JUMP_IF_TRUE ", place, code::word_of(w)),
        Class::Tick => printing::put_all(out, at, b"TICK"),
        Class::Since => printing::put_all(out, at, b"SINCE"),
        Class::Load => put_load(out, at, w),
        Class::LoadIndexed => put_indexed(out, at, w),
        Class::Unary => text_tables::put_row(out, at, &UNARY, number),
        Class::Binary => text_tables::put_row(out, at, &BINARY, number),
        Class::Total => put_ranging(out, at, &TOTALS, w),
        Class::Match => put_ranging(out, at, &MATCHES, w),
        Class::Unknown => at,
    }
}

fn put_line(out: &mut [u8], at: usize, place: usize, w: u64) -> usize
    requires fact { (instruction_of w ≡ Unknown → ⊥) × (place < 2048) }
    requires at_in_bounds { at + 32 ≤ length out.old }
    ensures puts { Puts out.old at out.new result (line_text place (instruction_of w)) }
    ensures upper_bound { result ≤ at + 32 }
{
    let a = printing::put_decimal(out, at, place as u64);
    let b = printing::put_all(out, a, b" ");
    let c = put_instruction(out, b, place, w);
    printing::put_all(out, c, b"\n")
}

fn put_lines(out: &mut [u8], code: &[u8], n: usize) -> usize
    requires known_code { KnownCode code.now n × (n ≤ 2048) }
    requires listing_room_in_bounds { listing_room ≤ length out.old }
    ensures puts { Puts out.old 0 out.new result (lines_from 0 (instructions code.now n)) }
    ensures upper_bound { result ≤ 32 * n }
{
    let mut at = 0;
    for place in 0..n {
        at = put_line(out, at, place, code::fetch(code, place));
    }
    at
}

// The first n instructions of the code. On a refusal nothing is written, and the length is 0.
pub fn listing(code: &[u8], n: usize, out: &mut [u8]) -> ListedText
    ensures answer_value { (result.answer ≡ (listed (length out.old) (instructions code.now n)).answer)
        × (result.length ≡ length (listed (length out.old) (instructions code.now n)).text) × (result.length ≤ length out.old) }
    ensures out_after { out.new ≡ sets out.old 0 (listed (length out.old) (instructions code.now n)).text }
{
    if out.len() < LEAST_TEXT {
        return ListedText {
            answer: 10,
            length: 0,
        };
    }
    match verifier::check(code, n) {
        Some(_) => ListedText {
            answer: 0,
            length: put_lines(out, code, n),
        },
        None => ListedText {
            answer: 15,
            length: 0,
        },
    }
}
