// Instructions and their eight bytes. docs/INSTRUCTIONS.md is the page of them.
#![tactic(auto)]

ghost use Rattle.std.specs.Prelude.{◌≡◌, ◌+◌, ◌<◌, ◌≤◌, length, take, drop};
ghost use Rattle.words.specs.Words.{little_endian};
ghost use Rattle.code.specs.declared.Instr.TheVariants.{Unknown};
ghost use Rattle.code.specs.Instructions.{opcode_of, word_of, range_bank, range_first, range_count, instruction_of, fetched};
ghost use Rattle.code.specs.Reals.{reads_real};
ghost use Rattle.code.specs.Encode.{join_word, join_range};
ghost use Rattle.code.specs.private.Classes.{single_class, range_class, class_of, number_of};

use memory::{Bank, numbers};
use operators::{BinaryOp, UnaryOp, kinds};
use totals::{MatchOp, TotalOp};

pub mod encoding;

// A jump's number is how many instructions it skips after itself. JumpIf takes a value, and jumps if its truth is the one given.
// Tick leaves the tick, and Since takes a value and leaves the tick less it. Total and Match go over a range of cells: a bank, its first
// element and a count.
#[derive(Clone, Copy)]
pub enum Instr {
    PushInt(i32),
    PushReal(f32),
    Load(Bank, u32),
    LoadIndexed(Bank),
    Unary(UnaryOp),
    Binary(BinaryOp),
    Jump(u32),
    JumpIf(bool, u32),
    Tick,
    Since,
    Total(TotalOp, Bank, u32, u32),
    Match(MatchOp, Bank, u32, u32),
    Unknown,
}

// The opcodes: specs/Instructions.antt.
pub const PUSH_INT: u32 = 1;

pub const PUSH_REAL: u32 = 2;

pub const JUMP: u32 = 3;

pub const JUMP_IF_FALSE: u32 = 4;

pub const JUMP_IF_TRUE: u32 = 5;

pub const TICK: u32 = 6;

pub const SINCE: u32 = 7;

// The first of a class: the number of the bank or of the operator is added.
pub const LOAD: u32 = 32;

pub const LOAD_INDEXED: u32 = 64;

pub const UNARY: u32 = 96;

pub const BINARY: u32 = 128;

pub const TOTAL: u32 = 160;

pub const MATCH: u32 = 192;

const CLASS_SIZE: u32 = 32;

// The word stands above the 32 bits of the opcode.
const WORD: u64 = 0x1_0000_0000;

// In the word of a range, the first element stands above the eight bits of the bank, and the count above its eight.
const FIRST: u32 = 0x100;

const COUNT: u32 = 0x1_0000;

// What an instruction is, by its opcode.
#[derive(Clone, Copy)]
pub enum Class {
    PushInt,
    PushReal,
    Jump,
    JumpIfFalse,
    JumpIfTrue,
    Tick,
    Since,
    Load,
    LoadIndexed,
    Unary,
    Binary,
    Total,
    Match,
    Unknown,
}

// The number of eight bytes. Those that must be 0 are the opcode's three upper ones: no opcode reaches them.
pub fn join(opcode: u32, word: u32) -> u64
    ensures { result ≡ join_word opcode word }
{
    u64::from(opcode) + WORD * u64::from(word)
}

pub fn word_of(n: u64) -> u32
    ensures { result ≡ word_of n }
{
    (n / WORD) as u32
}

// The word of an instruction over a range, from its bank by number, its first element and its count.
pub fn range_word(bank: u32, first: u32, count: u32) -> u32
    requires { (bank < 256) × (first < 256) × (count < 65536) }
    ensures { result ≡ join_range bank first count }
{
    bank + FIRST * first + COUNT * count
}

pub fn range_bank(word: u32) -> u8
    ensures { result ≡ range_bank word }
{
    (word % FIRST) as u8
}

pub fn range_first(word: u32) -> u32
    ensures { result ≡ range_first word }
{
    word / FIRST % FIRST
}

pub fn range_count(word: u32) -> u32
    ensures { result ≡ range_count word }
{
    word / COUNT
}

fn opcode_of(n: u64) -> u32
    ensures { result ≡ opcode_of n }
{
    (n % WORD) as u32
}

// The number that an opcode adds to the first of its class.
pub fn number_of(n: u64) -> u8
    ensures { result ≡ number_of n }
{
    (opcode_of(n) % CLASS_SIZE) as u8
}

fn single(opcode: u32) -> Class
    ensures { result ≡ single_class opcode }
{
    match opcode {
        PUSH_INT => Class::PushInt,
        PUSH_REAL => Class::PushReal,
        JUMP => Class::Jump,
        JUMP_IF_FALSE => Class::JumpIfFalse,
        JUMP_IF_TRUE => Class::JumpIfTrue,
        TICK => Class::Tick,
        SINCE => Class::Since,
        _ => Class::Unknown,
    }
}

// Of an opcode behind those of the binary operators.
fn range_class(opcode: u32) -> Class
    ensures { result ≡ range_class opcode }
{
    if opcode < MATCH {
        return Class::Total;
    }
    if opcode < MATCH + CLASS_SIZE {
        Class::Match
    } else {
        Class::Unknown
    }
}

// The tests stand in the order of how often a class comes. Class has no data, so that a caller's match on it is one with the tests.
pub fn class_of(n: u64) -> Class
    ensures { result ≡ class_of (opcode_of n) }
{
    let o = opcode_of(n);
    if o < LOAD {
        return single(o);
    }
    if BINARY <= o {
        if o < TOTAL {
            return Class::Binary;
        }
        return range_class(o);
    }
    if o < LOAD_INDEXED {
        return Class::Load;
    }
    if o < UNARY {
        return Class::LoadIndexed;
    }
    Class::Unary
}

// Whether an instruction reads R, of eight bytes that are one.
pub fn reads_real(n: u64) -> bool
    ensures { (instruction_of n ≡ Unknown → ⊥) → result ≡ reads_real (instruction_of n) }
{
    match class_of(n) {
        Class::Load | Class::LoadIndexed => {
            numbers::bank_kind(u32::from(number_of(n))) == kinds::REAL
        }
        Class::Total | Class::Match => {
            numbers::bank_kind(u32::from(range_bank(word_of(n)))) == kinds::REAL
        }
        _ => false,
    }
}

// The number of four bytes, which are one load.
fn four(code: &[u8], at: usize) -> u32
    requires { at + 4 ≤ length code.now }
    ensures { result ≡ little_endian (take 4 (drop at code.now)) }
{
    u32::from_le_bytes([code[at], code[at + 1], code[at + 2], code[at + 3]])
}

// The eight bytes at a place of the code as one number; 0 where the code does not reach. Joined of two halves, they stay in two
// registers of 32 bits.
pub fn fetch(code: &[u8], place: usize) -> u64
    ensures { result ≡ fetched code.now place }
{
    if code.len() / 8 <= place {
        return 0;
    }
    let at = 8 * place;
    join(four(code, at), four(code, at + 4))
}
