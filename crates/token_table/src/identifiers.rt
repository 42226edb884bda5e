// Words: what has a digit in the second place can only be a cell, and is read in one go.
ghost use Rattle.std.specs.Prelude.{◌≡◌, true, false, ◌+◌, ◌<◌, length, get_or, drop};
ghost use Rattle.memory.specs.Names.{is_digit, letter_bank};
ghost use Rattle.tokens.specs.Bytes.{is_letter, is_word, run_len};
ghost use Rattle.tokens.specs.Words.{word_token};
ghost use Rattle.tokens.specs.Scan.{run_lexeme};
ghost use Rattle.token_table.specs.private.Lexing.{Lexes};

use crate::{Lex, classes, packing};
use memory::{Bank, names};
use tokens::{bytes, functions};

// A letter alone.
fn letter_at(text: &[u8], at: usize) -> Lex
    requires { (at < length text.now) × (at + 1 ≡ at + run_len is_word (drop at text.now)) }
    ensures { Lexes (run_lexeme is_word word_token (drop at text.now) at) result.word result.end }
{
    match names::bank_of(text[at]) {
        Some(bank) => Lex {
            word: packing::word(classes::LETTER, u8::from(bank), 0),
            end: at + 1,
        },
        None => crate::refused(6),
    }
}

// A word without a digit in the second place: a bank's letter, or a function's name.
fn judged(text: &[u8], at: usize) -> Lex
    requires { (at < length text.now) × (is_digit (get_or text.now (at + 1) 0) ≡ false) }
    ensures { Lexes (run_lexeme is_word word_token (drop at text.now) at) result.word result.end }
{
    let end = bytes::run_end(text, at, bytes::is_word);
    if end == at + 1 {
        return letter_at(text, at);
    }
    let f = tokens::identifiers::function(&text[at..end]);
    if functions::COUNT <= f {
        return crate::refused(6);
    }
    Lex {
        word: packing::word(classes::NAME, f, 0),
        end,
    }
}

// A bank's letter and its first digit: a cell, or nothing.
fn cell_at(text: &[u8], at: usize, bank: Bank, first: u8) -> Lex
    requires at_in_bounds { (at < length text.now) × ((is_letter (get_or text.now at 0) ≡ true) × (letter_bank (get_or text.now at 0) ≡ Some bank)) }
    requires first_value { (first ≡ get_or text.now (at + 1) 0) × (is_digit first ≡ true) }
    ensures { Lexes (run_lexeme is_word word_token (drop at text.now) at) result.word result.end }
{
    let d = names::digits(text, at + 2, (first - b'0') as u64);
    let end = d.end;
    let element = d.value;
    if bytes::is_word(d.next) {
        return crate::refused(6);
    }
    if (memory::layout_of(bank).elements as u64) <= element {
        return crate::refused(6);
    }
    // a leading zero
    if first == b'0' {
        if end != at + 2 {
            return crate::refused(6);
        }
    }
    Lex {
        word: packing::word(classes::CELL, u8::from(bank), element as u32),
        end,
    }
}

pub fn word_at(text: &[u8], at: usize) -> Lex
    requires { (at < length text.now) × (is_letter (get_or text.now at 0) ≡ true) }
    ensures { Lexes (run_lexeme is_word word_token (drop at text.now) at) result.word result.end }
{
    let second = bytes::byte_at(text, at + 1);
    if !names::is_digit(second) {
        return judged(text, at);
    }
    match names::bank_of(text[at]) {
        Some(bank) => cell_at(text, at, bank, second),
        None => crate::refused(6),
    }
}
