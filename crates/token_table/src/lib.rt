// The tokens of a text, one to a word: the text is scanned once, and the reader and the compiler walk over the words.
#![tactic(auto)]

ghost use Rattle.std.specs.Prelude.{◌≡◌, ℕ, ◌<◌, ◌≤◌, length, drop};
ghost use Rattle.tokens.specs.Scan.{Wrong, lexeme_of, scan};
ghost use Rattle.token_table.specs.private.Table.{word_class, word_operand, word_place, word_number, word_at, Fills, TokenWords};
ghost use Rattle.token_table.specs.private.Lexing.{Lexes};

use tokens::bytes;

pub mod classes;
mod identifiers;
mod numerals;
mod packing;
mod symbols;

// Why a text is refused: the answer, and the place in the text.
#[derive(Clone, Copy)]
pub struct Refusal {
    pub answer: u32,
    pub place: usize,
}

// A token's word, its place still 0, and where the token ends. Bytes that are no token have class 0 and their answer as the number. The functions that make
// one are inlined, so that it stays in registers, where an enum would pass through memory.
#[derive(Clone, Copy)]
pub struct Lex {
    pub word: u64,
    pub end: usize,
}

// The word at a position; 0, the end of the tokens, behind the last.
pub fn word_at(table: &[u64], at: usize) -> u64
    ensures { result ≡ word_at table.now at }
{
    table.get(at).copied().unwrap_or(0)
}

pub fn class_of(w: u64) -> u8
    ensures { result ≡ word_class w }
{
    (w % 256) as u8
}

pub fn operand_of(w: u64) -> u8
    ensures { result ≡ word_operand w }
{
    (w / 256 % 256) as u8
}

pub fn place_of(w: u64) -> usize
    ensures { result ≡ word_place w }
{
    (w / 65536 % 65536) as usize
}

pub fn number_of(w: u64) -> u32
    ensures { result ≡ word_number w }
{
    (w / 4294967296) as u32
}

// Bytes that are no token. Where they end is not asked for.
fn refused(answer: u32) -> Lex
    ensures { (p : ℕ) → Lexes (Wrong answer p) result.word result.end }
{
    Lex {
        word: packing::word(classes::NONE, 0, answer),
        end: 0,
    }
}

// The token at a byte that is not blank. Most symbols stand below the digits: they are told apart from words by one test.
fn token_at(text: &[u8], at: usize) -> Lex
    requires { (at < length text.now) × (length text.now ≤ 1024) }
    ensures { Lexes (lexeme_of (drop at text.now) at) result.word result.end }
{
    let b = text[at];
    if b'0' <= b {
        if memory::names::is_digit(b) {
            return numerals::numeral_at(text, at);
        }
        if bytes::is_letter(b) {
            return identifiers::word_at(text, at);
        }
    }
    symbols::symbol_at(text, at)
}

// Every token of the text and, behind the last, the end; words behind that stay as they were. No token begins with a byte up to the space, so one test
// tells a token from a blank. A turn takes a blank or a whole token, and so many bytes: no range counts them.
pub fn fill(text: &[u8], table: &mut [u64]) -> Result<(), Refusal>
    requires { (length text.now ≤ 1024) × (length text.now < length table.old) }
    ensures table_len_unchanged { length table.new ≡ length table.old }
    ensures fills { Fills (scan text.now) table.new result }
    ensures token_words { TokenWords table.old → TokenWords table.new }
{
    let mut at: usize = 0;
    let mut n: usize = 0;
    while at < text.len() {
        let b = text[at];
        if b <= b' ' {
            if !bytes::is_space(b) {
                return Err(Refusal {
                    answer: 4,
                    place: at,
                });
            }
            at += 1;
        } else {
            let lex = token_at(text, at);
            let w = lex.word;
            if class_of(w) == classes::NONE {
                return Err(Refusal {
                    answer: number_of(w),
                    place: at,
                });
            }
            table[n] = w + 65536 * (at as u64);
            n += 1;
            at = lex.end;
        }
    }
    table[n] = 0;
    Ok(())
}
