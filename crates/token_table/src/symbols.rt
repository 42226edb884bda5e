// Operators, brackets and the comma by the longest match. Each arm says its numbers, so that its word is a constant.
ghost use Rattle.std.specs.Prelude.{cond, [], ◌∷◌, ℕ, ◌<◌, ◌≤◌, eqb, length, drop};
ghost use Rattle.tokens.specs.Symbols.{longest};
ghost use Rattle.tokens.specs.Scan.{symbol_lexeme};
ghost use Rattle.token_table.specs.private.Lexing.{Lexes, SymbolSize};

use crate::{Lex, classes, packing};
use tokens::{bytes, symbols as numbers};

// A symbol of some bytes.
fn symbol(at: usize, n: u8, bytes: usize) -> Lex
    requires { (at < 1024) × SymbolSize n bytes }
    ensures { Lexes (symbol_lexeme at n) result.word result.end }
{
    Lex {
        word: packing::word(classes::SYMBOL, n, 0),
        end: at + bytes,
    }
}

// The symbol two if a byte is x, otherwise the symbol one.
fn doubled(at: usize, x: u8, b: u8, two: u8, one: u8) -> Lex
    requires { (at < 1024) × (SymbolSize two 2 × SymbolSize one 1) }
    ensures { Lexes (symbol_lexeme at (cond (eqb x b) two one)) result.word result.end }
{
    if x == b {
        symbol(at, two, 2)
    } else {
        symbol(at, one, 1)
    }
}

// After `<`, whatever comes third.
fn less(at: usize, b: u8) -> Lex
    requires { at < 1024 }
    ensures { (c : ℕ) → Lexes (symbol_lexeme at (longest (60 ∷ b ∷ c ∷ []))) result.word result.end }
{
    if b == b'<' {
        return symbol(at, numbers::SHIFT_LEFT, 2);
    }
    doubled(at, b'=', b, numbers::LESS_OR_EQUAL, numbers::LESS)
}

// After `>`.
fn greater(at: usize, b: u8, c: u8) -> Lex
    requires { at < 1024 }
    ensures { Lexes (symbol_lexeme at (longest (62 ∷ b ∷ c ∷ []))) result.word result.end }
{
    if b != b'>' {
        return doubled(at, b'=', b, numbers::GREATER_OR_EQUAL, numbers::GREATER);
    }
    if c == b'>' {
        symbol(at, numbers::SHIFT_RIGHT_ZEROS, 3)
    } else {
        symbol(at, numbers::SHIFT_RIGHT, 2)
    }
}

// After `=`, which is no symbol by itself.
fn equals(at: usize, b: u8) -> Lex
    requires { at < 1024 }
    ensures { (c : ℕ) → Lexes (symbol_lexeme at (longest (61 ∷ b ∷ c ∷ []))) result.word result.end }
{
    if b == b'=' {
        symbol(at, numbers::EQUAL, 2)
    } else {
        crate::refused(4)
    }
}

// The longest symbol at a position of the text. No symbol has a byte 0, so one stands for each byte past the end.
pub fn symbol_at(text: &[u8], at: usize) -> Lex
    requires { (at < length text.now) × (length text.now ≤ 1024) }
    ensures { Lexes (symbol_lexeme at (longest (drop at text.now))) result.word result.end }
{
    let b = bytes::byte_at(text, at + 1);
    match text[at] {
        b'*' => doubled(at, b'*', b, numbers::POWER, numbers::TIMES),
        b'/' => symbol(at, numbers::DIVIDE, 1),
        b'%' => symbol(at, numbers::REMAINDER, 1),
        b'+' => symbol(at, numbers::PLUS, 1),
        b'-' => symbol(at, numbers::MINUS, 1),
        b'<' => less(at, b),
        b'>' => greater(at, b, bytes::byte_at(text, at + 2)),
        b'=' => equals(at, b),
        b'!' => doubled(at, b'=', b, numbers::NOT_EQUAL, numbers::NOT),
        b'&' => doubled(at, b'&', b, numbers::AND, numbers::BIT_AND),
        b'^' => symbol(at, numbers::BIT_XOR, 1),
        b'|' => doubled(at, b'|', b, numbers::OR, numbers::BIT_OR),
        b'~' => symbol(at, numbers::COMPLEMENT, 1),
        b'(' => symbol(at, numbers::OPEN, 1),
        b')' => symbol(at, numbers::CLOSE, 1),
        b'[' => symbol(at, numbers::OPEN_INDEX, 1),
        b']' => symbol(at, numbers::CLOSE_INDEX, 1),
        b',' => symbol(at, numbers::COMMA, 1),
        _ => crate::refused(4),
    }
}
