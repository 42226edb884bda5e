// Numerals: decimals and real literals are read in one go; any other run is judged as a whole.
ghost use Rattle.std.specs.Prelude.{◌≡◌, true, cond, ◌+◌, ◌^◌, ◌<◌, ◌≤◌, min, length, get_or, drop};
ghost use Rattle.memory.specs.Names.{is_digit, digits_of, decimal_from, decimal_limit};
ghost use Rattle.tokens.specs.Numerals.{is_sign, scale_of, literal_of};
ghost use Rattle.tokens.specs.Scan.{numeral_lexeme};
ghost use Rattle.token_table.specs.private.Lexing.{scanned_word, Lexes, MantissaAt, OtherNumeral};

use crate::{Lex, classes, packing};
use memory::names;
use tokens::bytes;

// The largest decimal.
const LARGEST: u64 = 2147483647;

// The most digits of a mantissa, and the largest exponent of either sign.
const DIGITS: usize = 9;

const EXPONENT: u64 = 20;

// The digits before an exponent: the number that they make, where they end, how many they are, and how many of them stand behind the dot.
#[derive(Clone, Copy)]
pub struct Mantissa {
    value: u64,
    end: usize,
    digits: usize,
    places: usize,
}

// A run that is neither decimal nor real.
fn judged(text: &[u8], at: usize) -> Lex
    requires { OtherNumeral text.now at }
    ensures { Lexes (numeral_lexeme (drop at text.now) at) result.word result.end }
{
    let end = bytes::run_end(text, at, bytes::is_run);
    Lex {
        word: packing::hexadecimal(tokens::numerals::other_numeral(&text[at..end])),
        end,
    }
}

// An exponent less the digits behind the dot.
fn scale(negative: bool, exponent: u32, places: u32) -> i32
    requires { (exponent ≤ 20) × (places ≤ 8) }
    ensures { result ≡ scale_of negative exponent places }
{
    let e = exponent as i32;
    if negative {
        return -e - (places as i32);
    }
    e - (places as i32)
}

// The word of a real literal of a mantissa and an exponent.
fn literal(m: Mantissa, negative: bool, exponent: u64) -> u64
    requires { (m.digits ≤ 9 → m.value < 2 ^ 32) × (m.places < m.digits) }
    ensures { result ≡ scanned_word (literal_of m.value m.digits m.places negative exponent) }
{
    if DIGITS < m.digits {
        return packing::word(classes::NONE, 0, 5);
    }
    if EXPONENT < exponent {
        return packing::word(classes::NONE, 0, 5);
    }
    let scale = scale(negative, exponent as u32, m.places as u32);
    packing::word(classes::REAL, 0, literals::pattern(m.value as u32, scale))
}

// How many bytes of an exponent are its sign.
fn sign_length(b: u8) -> usize
    ensures { result ≡ cond (is_sign b) 1 0 }
{
    usize::from(matches!(b, b'+' | b'-'))
}

// A mantissa before an `E`.
fn exponent_at(text: &[u8], at: usize, m: Mantissa) -> Lex
    requires { MantissaAt text.now at m × (get_or text.now m.end 0 ≡ 69) }
    ensures { Lexes (numeral_lexeme (drop at text.now) at) result.word result.end }
{
    let sign = bytes::byte_at(text, m.end + 1);
    let negative = sign == b'-';
    let first = m.end + 1 + sign_length(sign);
    let d = names::digits(text, first, 0);
    let end = d.end;
    if end == first {
        return crate::refused(4);
    }
    if bytes::is_run(d.next) {
        return crate::refused(4);
    }
    Lex {
        word: literal(m, negative, d.value),
        end,
    }
}

// Digits before a dot.
fn real_at(text: &[u8], at: usize, dot: usize, whole: u64) -> Lex
    requires at_in_bounds { (at < length text.now) × (is_digit (get_or text.now at 0) ≡ true) }
    requires dot_value { (dot ≡ at + length (digits_of (drop at text.now))) × (get_or text.now dot 0 ≡ 46) }
    requires whole_value { whole ≡ min (decimal_from 0 (digits_of (drop at text.now))) decimal_limit }
    ensures { Lexes (numeral_lexeme (drop at text.now) at) result.word result.end }
{
    let d = names::digits(text, dot + 1, whole);
    let end = d.end;
    if end == dot + 1 {
        return crate::refused(4);
    }
    let m = Mantissa {
        value: d.value,
        end,
        digits: end - at - 1,
        places: end - dot - 1,
    };
    let next = d.next;
    if next == b'E' {
        return exponent_at(text, at, m);
    }
    if bytes::is_run(next) {
        return crate::refused(4);
    }
    Lex {
        word: literal(m, false, 0),
        end,
    }
}

pub fn numeral_at(text: &[u8], at: usize) -> Lex
    requires { (at < length text.now) × (is_digit (get_or text.now at 0) ≡ true) }
    ensures { Lexes (numeral_lexeme (drop at text.now) at) result.word result.end }
{
    let d = names::digits(text, at, 0);
    let n = d.value;
    let end = d.end;
    let next = d.next;
    if next == b'.' {
        return real_at(text, at, end, n);
    }
    if next == b'E' {
        let m = Mantissa {
            value: n,
            end,
            digits: end - at,
            places: 0,
        };
        return exponent_at(text, at, m);
    }
    if bytes::is_word(next) {
        return judged(text, at);
    }
    if LARGEST < n {
        return crate::refused(5);
    }
    Lex {
        word: packing::word(classes::INTEGER, 0, n as u32),
        end,
    }
}
