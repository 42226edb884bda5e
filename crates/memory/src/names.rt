// Names of cells: a bank letter and an element's number (paper 01, "Tokens" and answer 2).
ghost use Rattle.std.specs.Prelude.{◌≡◌, ◌+◌, ◌≤◌, min, length, get_or, drop};
ghost use Rattle.memory.specs.Names.{letter_bank, is_digit, digits_of, decimal_from, decimal_limit, number_rule, named_rule, target_rule};

use crate::Bank;

// Digits that were read: their number, at most LIMIT, where they end, and the byte that stands there, 0 past the end of the text.
#[derive(Clone, Copy)]
pub struct Reading {
    pub value: u64,
    pub end: usize,
    pub next: u8,
}

pub fn bank_of(letter: u8) -> Option<Bank>
    ensures { result ≡ letter_bank letter }
{
    match letter {
        b'X' => Some(Bank::X),
        b'C' => Some(Bank::C),
        b'V' => Some(Bank::V),
        b'N' => Some(Bank::N),
        b'D' => Some(Bank::D),
        b'R' => Some(Bank::R),
        _ => None,
    }
}

pub fn is_digit(b: u8) -> bool
    ensures { result ≡ is_digit b }
{
    b.is_ascii_digit()
}

// No number that is asked for is larger, so larger ones need not be told apart.
const LIMIT: u64 = 4294967296;

// The digits that stand at a position, after those that make n.
pub fn digits(text: &[u8], at: usize, n: u64) -> Reading
    requires { (at ≤ length text.now) × (n ≤ decimal_limit) }
    ensures value_value { result.value ≡ min (decimal_from n (digits_of (drop at text.now))) decimal_limit }
    ensures end_value { (result.end ≡ at + length (digits_of (drop at text.now))) × (result.end ≤ length text.now) }
    ensures next_value { result.next ≡ get_or text.now result.end 0 }
{
    let mut value = n;
    for i in at..text.len() {
        let b = text[i];
        if !is_digit(b) {
            return Reading {
                value,
                end: i,
                next: b,
            };
        }
        value = (value * 10 + u64::from(b - b'0')).min(LIMIT);
    }
    Reading {
        value,
        end: text.len(),
        next: 0,
    }
}

// A decimal number without a leading zero, below a bound.
pub fn number_below(text: &[u8], bound: u64) -> Option<u32>
    requires { bound ≤ decimal_limit }
    ensures { result ≡ number_rule bound text.now }
{
    if text.len() == 0 {
        return None;
    }
    if text[0] == b'0' && text.len() != 1 {
        return None;
    }
    let d = digits(text, 0, 0);
    let n = d.value;
    if d.end != text.len() {
        return None;
    }
    if bound <= n {
        return None;
    }
    Some(n as u32)
}

pub fn cell_named(word: &[u8]) -> Option<(Bank, u32)>
    ensures { result ≡ named_rule word.now }
{
    if word.len() == 0 {
        return None;
    }
    let bank = bank_of(word[0])?;
    let n = number_below(&word[1..], crate::layout_of(bank).elements as u64)?;
    Some((bank, n))
}

// A cell that can be stored to: X is read only.
pub fn target_of(text: &[u8]) -> Option<(Bank, u32)>
    ensures { result ≡ target_rule text.now }
{
    let (bank, n) = cell_named(text)?;
    match bank {
        Bank::X => None,
        _ => Some((bank, n)),
    }
}
