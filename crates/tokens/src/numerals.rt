// Numerals that are not decimal: hexadecimal, or refused. A numeral is judged on its own run of bytes.
ghost use Rattle.std.specs.Prelude.{◌≡◌, true, ◌&&◌, cond, ◌^◌, ◌<◌, drop};
ghost use Rattle.std.specs.List.{list_all};
ghost use Rattle.tokens.specs.Bytes.{is_hex, all};
ghost use Rattle.tokens.specs.Numerals.{non_empty, hex_digit, hex_from, hex_of, is_hex_run};
ghost use Rattle.tokens.specs.private.Patterns.{pattern_token};

use crate::{Token, bytes};
use values::Value;

fn hex_digit(b: u8) -> u32
    requires { is_hex b ≡ true }
    ensures { result ≡ hex_digit b }
{
    match b {
        b'0'..=b'9' => (b - b'0') as u32,
        b'A'..=b'F' => (b - b'A') as u32 + 10,
        _ => (b - b'a') as u32 + 10,
    }
}

fn all_hex(run: &[u8]) -> bool
    ensures { result ≡ list_all is_hex run.now }
{
    run.iter().all(|b| bytes::is_hex(*b))
}

// The number of hexadecimal digits.
fn hex_value(run: &[u8]) -> u32
    requires { ((non_empty run.now && all is_hex run.now) ≡ true) × (hex_from 0 run.now < 2 ^ 32) }
    ensures { result ≡ hex_from 0 run.now }
{
    let mut n: u32 = 0;
    for b in run {
        n = n * 16 + hex_digit(*b);
    }
    n
}

// The pattern of 32 bits of the digits after 0x, or the answer that refuses them.
fn hex_pattern(run: &[u8]) -> Result<u32, u32>
    ensures { pattern_token result ≡ hex_of run.now }
{
    if run.is_empty() || !all_hex(run) {
        return Err(4);
    }
    if 8 < run.len() {
        return Err(5);
    }
    Ok(hex_value(run))
}

pub fn hexadecimal(run: &[u8]) -> Result<Token, u32>
    ensures { result ≡ hex_of run.now }
{
    match hex_pattern(run) {
        Ok(bits) => Ok(Token::Number(Value::Int(values::patterns::from_pattern(bits)))),
        Err(answer) => Err(answer),
    }
}

// A run that is neither decimal nor a real literal: the pattern of 32 bits of its digits, or the answer that refuses it.
pub fn other_numeral(run: &[u8]) -> Result<u32, u32>
    ensures { pattern_token result ≡ cond (is_hex_run run.now) (hex_of (drop 2 run.now)) (Err 4) }
{
    match run {
        [b'0', b'x', digits @ ..] => hex_pattern(digits),
        _ => Err(4),
    }
}
