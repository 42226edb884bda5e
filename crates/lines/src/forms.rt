// The value of a cell in text: the pattern to write, for a value of the bank's form and range.
ghost use Rattle.std.specs.Prelude.{◌≡◌, ◌≤◌};
ghost use Rattle.lines.specs.Forms.{negative_form, signed_form, hex_form, cell_pattern};
ghost use Rattle.lines.specs.private.Steps.{value_form, token_form, scanned_form};

use memory::{Bank, names};
use tokens::Token;
use values::Value;

// The digits after a `-`.
fn negative(digits: &[u8], half: u64) -> Option<u32>
    requires { half ≤ 2147483648 }
    ensures { result ≡ negative_form half digits.now }
{
    let n = names::number_below(digits, half + 1)?;
    if n == 0 {
        return None;
    }
    Some((2 * half - (n as u64)) as u32)
}

fn signed(text: &[u8], half: u64) -> Option<u32>
    requires { half ≤ 2147483648 }
    ensures { result ≡ signed_form half text.now }
{
    match text {
        [b'-', digits @ ..] => negative(digits, half),
        _ => names::number_below(text, half),
    }
}

fn value_form(v: Value) -> Option<u32>
    ensures { result ≡ value_form v }
{
    match v {
        Value::Int(z) => Some(values::patterns::pattern(z)),
        Value::Real(_) => None,
    }
}

fn token_form(t: Token) -> Option<u32>
    ensures { result ≡ token_form t }
{
    match t {
        Token::Number(v) => value_form(v),
        Token::Cell(_, _) => None,
        Token::Letter(_) => None,
        Token::Name(_) => None,
        Token::Symbol(_) => None,
    }
}

fn scanned_form(s: Result<Token, u32>) -> Option<u32>
    ensures { result ≡ scanned_form s }
{
    match s {
        Ok(t) => token_form(t),
        Err(_) => None,
    }
}

// `0x` and eight digits, read as a formula's are.
fn hexadecimal(text: &[u8]) -> Option<u32>
    ensures { result ≡ hex_form text.now }
{
    match text {
        [b'0', b'x', digits @ ..] if digits.len() == 8 => scanned_form(
            tokens::numerals::hexadecimal(digits),
        ),
        _ => None,
    }
}

pub fn pattern_of(bank: Bank, text: &[u8]) -> Option<u32>
    ensures { result ≡ cell_pattern bank text.now }
{
    match bank {
        Bank::X => names::number_below(text, 2),
        Bank::C => names::number_below(text, 2),
        Bank::V => names::number_below(text, 65536),
        Bank::N => signed(text, 32768),
        Bank::D => signed(text, 2147483648),
        Bank::R => hexadecimal(text),
    }
}
