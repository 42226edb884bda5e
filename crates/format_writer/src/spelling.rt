// Where the token that stands at a place ends.
ghost use Rattle.std.specs.Prelude.{◌≡◌, ◌+◌, ◌≤◌, ◌<◌, length, drop};
ghost use Rattle.memory.specs.Names.{is_digit};
ghost use Rattle.tokens.specs.Bytes.{is_word, is_run, run_len};
ghost use Rattle.tokens.specs.Numerals.{is_sign, behind_part, opens_exponent, tail_len, numeral_len};
ghost use Rattle.tokens.specs.Symbols.{symbol_count, symbol_bytes};
ghost use Rattle.format_writer.specs.private.Spelling.{StandsAt};

use memory::names;
use tokens::bytes;

// The end of a dot and digits; the position itself where there are none.
fn part_end(text: &[u8], at: usize) -> usize
    requires { at ≤ length text.now }
    ensures { (at ≤ result) × (result ≤ length text.now) × (drop result text.now ≡ behind_part (drop at text.now)) }
{
    if bytes::byte_at(text, at) != b'.' {
        return at;
    }
    let d = names::digits(text, at + 1, 0);
    if d.end == at + 1 {
        return at;
    }
    d.end
}

fn is_sign(b: u8) -> bool
    ensures { result ≡ is_sign b }
{
    b == b'+' || b == b'-'
}

// Whether `E` and a sign come next.
fn opens_exponent(text: &[u8], at: usize) -> bool
    requires { at ≤ length text.now }
    ensures { result ≡ opens_exponent (drop at text.now) }
{
    if bytes::byte_at(text, at) != b'E' {
        return false;
    }
    is_sign(bytes::byte_at(text, at + 1))
}

// The end of the longest run of letters, digits and dots.
fn run_end(text: &[u8], at: usize) -> usize
    requires { at ≤ length text.now }
    ensures { (result ≡ at + run_len is_run (drop at text.now)) × (result ≤ length text.now) }
{
    bytes::run_end(text, at, bytes::is_run)
}

// The end of the longest run of letters and digits.
fn word_end(text: &[u8], at: usize) -> usize
    requires { at ≤ length text.now }
    ensures { (result ≡ at + run_len is_word (drop at text.now)) × (result ≤ length text.now) }
{
    bytes::run_end(text, at, bytes::is_word)
}

// The end of what follows a mantissa: a run goes on past the sign of an exponent.
fn tail_end(text: &[u8], at: usize) -> usize
    requires { at ≤ length text.now }
    ensures { (result ≡ at + tail_len (drop at text.now)) × (result ≤ length text.now) }
{
    if opens_exponent(text, at) {
        return run_end(text, at + 2);
    }
    run_end(text, at)
}

fn numeral_end(text: &[u8], at: usize) -> usize
    requires { at ≤ length text.now }
    ensures { (result ≡ at + numeral_len (drop at text.now)) × (result ≤ length text.now) }
{
    let d = names::digits(text, at, 0);
    let whole = d.end;
    tail_end(text, part_end(text, whole))
}

// How many bytes each symbol has, in the order of their numbers.
const SIZES: [u8; 27] = [
    2, 1, 1, 1, 1, 1, 2, 2, 3, 1, 1, 2, 2, 2, 2, 1, 1, 1, 2, 2, 1, 1, 1, 1, 1, 1, 1,
];

fn symbol_length(n: u8) -> u8
    requires { n < symbol_count }
    ensures { result ≡ length (symbol_bytes n) }
{
    SIZES[n as usize]
}

// Of the token at a place, which is the symbol n if it is one.
pub fn token_end(text: &[u8], at: usize, n: u8) -> usize
    requires { StandsAt text.now at n }
    ensures { ((h : StandsAt text.now at n) → result ≡ h.end) × (at ≤ result) × (result ≤ length text.now) }
{
    let b = text[at];
    if names::is_digit(b) {
        return numeral_end(text, at);
    }
    if bytes::is_letter(b) {
        return word_end(text, at);
    }
    at + (symbol_length(n) as usize)
}
