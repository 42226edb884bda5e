// For the programs of cases: results as they print them, and what several of them read from a line or work out of a buffer.
#![tactic(auto)]

ghost use Rattle.std.specs.Prelude.{◌≡◌, ◌/◌, ◌≤◌, min, length};

use std::fmt;
use values::{Fault, Outcome, Value};

// A result as it is printed: i and a signed decimal, r and a pattern, ! and a fault's number, or ? for an operand of the wrong kind.
#[derive(Clone, Copy)]
pub struct Shown<T>(pub T);

// A space before each item. A whole line is printed by one `println!`, which is one write where the line has at most 1,024 bytes.
#[derive(Clone, Copy)]
pub struct Each<'a, T>(pub &'a [T]);

// A NaN has no pattern; no operator gives one.
impl fmt::Display for Shown<Value> {
    fn fmt<W: fmt::Write>(&self, f: &mut fmt::Formatter<W>) -> fmt::Result {
        match self.0 {
            Value::Int(z) => write!(f, "i{z}"),
            Value::Real(x) if x.is_nan() => f.write_str("rNaN"),
            Value::Real(x) => write!(f, "r{:08X}", x.to_bits()),
        }
    }
}

impl fmt::Display for Shown<Fault> {
    fn fmt<W: fmt::Write>(&self, f: &mut fmt::Formatter<W>) -> fmt::Result {
        write!(f, "!{}", u32::from(self.0))
    }
}

impl fmt::Display for Shown<Outcome> {
    fn fmt<W: fmt::Write>(&self, f: &mut fmt::Formatter<W>) -> fmt::Result {
        match self.0 {
            Outcome::Done(v) => Shown(v).fmt(f),
            Outcome::Stopped(fault) => Shown(fault).fmt(f),
            Outcome::WrongKind => f.write_str("?"),
        }
    }
}

impl<'a, T: fmt::Display> fmt::Display for Each<'a, T> {
    fn fmt<W: fmt::Write>(&self, f: &mut fmt::Formatter<W>) -> fmt::Result {
        for item in self.0 {
            write!(f, " {item}")?;
        }
        Ok(())
    }
}

// A digit's value, in the low four bits. A byte that is no digit has one too, so `to_digit` does not serve.
fn digit(b: u8) -> u8 {
    if b < 65 { b % 16 } else { b % 16 + 9 }
}

// The bytes of pairs of hexadecimal digits at the front of a buffer, as many as it has room for: how many they are.
pub fn bytes_of(text: &[u8], code: &mut [u8]) -> usize
    ensures bound { result ≤ length code.new }
    ensures value { result ≡ min (length code.new) (length text.now / 2) }
{
    let (pairs, _) = text.as_chunks::<2>();
    for (byte, [high, low]) in code.iter_mut().zip(pairs) {
        *byte = digit(*high) % 16 * 16 + digit(*low) % 16;
    }
    code.len().min(pairs.len())
}

// One number for all bytes of a buffer.
pub fn sum_of(bytes: &[u8]) -> u16 {
    bytes.iter().fold(0, |sum: u16, b| {
        ((u32::from(sum) * 31 + u32::from(*b)) % 65521) as u16
    })
}
