// Numbers as little-endian bytes, as memory cells and instructions have them; and the bits of a byte.
#![tactic(auto)]

ghost use Rattle.std.specs.Prelude.{◌≡◌, ◌<◌};
ghost use Rattle.words.specs.Bits.{bit, with_bit, digit_of};

// The bit k of a byte.
pub fn bit(byte: u8, k: usize) -> u8
    requires { k < 8 }
    ensures { result ≡ bit byte k }
{
    (byte >> k) % 2
}

// The byte with the bit k as given, and its neighbours as they were.
pub fn with_bit(byte: u8, k: usize, on: bool) -> u8
    requires { k < 8 }
    ensures { result ≡ with_bit byte k (digit_of on) }
{
    let weight: u8 = 1 << k;
    let others = byte & !weight;
    if on { others | weight } else { others }
}
