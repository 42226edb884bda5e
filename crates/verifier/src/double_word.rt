// A number below 2 ^ 128 in two words of 64 bits. An integer of 128 bits is aligned otherwise on machines of 32 bits and on the web, for which the
// same module is compiled, so no crate that they run has one. A clause sees the number.
ghost use Rattle.std.specs.Prelude.{◌≡◌, ◌+◌, ◌*◌, ◌/◌, ◌%◌, ◌^◌, ◌<◌, ◌==◌};
ghost use Rattle.std.specs.Cmp.Rules.{comparing};
ghost use Rattle.std.proofs.Common.{rules};

use std::marker::Model;

const HIGHEST_BIT: u64 = 0x8000_0000_0000_0000;

#[derive(Clone, Copy)]
pub struct DoubleWord {
    low: u64,
    high: u64,
}

impl Model for DoubleWord {
    ghost use Rattle.std.specs.Prelude.{ℕ, ◌+◌, ◌*◌, ◌/◌, ◌%◌, ◌^◌, ◌<◌};

    ghost Value = { ℕ };

    ghost view = { λ d. d.low + d.high * 2 ^ 64 };

    ghost invariant = { λ d. d.low < 2 ^ 64 };

    ghost inverse = { λ n. record { low = n % 2 ^ 64; high = n / 2 ^ 64 } };
}

impl DoubleWord {
    pub fn zero() -> DoubleWord
        ensures { result ≡ 0 }
    {
        DoubleWord { low: 0, high: 0 }
    }

    // One more bit, below the others.
    pub fn with_bit(self, n: u8) -> DoubleWord
        requires { (self < 2 ^ 127) × (n < 2) }
        ensures { result ≡ self * 2 + n }
    {
        DoubleWord {
            low: self.low % HIGHEST_BIT * 2 + (n as u64),
            high: self.high * 2 + self.low / HIGHEST_BIT,
        }
    }

    // Without the lowest bit.
    pub fn half(self) -> DoubleWord
        ensures { result ≡ self / 2 }
    {
        DoubleWord {
            low: self.high % 2 * HIGHEST_BIT + self.low / 2,
            high: self.high / 2,
        }
    }

    // Another lowest bit.
    pub fn with_lowest(self, n: u8) -> DoubleWord
        requires { n < 2 }
        ensures { result ≡ self / 2 * 2 + n }
    {
        DoubleWord {
            low: self.low / 2 * 2 + (n as u64),
            high: self.high,
        }
    }

    pub fn lowest(self) -> u8
        ensures { result ≡ self % 2 }
    {
        (self.low % 2) as u8
    }
}

impl PartialEq for DoubleWord {
    ghost eq = { λ a b. a == b };

    ghost laws = { Prim.search (comparing, rules) };

    fn eq(&self, other: &DoubleWord) -> bool {
        self.low == other.low && self.high == other.high
    }
}
