// The kinds of the values held as bits, so that a jump compares and keeps them whole, however many they are. An array has them too: it is right
// for the last value, which the next instruction asks for. Below it, where only jumps reach a place, it may have the kinds of values that other
// code held, so the one below comes from the bits.
ghost use Rattle.std.specs.Prelude.{◌≡◌, ◌-◌, ◌/◌, ◌%◌, ◌^◌, ◌≤◌, ◌<◌, length};

use crate::double_word::DoubleWord;
use operators::kinds::INT;

// How many, and a bit for each, the last pushed in the lowest: 1 for a real. No other bit is set, so that equal kinds are equal bits. It is lent
// where it is used again: a struct with a part that clauses see as a number is passed by value only once.
#[derive(Clone, Copy, PartialEq)]
pub struct Held {
    pub height: usize,
    pub bits: DoubleWord,
    ghost low: { height ≤ 128 },
    ghost few: { bits < 2 ^ height },
}

impl Held {
    ghost use Rattle.operators.specs.Kinds.{number_kind};
    ghost use Rattle.std.specs.Prelude.{[], ◌∷◌};
    ghost use Rattle.verifier.specs.private.Shapes.{kinds_of, below, ArrayHolds};

    pub fn none() -> Held
        ensures { kinds_of result ≡ [] }
    {
        Held {
            height: 0,
            bits: DoubleWord::zero(),
        }
    }

    // One more kind, in the lowest bit.
    pub fn pushed(self, n: u8) -> Held
        requires { (self.height < 128) × (n < 2) }
        ensures { kinds_of result ≡ number_kind n ∷ kinds_of self }
    {
        Held {
            height: self.height + 1,
            bits: self.bits.with_bit(n),
        }
    }

    // Without the last, which is the lowest bit.
    pub fn popped(self) -> Held
        requires { 0 < self.height }
        ensures height { result.height ≡ self.height - 1 }
        ensures rest { kinds_of result ≡ below (kinds_of self) }
    {
        Held {
            height: self.height - 1,
            bits: self.bits.half(),
        }
    }

    // Another kind for the last.
    pub fn replaced(self, n: u8) -> Held
        requires { (0 < self.height) × (n < 2) }
        ensures { kinds_of result ≡ number_kind n ∷ below (kinds_of self) }
    {
        Held {
            height: self.height,
            bits: self.bits.with_lowest(n),
        }
    }

    pub fn lowest(&self) -> u8
        ensures { result ≡ self.now.bits % 2 }
    {
        self.bits.lowest()
    }

    pub fn second(&self) -> u8
        ensures { result ≡ self.now.bits / 2 % 2 }
    {
        self.bits.half().lowest()
    }

    // The array gets the kind of the last.
    pub fn note(&self, kinds: &mut [u8; 128])
        requires { length kinds.old ≡ 128 }
        ensures { ArrayHolds kinds.new self.now }
    {
        if 0 < self.height {
            kinds[self.height - 1] = self.lowest();
        }
    }

    // The kind of the last from the array, and INT where nothing is held.
    pub fn last(&self, kinds: &[u8; 128]) -> u8
        requires { ArrayHolds kinds.now self.now }
        ensures { result ≡ self.now.bits % 2 }
    {
        if self.height == 0 {
            return INT;
        }
        kinds[self.height - 1]
    }
}
