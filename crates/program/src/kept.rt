// A text of which only so much is kept as can matter. A clause sees the list of its bytes.
ghost use Rattle.std.specs.Prelude.{◌≡◌, ◌≤◌, [], ◌∷◌, ◌++◌, length, take};
ghost use Rattle.program.specs.Stream.{kept_bytes};

use crate::stream::KEPT_BYTES;
use std::marker::Model;

#[derive(Drop)]
pub struct KeptText {
    bytes: [u8; KEPT_BYTES],
    length: usize,
}

impl Model for KeptText {
    ghost use Rattle.std.specs.Prelude.{List, ℕ, ◌≤◌, take};
    ghost use Rattle.program.specs.declared.stream.TheConstants.{KEPT_BYTES};

    ghost Value = { List ℕ };

    ghost view = { λ t. take t.length t.bytes };

    ghost invariant = { λ t. t.length ≤ KEPT_BYTES };
}

impl KeptText {
    pub(crate) fn new() -> Self
        ensures { result ≡ [] }
    {
        KeptText {
            bytes: crate::zeros(),
            length: 0,
        }
    }

    pub fn bytes(&self) -> &[u8]
        ensures text { result.now ≡ self.now }
        ensures upper_bound { length result.now ≤ kept_bytes }
    {
        &self.bytes[..self.length]
    }

    // One byte more, if there is room.
    pub(crate) fn push(&mut self, b: u8)
        ensures { self.new ≡ take kept_bytes (self.old ++ b ∷ []) }
    {
        if self.length < KEPT_BYTES {
            self.bytes[self.length] = b;
            self.length += 1;
        }
    }

    pub(crate) fn set(&mut self, text: &[u8])
        requires { length text.now ≤ kept_bytes }
        ensures { self.new ≡ text.now }
    {
        self.bytes[..text.len()].copy_from_slice(text);
        self.length = text.len();
    }

    pub(crate) fn clear(&mut self)
        ensures { self.new ≡ [] }
    {
        self.length = 0;
    }
}
