// What jumps brought to each place.
ghost use Rattle.std.specs.Prelude.{◌≡◌, ℕ, ◌-◌, ◌^◌, ◌≤◌, ◌<◌, length, get_or};

use crate::double_word::DoubleWord;
use crate::packing::Held;

// The places up to the end of the code: for each a top, one more than the values that jumps found held, and 0 where no jump came; and the
// kinds of those values, as in `Held`. Two slices, since one of both would take 32 bytes for a place instead of 17, and longer to clear.
#[derive(Drop)]
pub struct Brought<'a> {
    pub end: usize,
    pub tops: &'a mut [u8],
    pub bits: &'a mut [DoubleWord],
    ghost room: { end < length tops.now },
    ghost sizes: { length bits.now ≡ length tops.now },
    ghost low: { (q : ℕ) → get_or tops.now q 0 ≤ 129 },
    ghost few: { (q : ℕ) → get_or bits.now q 0 < 2 ^ (get_or tops.now q 0 - 1) },
}

impl<'a> Brought<'a> {
    ghost use Rattle.std.specs.Prelude.{cond};
    ghost use Rattle.verifier.specs.private.Shapes.{rejected, unreached, holds, kinds_of, brought_to, state_if, Blank};
    ghost use Rattle.verifier.specs.private.Pass.{Joins, Merges};

    pub fn blank(end: usize, tops: &'a mut [u8], bits: &'a mut [DoubleWord]) -> Brought<'a>
        requires { Blank end tops.old bits.old }
        ensures same_end { result.end ≡ end }
        ensures nothing { (q : ℕ) → brought_to result q ≡ unreached }
    {
        Brought { end, tops, bits }
    }

    // None where no jump came.
    pub fn at(&self, place: usize) -> Option<Held>
        requires { place ≤ self.now.end }
        ensures { state_if result ≡ brought_to self.now place }
    {
        let top = self.tops[place];
        if top == 0 {
            return None;
        }
        Some(Held {
            height: (top - 1) as usize,
            bits: self.bits[place],
        })
    }

    // What flows into a place is what jumps brought there, if they brought anything.
    pub fn agree(&self, place: usize, held: &Held) -> bool
        requires { place ≤ self.now.end }
        ensures { Joins (holds (kinds_of held.now)) (brought_to self.now place) (cond result (holds (kinds_of held.now)) rejected) }
    {
        match self.at(place) {
            Some(there) => *held == there,
            None => true,
        }
    }

    // A jump brings the kinds held to its target: they must be the same that jumps brought before.
    pub fn merge(&mut self, target: usize, held: &Held) -> bool
        requires { target ≤ self.old.end }
        ensures same_end { self.new.end ≡ self.old.end }
        ensures merges { Merges (kinds_of held.now) target (brought_to self.old) result (brought_to self.new) }
    {
        match self.at(target) {
            Some(earlier) => *held == earlier,
            None => {
                self.tops[target] = (held.height + 1) as u8;
                self.bits[target] = held.bits;
                true
            }
        }
    }
}
