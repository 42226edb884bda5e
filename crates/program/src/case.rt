// What the lines of a case say, and what one more line sets: a cell, the target or the expression.
ghost use Rattle.std.specs.Prelude.{◌≡◌, ◌≤◌, length};
ghost use Rattle.memory.specs.Layout.{image_size};
ghost use Rattle.memory.specs.Names.{named_rule};
ghost use Rattle.program.specs.Cases.{zeros, empty_case, set_cell, after_line};
ghost use Rattle.program.specs.Stream.{kept_bytes, case_in, LengthsInside, Replies};

use crate::kept::KeptText;
use crate::reply;
use lines::{forms, printing};
use memory::IMAGE_SIZE;
use tokens::identifiers;

#[derive(Drop)]
pub struct Case {
    pub memory: [u8; IMAGE_SIZE],
    pub target: KeptText,
    pub text: KeptText,
}

// How many bytes of their buffers the target, the expression and the line in progress take.
#[derive(Clone, Copy)]
pub struct Lengths {
    pub target: usize,
    pub text: usize,
    pub line: usize,
}

// A line whose key is a cell's name and whose value has the bank's form sets the cell.
fn set_cell(memory: &mut [u8], key: &[u8], value: &[u8])
    requires { length memory.old ≡ image_size }
    ensures { memory.new ≡ set_cell memory.old value.now (named_rule key.now) }
{
    let Some((bank, element)) = memory::names::cell_named(key) else {
        return;
    };
    let Some(n) = forms::pattern_of(bank, value) else {
        return;
    };
    memory::cells::put(memory, bank, element, n);
}

impl Case {
    // Before the first line.
    pub fn new() -> Self
        ensures { result ≡ empty_case (zeros image_size) }
    {
        Case {
            memory: crate::blank_image(),
            target: KeptText::new(),
            text: KeptText::new(),
        }
    }

    // A line has ended. Any but the target's and the expression's can only set a cell.
    pub fn take_line(&mut self, line: &[u8])
        requires { length line.now ≤ kept_bytes }
        ensures { self.new ≡ after_line self.old line.now }
    {
        let k = lines::until(line, b'=');
        if k == line.len() {
            return;
        }
        let key = &line[..k];
        let value = &line[k + 1..];
        if identifiers::same_bytes(key, b"target") {
            self.target.set(value);
        } else if identifiers::same_bytes(key, b"expr") {
            self.text.set(value);
        } else {
            set_cell(&mut self.memory, key, value);
        }
    }

    // The reply to the case, which is worked out on its memory.
    pub fn reply(&mut self, output: &mut [u8]) -> usize
        ensures { Replies self.old output.old result output.new }
    {
        let target = self.target.bytes();
        let text = self.text.bytes();
        reply::write_reply(&mut self.memory, target, text, output)
    }
}

// `Case::take_line` for a caller whose buffers are its own: they may have any size, and the line may be as long as the shorter of them.
pub fn take_line(
    line: &[u8],
    memory: &mut [u8],
    target: &mut [u8],
    text: &mut [u8],
    n: Lengths,
) -> Lengths
    requires memory_len { length memory.old ≡ image_size }
    requires line_in_bounds { (length line.now ≤ length target.old) × (length line.now ≤ length text.old) }
    requires lengths_inside { LengthsInside target.old text.old n }
    ensures lengths_inside_2 { LengthsInside target.new text.new result }
    ensures result_after { case_in memory.new target.new text.new result
        ≡ after_line (case_in memory.old target.old text.old n) line.now }
    ensures line_value { result.line ≡ 0 }
{
    let mut lengths = Lengths {
        target: n.target,
        text: n.text,
        line: 0,
    };
    let k = lines::until(line, b'=');
    if k == line.len() {
        return lengths;
    }
    let key = &line[..k];
    let value = &line[k + 1..];
    if identifiers::same_bytes(key, b"target") {
        lengths.target = printing::put_all(target, 0, value);
    } else if identifiers::same_bytes(key, b"expr") {
        lengths.text = printing::put_all(text, 0, value);
    } else {
        set_cell(memory, key, value);
    }
    lengths
}
