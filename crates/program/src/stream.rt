// An input that comes in pieces. Of each line only so much is kept as can matter, so that neither the input nor a line has a limit.
ghost use Rattle.std.specs.Prelude.{◌≡◌, [], length, IfSome};
ghost use Rattle.program.specs.Cases.{zeros, after_line};
ghost use Rattle.program.specs.Stream.{after_byte, after_bytes, case_at_end, no_progress, Received};

use crate::case::Case;
use crate::kept::KeptText;
use std::io::Read;

// How much of a line is kept.
pub const KEPT_BYTES: usize = 1032;

// The case of the lines that have ended, and the line in progress.
#[derive(Drop)]
struct Progress {
    case: Case,
    line: KeptText,
}

pub fn blank_code() -> [u8; 16384]
    ensures { (16384 ≡ length result) × (result ≡ zeros 16384) }
{
    crate::zeros()
}

impl Progress {
    fn new() -> Self
        ensures { result ≡ no_progress }
    {
        Progress {
            case: Case::new(),
            line: KeptText::new(),
        }
    }

    // The line in progress has ended.
    fn end_line(&mut self)
        ensures { self.new ≡ record { case = after_line self.old.case self.old.line; line = [] } }
    {
        self.case.take_line(self.line.bytes());
        self.line.clear();
    }

    // One byte: it ends the line, or is kept with it if there is room.
    fn take_byte(&mut self, b: u8)
        ensures { self.new ≡ after_byte self.old b }
    {
        if b == b'\n' {
            self.end_line();
        } else {
            self.line.push(b);
        }
    }

    // A piece of the input.
    fn feed(&mut self, piece: &[u8])
        ensures { self.new ≡ after_bytes self.old piece.now }
    {
        for b in piece {
            self.take_byte(*b);
        }
    }

    // The input has ended, and with it its last line.
    fn end(mut self) -> Case
        ensures { result ≡ case_at_end self }
    {
        self.end_line();
        self.case
    }
}

// The case of an input that is there whole.
pub fn take_case(input: &[u8]) -> Case
    ensures { result ≡ case_at_end (after_bytes no_progress input.now) }
{
    let mut progress = Progress::new();
    progress.feed(input);
    progress.end()
}

// The case of an input that is read piece by piece to its end, or none if a read fails. A proved loop has to end, and nothing says that an input does: the
// turns are counted, up to a number that no input uses up.
pub fn receive_case<R: Read>(input: &mut R) -> Option<Case>
    ensures { IfSome result (λ c. Received c) }
{
    let mut progress = Progress::new();
    let mut piece = [0u8; 65536];
    for _ in 0..u64::MAX {
        let k = input.read(&mut piece).ok()?;
        if k == 0 {
            return Some(progress.end());
        }
        progress.feed(&piece[..k]);
    }
    None
}
