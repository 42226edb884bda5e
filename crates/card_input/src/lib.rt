// The input of a program that takes a file of cards: a buffer for it, and what is said where it could not be read whole.
#![tactic(auto)]

ghost use Rattle.std.specs.Prelude.{length, ◌≡◌};

use std::io;
use std::io::Read;

// More than the longest good file, 133,239 bytes, so that the refusal of a longer one can be told too.
const MOST_BYTES: usize = 262144;

// The ensures gives only the length: the list of zeros would be written out in every step.
pub fn file_buffer() -> [u8; MOST_BYTES]
    ensures { 262144 ≡ length result }
{
    [0; MOST_BYTES]
}

// Why no more was read: the input's end, a full buffer, or a read that failed.
#[derive(Clone, Copy)]
pub enum Stop {
    End,
    Limit,
    Failed,
}

// What ended the bytes that `read_full` put into such a buffer, which stops alike at all three: one more read of one byte tells them apart.
pub fn stopped_at<R: Read>(input: &mut R, size: usize) -> Stop {
    let mut one = [0u8; 1];
    let Ok(more) = input.read(&mut one) else {
        return Stop::Failed;
    };
    if more == 0 {
        return Stop::End;
    }
    if size == MOST_BYTES {
        return Stop::Limit;
    }
    Stop::Failed
}

pub fn tell_limit(out: &impl Print) -> io::Result<()> {
    out.write_all(b"limit=262144\n")
}

// How many bytes were read before a read failed.
pub fn tell_unread(out: &impl Print, size: u64) -> io::Result<()> {
    println!(out; "unread={size}")
}

// Whether the input ends behind the bytes that were read of it; if not, the one line that says why is written.
pub fn all_read<R: Read>(input: &mut R, size: usize, out: &impl Print) -> io::Result<bool> {
    match stopped_at(input, size) {
        Stop::End => Ok(true),
        Stop::Limit => {
            tell_limit(out)?;
            Ok(false)
        }
        Stop::Failed => {
            tell_unread(out, size as u64)?;
            Ok(false)
        }
    }
}
