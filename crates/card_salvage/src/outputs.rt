// The two outputs: the kept parts, and the names of those left out. Both passes take the same steps, from one part's end to the next. "A number not above the
// last kept one is 18, so the earlier card stays": a part that is left out leaves the last number as it was.
ghost use Rattle.std.specs.Prelude.{◌≡◌, ◌+◌, ◌≤◌, length};
ghost use Rattle.lines.specs.Printing.{width_of};
ghost use Rattle.lines.specs.private.Steps.{Puts};
ghost use Rattle.card_laws.specs.Formulas.{formula_answer};
ghost use Rattle.salvage_laws.specs.Salvage.{kept_bytes, named_bytes, name_lines, salvaged, fits};
ghost use Rattle.card_salvage.specs.private.Steps.{kept_of, kept_size, name_of};

use crate::{Salvaged, answers, cutting};
use lines::printing;

// A name has its keys and line ends besides its three numbers.
const NAME_FRAME: usize = 23;

// The names of a file below SHORT_FILE bytes have at most so many bytes for each of its bytes, and so many besides.
const SHORT_FILE: usize = 1000000;

const NAMED_PER_BYTE: usize = 6;

const NAMED_BESIDES: usize = 64;

// How many bytes an answer adds to the kept output.
fn kept_size(answer: Result<u32, u32>, size: usize) -> usize
    ensures { result ≡ kept_size answer size }
{
    match answer {
        Ok(_) => size,
        Err(_) => 0,
    }
}

fn name_size(first: usize, size: usize, answer: u32) -> usize
    ensures { result ≡ length (name_lines first size answer) }
{
    NAME_FRAME
        + printing::width_of(first as u64)
        + printing::width_of(size as u64)
        + printing::width_of(answer as u64)
}

// How many bytes an answer adds to the named output.
fn named_size(answer: Result<u32, u32>, first: usize, size: usize) -> usize
    ensures { result ≡ length (name_of answer first size) }
{
    match answer {
        Ok(_) => 0,
        Err(a) => name_size(first, size, a),
    }
}

// Whether both outputs fit: what is left of each room is counted down, so that no size is too large a number.
fn measure(file: &[u8], room: usize, other: usize) -> bool
    ensures { result ≡ fits room other (salvaged formula_answer file.now) }
{
    let mut kept_left = room;
    let mut named_left = other;
    let mut at = 0;
    let mut last: u32 = 0;
    while at < file.len() {
        let end = cutting::part_end(file, at);
        let answer = answers::part_answer(&file[at..end], last);
        let kept = kept_size(answer, end - at);
        let named = named_size(answer, at, end - at);
        if kept_left < kept {
            return false;
        }
        if named_left < named {
            return false;
        }
        kept_left -= kept;
        named_left -= named;
        last = answer.unwrap_or(last);
        at = end;
    }
    true
}

// Whether both outputs fit. Rooms that are enough for any file of this size need no measuring, which judges every part.
pub fn fit(file: &[u8], room: usize, other: usize) -> bool
    ensures { result ≡ fits room other (salvaged formula_answer file.now) }
{
    let size = file.len();
    if size < SHORT_FILE && size <= room && NAMED_PER_BYTE * size + NAMED_BESIDES <= other {
        return true;
    }
    measure(file, room, other)
}

fn put_kept(out: &mut [u8], at: usize, answer: Result<u32, u32>, part: &[u8]) -> usize
    requires { at + length (kept_of answer part.now) ≤ length out.old }
    ensures { Puts out.old at out.new result (kept_of answer part.now) }
{
    match answer {
        Ok(_) => printing::put_all(out, at, part),
        Err(_) => at,
    }
}

fn put_lines(out: &mut [u8], at: usize, first: usize, size: usize, answer: u32) -> usize
    requires { at + (23 + width_of first + width_of size + width_of answer) ≤ length out.old }
    ensures { Puts out.old at out.new result (name_lines first size answer) }
{
    let a = printing::put_all(out, at, b"first=");
    let b = printing::put_decimal(out, a, first as u64);
    let c = printing::put_all(out, b, b"\nlength=");
    let d = printing::put_decimal(out, c, size as u64);
    let e = printing::put_all(out, d, b"\nanswer=");
    let f = printing::put_decimal(out, e, answer as u64);
    printing::put_all(out, f, b"\n")
}

fn put_name(out: &mut [u8], at: usize, answer: Result<u32, u32>, first: usize, size: usize) -> usize
    requires { at + length (name_of answer first size) ≤ length out.old }
    ensures { Puts out.old at out.new result (name_of answer first size) }
{
    match answer {
        Ok(_) => at,
        Err(a) => put_lines(out, at, first, size, a),
    }
}

pub fn write(file: &[u8], kept: &mut [u8], named: &mut [u8]) -> Salvaged
    requires file_in_bounds { length (kept_bytes (salvaged formula_answer file.now)) ≤ length kept.old }
    requires file_in_bounds_2 { length (named_bytes (salvaged formula_answer file.now)) ≤ length named.old }
    ensures answer_value { result.answer ≡ 0 }
    ensures puts { Puts kept.old 0 kept.new result.kept (kept_bytes (salvaged formula_answer file.now)) }
    ensures puts_2 { Puts named.old 0 named.new result.named (named_bytes (salvaged formula_answer file.now)) }
{
    let mut kept_at = 0;
    let mut named_at = 0;
    let mut at = 0;
    let mut last: u32 = 0;
    while at < file.len() {
        let end = cutting::part_end(file, at);
        let answer = answers::part_answer(&file[at..end], last);
        kept_at = put_kept(kept, kept_at, answer, &file[at..end]);
        named_at = put_name(named, named_at, answer, at, end - at);
        last = answer.unwrap_or(last);
        at = end;
    }
    Salvaged {
        answer: 0,
        kept: kept_at,
        named: named_at,
    }
}
