// Checks and runs code. A line of the standard input has a name, how many instructions are meant, and the code's bytes in hexadecimal; printed are the
// name, what the check says (i, r or 15), how a run ends and the instructions begun. tests/host/expected/codes.rs has what is expected.
#![tactic(auto)]

ghost use Rattle.std.specs.Prelude.{◌≤◌, length};

use case_lines::Shown;
use machine::{Ended, Ran};
use memory::IMAGE_SIZE;
use std::fmt::{Display, InlineText};
use std::io;
use values::Kind;

// The tick of every run: below zero as an integer, and far from the least one.
const TICK: u32 = 0x8000_0005;

// A line of at most 512 bytes, its end included. A text that has no room is left out: the line then differs from the expected one.
#[derive(Drop)]
struct Line {
    bytes: [u8; 512],
    length: usize,
    ghost inside: { length ≤ 512 },
}

impl Line {
    fn new() -> Line {
        Line {
            bytes: [0; 512],
            length: 0,
        }
    }

    fn put(&mut self, text: &[u8]) {
        if text.len() <= 512 - self.length {
            let end = self.length + text.len();
            self.bytes[self.length..end].copy_from_slice(text);
            self.length = end;
        }
    }

    // A text of at most 24 bytes: its first byte, and then the others.
    fn put_shown<D: Display + Drop>(&mut self, shown: D) {
        let text = InlineText::<24>::of(shown);
        if let [first, others @ ..] = text.as_str().as_bytes() {
            self.put(&[*first]);
            self.put(others);
        }
    }

    fn write(mut self, rt: &impl Print) -> io::Result<()> {
        self.put(b"\n");
        rt.write_all(&self.bytes[..self.length])
    }
}

// The value of decimal digits.
fn number(text: &[u8]) -> usize {
    text.iter()
        .fold(0, |n: usize, b| n % 1000000 * 10 + usize::from(*b % 16))
}

// Every cell that is not named here is 0.
fn image(memory: &mut [u8; IMAGE_SIZE]) {
    bits_and_halves(memory);
    integers(memory);
    singles(memory);
}

// X0, X3 and C63 are on, V255 = 65535, N0 = -1.
fn bits_and_halves(memory: &mut [u8; IMAGE_SIZE]) {
    memory[0] = 9;
    memory[15] = 128;
    memory[526] = 255;
    memory[527] = 255;
    memory[528] = 255;
    memory[529] = 255;
}

// D0 = 5, D1 = -1, D4 = 2147483647, D5 = 1, D6 = -2.
fn integers(memory: &mut [u8; IMAGE_SIZE]) {
    memory[1040] = 5;
    memory[1044] = 255;
    memory[1045] = 255;
    memory[1046] = 255;
    memory[1047] = 255;
    memory[1056] = 255;
    memory[1057] = 255;
    memory[1058] = 255;
    memory[1059] = 127;
    memory[1060] = 1;
    memory[1064] = 254;
    memory[1065] = 255;
    memory[1066] = 255;
    memory[1067] = 255;
}

// R0 = 1.5, R2 = R4 = -0.0, R10 = R11 = 2 ^ 127, and a NaN in R1 and R12.
fn singles(memory: &mut [u8; IMAGE_SIZE]) {
    memory[2066] = 192;
    memory[2067] = 63;
    memory[2070] = 192;
    memory[2071] = 127;
    memory[2075] = 128;
    memory[2083] = 128;
    memory[2107] = 127;
    memory[2111] = 127;
    memory[2114] = 192;
    memory[2115] = 127;
}

// How the check answers, between spaces.
fn checked(v: Option<Kind>) -> &'static str {
    match v {
        Some(Kind::Int) => " i ",
        Some(Kind::Real) => " r ",
        None => " 15 ",
    }
}

fn put_run(line: &mut Line, ran: Ran) {
    match ran.end {
        Ended::Done(v) => line.put_shown(Shown(v)),
        Ended::Stopped(f) => line.put_shown(Shown(f)),
        Ended::Stuck => line.put(b"?"),
    }
    line.put_shown(format_args!(" {}", ran.count));
}

// More instructions than the machine takes are not run.
fn try_out(rt: &impl Print, name: &[u8], n: usize, code: &[u8]) -> io::Result<()> {
    let mut memory = [0u8; IMAGE_SIZE];
    image(&mut memory);
    let mut line = Line::new();
    line.put(name);
    line.put(checked(verifier::check(code, n)).as_bytes());
    if n <= 2048 {
        put_run(&mut line, machine::run(code, n, &memory, TICK));
    } else {
        line.put(b"-");
    }
    line.write(rt)
}

fn one_case(rt: &impl Print, line: &[u8]) -> io::Result<()> {
    let mut parts = line.splitn(3, |b| *b == b' ');
    let name = parts.next().unwrap_or(b"");
    let n = number(parts.next().unwrap_or(b""));
    let digits = parts.next().unwrap_or(b"");
    let mut code = [0u8; 16448];
    let size = case_lines::bytes_of(digits, &mut code);
    try_out(rt, name, n, &code[..size])
}

fn main(rt: HostRuntime) -> io::Result<()> {
    let mut input = [0u8; 131072];
    let n = inputs::read_full(&mut rt.stdin(), &mut input);
    for line in input[..n].split_inclusive(|b| *b == b'\n') {
        one_case(&rt, line.strip_suffix(b"\n").unwrap_or(line))?;
    }
    Ok(())
}
