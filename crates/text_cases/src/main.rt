// Whether each line of the standard input is a formula: its answer and place, and of a formula the kind, i or r, as the check finds it in the compiled
// code. A line ends at a byte 10 or at the input's end; tests/host/expected/texts.rs has what is expected.
#![tactic(auto)]

use std::io;
use token_table::Refusal;
use values::Kind;

fn accepted(rt: &impl Print, kind: Kind) -> io::Result<()> {
    match kind {
        Kind::Int => println!(rt; "0 0 i"),
        Kind::Real => println!(rt; "0 0 r"),
    }
}

fn refused(rt: &impl Print, answer: u32, place: usize) -> io::Result<()> {
    println!(rt; "{answer} {place}")
}

fn tell_kind(rt: &impl Print, verdict: Option<Kind>) -> io::Result<()> {
    match verdict {
        Some(kind) => accepted(rt, kind),
        None => refused(rt, 15, 0),
    }
}

// Of a text that has no code: what it is judged, which takes no code buffer.
fn tell_judgement(rt: &impl Print, judged: Result<usize, Refusal>) -> io::Result<()> {
    match judged {
        Ok(_) => refused(rt, 15, 0),
        Err(refusal) => refused(rt, refusal.answer, refusal.place),
    }
}

fn tell(rt: &impl Print, text: &[u8]) -> io::Result<()> {
    let mut code = [0u8; 16384];
    match compiler::compile(text, &mut code) {
        Ok(n) => tell_kind(rt, verifier::check(&code, n)),
        Err(_) => tell_judgement(rt, compiler::judge(text)),
    }
}

fn main(rt: HostRuntime) -> io::Result<()> {
    let mut input = [0u8; 65536];
    let n = inputs::read_full(&mut rt.stdin(), &mut input);
    for line in input[..n].split_inclusive(|b| *b == b'\n') {
        tell(&rt, line.strip_suffix(b"\n").unwrap_or(line))?;
    }
    Ok(())
}
