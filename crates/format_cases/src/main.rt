// Formulas as they are saved. A line of the standard input is an expression; printed are the lines of the program `format`,
// and an empty one. tests/host/expected/formats.rs has what is expected.
#![tactic(auto)]

use std::io;

fn tell(rt: &impl Print, text: &[u8]) -> io::Result<()> {
    format_reply::tell(rt, text)?;
    rt.write_all(b"\n")
}

fn main(rt: HostRuntime) -> io::Result<()> {
    let mut input = [0u8; 65536];
    let n = inputs::read_full(&mut rt.stdin(), &mut input);
    for line in input[..n].split_inclusive(|b| *b == b'\n') {
        tell(&rt, line.strip_suffix(b"\n").unwrap_or(line))?;
    }
    Ok(())
}
