// Which cells formulas read. A line of the standard input has a target, `|` and an expression; printed are the lines of the program `cells`, and an empty one.
// tests/host/expected/reads.rs has what is expected.
#![tactic(auto)]

use std::io;

fn tell(rt: &impl Print, target: &[u8], text: &[u8]) -> io::Result<()> {
    let mut out = read_reply::blank_reply();
    let n = read_reply::reply(target, text, &mut out);
    rt.write_all(&out[..n])?;
    rt.write_all(b"\n")
}

fn one_case(rt: &impl Print, line: &[u8]) -> io::Result<()> {
    let mut parts = line.splitn(2, |b| *b == b'|');
    if let (Some(target), Some(text)) = (parts.next(), parts.next()) {
        tell(rt, target, text)?;
    }
    Ok(())
}

fn main(rt: HostRuntime) -> io::Result<()> {
    let mut input = [0u8; 65536];
    let n = inputs::read_full(&mut rt.stdin(), &mut input);
    for line in input[..n].split_inclusive(|b| *b == b'\n') {
        one_case(&rt, line.strip_suffix(b"\n").unwrap_or(line))?;
    }
    Ok(())
}
