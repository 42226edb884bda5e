// Stored cases of the program: an empty line ends each case, and follows each reply.
#![tactic(auto)]

use std::io;

fn answer(rt: &impl Print, case: &[u8]) -> io::Result<()> {
    let mut reply = [0u8; 64];
    let n = program::respond(case, &mut reply);
    rt.write_all(&reply[..n])?;
    rt.write_all(b"\n")
}

// A case without the empty line that ends it. The last one may have none.
fn without_end(case: &[u8]) -> &[u8] {
    match case {
        [text @ .., b'\n'] if text.is_empty() || text.ends_with(b"\n") => text,
        _ => case,
    }
}

fn main(rt: HostRuntime) -> io::Result<()> {
    let mut input = [0u8; 131072];
    let n = inputs::read_full(&mut rt.stdin(), &mut input);
    let mut last = b'\n';
    let cases = input[..n].split_inclusive(|b| {
        let is_empty_line = last == b'\n' && *b == b'\n';
        last = *b;
        is_empty_line
    });
    for case in cases {
        answer(&rt, without_end(case))?;
    }
    Ok(())
}
