// What the program `format` prints: the answer and place of an expression, and on 0 its text as it is saved.
#![tactic(auto)]

use operations::Answer;
use program::reply;
use std::io;

// The first n bytes; nothing where there are not so many.
fn print(rt: &impl Print, bytes: &[u8], n: usize) -> io::Result<()> {
    match bytes.get(..n) {
        Some(first) => rt.write_all(first),
        None => Ok(()),
    }
}

fn report(rt: &impl Print, answer: Answer) -> io::Result<()> {
    let mut line = [0u8; 64];
    let n = reply::put_report(&mut line, operations::reported(answer));
    print(rt, &line, n)
}

fn show(rt: &impl Print, saved: &[u8], n: usize) -> io::Result<()> {
    rt.write_all(b"expr=")?;
    print(rt, saved, n)?;
    rt.write_all(b"\n")
}

pub fn tell(rt: &impl Print, text: &[u8]) -> io::Result<()> {
    let mut saved = [0u8; 1024];
    let answer = formatter::format(text, &mut saved);
    report(rt, answer)?;
    if let Answer::Done(_, n, _, _) = answer {
        show(rt, &saved, n)?;
    }
    Ok(())
}
