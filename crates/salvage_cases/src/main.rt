// Spoiled files of cards, each of which ends at a byte 30: both outputs of each; then the same into buffers of the right size, and with each
// a byte short. tests/host/expected/salvage.rs has what is expected.
#![tactic(auto)]

use card_salvage::Salvaged;
use std::io;

const END: u8 = 30;

const ROOM: usize = 2048;

fn tell(rt: &impl Print, s: Salvaged) -> io::Result<()> {
    println!(rt; "salvage {} {} {}", s.answer, s.kept, s.named)
}

// So many bytes of a buffer, and a line end.
fn show(rt: &impl Print, buffer: &[u8], n: usize) -> io::Result<()> {
    if let Some(part) = buffer.get(..n) {
        rt.write_all(part)?;
        rt.write_all(b"\n")?;
    }
    Ok(())
}

// Salvages into the beginnings of two buffers of dots, and shows the first bytes of both.
fn sized(rt: &impl Print, file: &[u8], room: usize, other: usize) -> io::Result<()> {
    let mut kept = [b'.'; ROOM];
    let mut named = [b'.'; ROOM];
    if let (Some(kept), Some(named)) = (kept.get_mut(..room), named.get_mut(..other)) {
        tell(rt, card_salvage::salvage(file, kept, named))?;
    }
    show(rt, &kept, 8)?;
    show(rt, &named, 8)
}

// Salvages into buffers of the right size, and with each a byte short.
fn tight(rt: &impl Print, file: &[u8], room: usize, other: usize) -> io::Result<()> {
    sized(rt, file, room, other)?;
    if 0 < room {
        sized(rt, file, room - 1, other)?;
    }
    if 0 < other {
        sized(rt, file, room, other - 1)?;
    }
    Ok(())
}

fn one_file(rt: &impl Print, file: &[u8]) -> io::Result<()> {
    let mut kept = [b'.'; ROOM];
    let mut named = [b'.'; ROOM];
    let s = card_salvage::salvage(file, &mut kept, &mut named);
    tell(rt, s)?;
    show(rt, &kept, s.kept)?;
    show(rt, &named, s.named)?;
    tight(rt, file, s.kept, s.named)
}

fn main(rt: HostRuntime) -> io::Result<()> {
    let mut input = [0u8; 32768];
    let n = inputs::read_full(&mut rt.stdin(), &mut input);
    for file in input[..n].split_inclusive(|b| *b == END) {
        one_file(&rt, file.strip_suffix(&[END]).unwrap_or(file))?;
    }
    Ok(())
}
