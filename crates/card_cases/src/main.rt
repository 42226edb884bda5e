// Files of cards, each of which ends at a byte 30: each is read, and the cards found are written again. Then every beginning of the first
// file is read, and that file with each byte replaced by five others; and cards are written into a buffer of dots.
// tests/host/expected/cards.rs has what is expected.
#![tactic(auto)]

use card_file::read::READ_WORDS;
use card_write::Written;
use case_lines::Each;
use std::{fmt, io};

const END: u8 = 30;

// The answer and the place of a reading.
#[derive(Clone, Copy)]
struct Reading {
    answer: u32,
    place: u32,
}

impl Reading {
    fn of(file: &[u8]) -> Reading {
        let mut words = [0u32; READ_WORDS];
        card_file::read::read(file, &mut words);
        Reading {
            answer: words[0],
            place: words[1],
        }
    }
}

impl fmt::Display for Reading {
    fn fmt<W: fmt::Write>(&self, f: &mut fmt::Formatter<W>) -> fmt::Result {
        write!(f, "{} {}", self.answer, self.place)
    }
}

fn tell_cards(rt: &impl Print, cards: &[u32]) -> io::Result<()> {
    for card in cards.chunks_exact(5) {
        println!(rt; "card{}", Each(card))?;
    }
    Ok(())
}

fn tell_written(rt: &impl Print, w: Written) -> io::Result<()> {
    println!(rt; "written {} {} {}", w.answer, w.place, w.length)
}

// The cards that were found are written again from the file itself.
fn one_file(rt: &impl Print, file: &[u8]) -> io::Result<()> {
    let mut words = [0u32; READ_WORDS];
    card_file::read::read(file, &mut words);
    println!(rt; "read {} {} {}", words[0], words[1], words[2])?;
    let count = words[2] as usize;
    if let Some(cards) = words.get(3..3 + 5 * count) {
        let mut out = [0u8; 8192];
        tell_cards(rt, cards)?;
        tell_written(rt, card_write::write(file, cards, &mut out))?;
    }
    Ok(())
}

// A line for every beginning of a file.
fn beginnings(rt: &impl Print, file: &[u8]) -> io::Result<()> {
    for end in 0..file.len() {
        println!(rt; "cut {}", Reading::of(&file[..end]))?;
    }
    Ok(())
}

// A line for every byte of a file: it is replaced by five others, and is then as before.
fn every_byte(rt: &impl Print, file: &mut [u8]) -> io::Result<()> {
    for at in 0..file.len() {
        let mut readings = [Reading {
            answer: 0,
            place: 0,
        }; 5];
        for (reading, other) in readings.iter_mut().zip(*b"\n0=k\xff") {
            let old = file[at];
            file[at] = other;
            *reading = Reading::of(file);
            file[at] = old;
        }
        println!(rt; "byte{}", Each(&readings))?;
    }
    Ok(())
}

// The second text is at 2; the line end is at 8.
const TEXTS: [u8; 11] = *b"D0R1 + 1\nR2";

// Cards, and the bytes that they are written into. One card, of 41 bytes where it is good.
const ONE: [(&[u32], usize); 15] = [
    (&[9, 0, 2, 2, 6], 64),
    (&[9, 0, 2, 2, 6], 41),
    (&[9, 0, 2, 2, 6], 40),
    (&[9, 0, 2, 2, 6, 1, 1, 1, 1], 64),
    (&[65, 0, 2, 2, 6], 64),
    (&[0, 0, 2, 2, 6], 64),
    (&[4294967295, 0, 2, 2, 6], 50),
    (&[4294967295, 0, 2, 2, 6], 49),
    (&[9, 7, 2, 2, 6], 64),
    (&[9, 0, 2, 2, 8], 64),
    (&[9, 9, 4294967295, 2, 6], 64),
    (&[9, 4294967295, 2, 2, 6], 64),
    (&[9, 0, 2, 11, 1], 64),
    (&[9, 0, 2, 3, 2], 64),
    (&[9, 0, 2], 0),
];

// A good card, and a second one; then a refused one and a second.
const TWO: [(&[u32], usize); 10] = [
    (&[9, 0, 2, 2, 6, 10, 9, 2, 2, 2], 79),
    (&[9, 0, 2, 2, 6, 10, 9, 2, 2, 2], 78),
    (&[9, 0, 2, 2, 6, 9, 9, 2, 2, 2], 96),
    (&[9, 0, 2, 2, 6, 10, 9, 2, 5, 1], 96),
    (&[9, 0, 2, 2, 6, 8, 9, 2, 5, 1], 96),
    (&[9, 0, 2, 2, 6, 9, 7, 2, 2, 2], 96),
    (&[9, 0, 2, 2, 6, 9, 9, 2, 7, 2], 96),
    (&[9, 0, 2, 2, 6, 65, 9, 2, 5, 1], 96),
    (&[9, 0, 2, 2, 6, 8, 9, 2, 5, 1], 76),
    (&[0, 0, 2, 5, 1, 9, 7, 2, 2, 6], 96),
];

// Writes into the beginning of a buffer of dots, and shows all of it.
fn write_cards(rt: &impl Print, cards: &[u32], room: usize) -> io::Result<()> {
    let mut out = [b'.'; 96];
    if let Some(part) = out.get_mut(..room) {
        tell_written(rt, card_write::write(&TEXTS, cards, part))?;
    }
    rt.write_all(&out)?;
    rt.write_all(b"\n")
}

fn first_file(rt: &impl Print, file: &mut [u8]) -> io::Result<()> {
    beginnings(rt, file)?;
    every_byte(rt, file)
}

fn main(rt: HostRuntime) -> io::Result<()> {
    let mut input = [0u8; 32768];
    let n = inputs::read_full(&mut rt.stdin(), &mut input);
    for file in input[..n].split_inclusive(|b| *b == END) {
        one_file(&rt, file.strip_suffix(&[END]).unwrap_or(file))?;
    }
    let end = lines::until(&input[..n], END);
    first_file(&rt, &mut input[..end])?;
    for (cards, room) in ONE {
        write_cards(&rt, cards, room)?;
    }
    for (cards, room) in TWO {
        write_cards(&rt, cards, room)?;
    }
    Ok(())
}
