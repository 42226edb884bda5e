// The memory on edge images, to compare with a second implementation: tests/host/expected/memory.rs. For each image a line for each bank with what its
// first, second and last element and the one past it read, and a line of indexed reads; then each value stored into each bank, with the answer and every
// byte that changed; then each bit turned over among zeros and among ones; then texts as targets.
#![tactic(auto)]

use case_lines::{Each, Shown};
use memory::{Bank, IMAGE_SIZE};
use std::num::f32_from_bits_with_nan;
use std::{fmt, io};
use values::{Fault, Value};

// A bank, the letter that names it, and its last element.
#[derive(Clone, Copy)]
struct Row {
    letter: char,
    bank: Bank,
    last: u32,
}

const X: Row = Row {
    letter: 'X',
    bank: Bank::X,
    last: 63,
};

const C: Row = Row {
    letter: 'C',
    bank: Bank::C,
    last: 63,
};

const V: Row = Row {
    letter: 'V',
    bank: Bank::V,
    last: 255,
};

const N: Row = Row {
    letter: 'N',
    bank: Bank::N,
    last: 255,
};

const D: Row = Row {
    letter: 'D',
    bank: Bank::D,
    last: 255,
};

const R: Row = Row {
    letter: 'R',
    bank: Bank::R,
    last: 255,
};

const INTEGERS: [i32; 8] = [0, 1, -1, 32768, 65535, 65536, 2147483647, -2147483648];

const SINGLES: [u32; 16] = [
    0x0000_0000, // 0.0
    0x8000_0000, // -0.0
    0x3f00_0000, // 0.5
    0xbf7f_ffff, // the single above -1.0
    0x477f_ff80, // 65535.5
    0x4eff_ffff, // the single below 2 ^ 31
    0x4f00_0000, // 2 ^ 31
    0xcf00_0001, // the single below -(2 ^ 31)
    0x8000_0001, // the subnormal just below zero
    0xbf00_0000, // -0.5
    0xbf80_0000, // -1.0
    0xcf00_0000, // -(2 ^ 31)
    0x427f_999a, // 63.9
    0x4280_0000, // 64.0
    0x437f_e666, // 255.9
    0x4380_0000, // 256.0
];

const TARGETS: [&str; 18] = [
    "C0",
    "C63",
    "C64",
    "V255",
    "N0",
    "D42",
    "R255",
    "R256",
    "X0",
    "D01",
    "D00",
    "D",
    "d1",
    " D1",
    "D1 ",
    "D+1",
    "D1000000000000000000000",
    "",
];

// What an image is filled with: zeros, ones, alternating bits, or a pattern with every byte in every bank.
#[derive(Clone, Copy)]
enum Filler {
    Zeros,
    Ones,
    Alternating,
    Mixed,
}

impl Filler {
    fn byte(self, at: usize) -> u8 {
        match self {
            Filler::Zeros => 0,
            Filler::Ones => 255,
            Filler::Alternating => if at % 2 == 0 { 85 } else { 170 },
            Filler::Mixed => ((at % 256 * 37 + at / 256) % 256) as u8,
        }
    }

    fn image(self) -> [u8; IMAGE_SIZE] {
        let mut image = [0; IMAGE_SIZE];
        for (at, b) in image.iter_mut().enumerate() {
            *b = self.byte(at);
        }
        image
    }
}

// The integers of the table, and then its singles.
fn operands() -> [Value; 24] {
    let integers = INTEGERS.iter().map(|z| Value::Int(*z));
    let singles = SINGLES
        .iter()
        .map(|pattern| Value::Real(f32_from_bits_with_nan(*pattern)));
    let mut all = [Value::Int(0); 24];
    for (operand, v) in all.iter_mut().zip(integers.chain(singles)) {
        *operand = v;
    }
    all
}

fn reads(rt: &impl Print, image: &[u8; IMAGE_SIZE], filler: Filler, row: Row) -> io::Result<()> {
    let elements = [0, 1, row.last, row.last.saturating_add(1)];
    let outcomes = elements.map(|element| Shown(memory::cells::read(image, row.bank, element)));
    println!(rt; "{}{}{}", row.letter, filler as u8, Each(&outcomes))
}

fn indexed(rt: &impl Print, image: &[u8; IMAGE_SIZE], row: Row) -> io::Result<()> {
    let outcomes = operands().map(|v| Shown(memory::cells::read_indexed(image, row.bank, v)));
    println!(rt; "{}[]{}", row.letter, Each(&outcomes))
}

fn image_lines(rt: &impl Print, filler: Filler) -> io::Result<()> {
    let image = filler.image();
    for row in [X, C, V, N, D, R] {
        reads(rt, &image, filler, row)?;
        indexed(rt, &image, row)?;
    }
    Ok(())
}

// The end of a line: a space, the place and the value of every byte that differs from the image as it was filled.
#[derive(Clone, Copy)]
struct Changes<'a> {
    filler: Filler,
    image: &'a [u8; IMAGE_SIZE],
}

impl fmt::Display for Changes<'_> {
    fn fmt<W: fmt::Write>(&self, f: &mut fmt::Formatter<W>) -> fmt::Result {
        for (at, b) in self.image.iter().enumerate() {
            if *b != self.filler.byte(at) {
                write!(f, " {at}:{b}")?;
            }
        }
        Ok(())
    }
}

// What a store gives: the fault that stopped it, or else no text.
#[derive(Clone, Copy)]
struct Stored(Result<(), Fault>);

impl fmt::Display for Stored {
    fn fmt<W: fmt::Write>(&self, f: &mut fmt::Formatter<W>) -> fmt::Result {
        match self.0 {
            Ok(()) => Ok(()),
            Err(fault) => Shown(fault).fmt(f),
        }
    }
}

// Each operand, stored into the last element; every fourth one beyond it.
fn store_lines(rt: &impl Print, filler: Filler, row: Row) -> io::Result<()> {
    for (i, v) in operands().iter().enumerate() {
        let mut image = filler.image();
        let element = if i % 4 == 3 { 300 } else { row.last };
        let stored = Stored(memory::store::store(&mut image, row.bank, element, *v));
        let changes = Changes {
            filler,
            image: &image,
        };
        println!(rt; "{}={}{stored}{changes}", row.letter, Shown(*v))?;
    }
    Ok(())
}

// Each bit turned to a number, on among zeros or off among ones: what it then reads, and every byte that changed.
fn bit_lines(rt: &impl Print, filler: Filler, row: Row, number: i32) -> io::Result<()> {
    for element in 0u32..64 {
        let mut image = filler.image();
        let v = Value::Int(number);
        let stored = Stored(memory::store::store(&mut image, row.bank, element, v));
        let read = Shown(memory::cells::read(&image, row.bank, element));
        let changes = Changes {
            filler,
            image: &image,
        };
        println!(rt; "{}{element}{stored} {read}{changes}", row.letter)?;
    }
    Ok(())
}

// A text as a target: the place of its bank, and its element.
fn target(rt: &impl Print, text: &str) -> io::Result<()> {
    match memory::names::target_of(text.as_bytes()) {
        Some((bank, i)) => println!(rt; "{text}|{} {i}", memory::layout_of(bank).place),
        None => println!(rt; "{text}|2"),
    }
}

fn main(rt: HostRuntime) -> io::Result<()> {
    for filler in [
        Filler::Zeros,
        Filler::Ones,
        Filler::Alternating,
        Filler::Mixed,
    ] {
        image_lines(&rt, filler)?;
    }
    store_lines(&rt, Filler::Zeros, X)?;
    store_lines(&rt, Filler::Ones, C)?;
    store_lines(&rt, Filler::Zeros, V)?;
    store_lines(&rt, Filler::Ones, N)?;
    store_lines(&rt, Filler::Alternating, D)?;
    store_lines(&rt, Filler::Mixed, R)?;
    for row in [X, C] {
        bit_lines(&rt, Filler::Zeros, row, 1)?;
        bit_lines(&rt, Filler::Ones, row, 0)?;
    }
    for text in TARGETS {
        target(&rt, text)?;
    }
    Ok(())
}
