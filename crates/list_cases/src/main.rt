// Lists of formulas, one to a line, the target and the expression of each ended by `;`. Each list is run on a memory of zeros and code buffers
// of sentinels; printed are its own answer, the forty, and a sum of the bytes of the memory and of each buffer. Then the first list is run
// with so many words of its table, some tables have places beyond the texts, and some buffers other sizes.
// tests/host/expected/lists.rs has what is expected.
#![tactic(auto)]

ghost use Rattle.std.specs.Prelude.{◌≤◌};

use case_lines::Each;
use std::io;

const END: u8 = b';';

const SENTINEL: u8 = 195;

const CODE_BYTES: usize = 16384;

const TICK: u32 = 7;

// The words of a table: as many as it has room for.
#[derive(Drop)]
struct Table {
    words: [u32; 168],
    count: usize,
    ghost inside: { count ≤ 168 },
}

impl Table {
    fn push(&mut self, word: usize) {
        if self.count < 168 {
            self.words[self.count] = (word % 4294967296) as u32;
            self.count += 1;
        }
    }

    fn push_part(&mut self, from: usize, length: usize) {
        self.push(from);
        self.push(length);
    }
}

// Where each piece of a line begins, and how long it is.
fn table_of(line: &[u8]) -> Table {
    let mut table = Table {
        words: [0; 168],
        count: 0,
    };
    let mut from = 0;
    for (i, b) in line.iter().enumerate() {
        if *b == END {
            table.push_part(from, i - from);
            from = i + 1;
        }
    }
    if from < line.len() {
        table.push_part(from, line.len() - from);
    }
    table
}

// What a list is run on.
#[derive(Drop)]
struct Buffers<'a> {
    memory: &'a mut [u8],
    code: &'a mut [u8],
    index_code: &'a mut [u8],
}

fn run_on(rt: &impl Print, words: &[u32], texts: &[u8], on: &mut Buffers<'_>) -> io::Result<()> {
    let ran = run_list::run_list(words, texts, on.memory, on.code, on.index_code, TICK);
    let sums = [
        case_lines::sum_of(on.memory),
        case_lines::sum_of(on.code),
        case_lines::sum_of(on.index_code),
    ];
    println!(rt; "{}{}{}", ran.answer, Each(&ran.answers), Each(&sums))
}

fn run_words(rt: &impl Print, words: &[u32], texts: &[u8]) -> io::Result<()> {
    let mut buffers = Buffers {
        memory: &mut [0; memory::IMAGE_SIZE],
        code: &mut [SENTINEL; CODE_BYTES],
        index_code: &mut [SENTINEL; CODE_BYTES],
    };
    run_on(rt, words, texts, &mut buffers)
}

// At most so many words of a line's table.
fn run_line(rt: &impl Print, line: &[u8], most: usize) -> io::Result<()> {
    let table = table_of(line);
    run_words(rt, &table.words[..table.count.min(most)], line)
}

// As many formulas as there may be, with words behind them, and one more.
fn first_line(rt: &impl Print, line: &[u8]) -> io::Result<()> {
    for most in [159, 160, 161, 163, 164, 165] {
        run_line(rt, line, most)?;
    }
    Ok(())
}

const TEXTS: [u8; 12] = *b"D0V0 + 1D[7]";

// Tables with places beyond the texts, of fewer words than their formulas take, and one that is good.
const TABLES: [&[u32]; 11] = [
    &[0, 2, 2, 6],
    &[8, 4, 2, 2],
    &[8, 4294967295, 2, 6],
    &[0, 2, 11, 4294967295],
    &[0, 2, 12, 1],
    &[12, 1, 2, 6],
    &[4294967295, 4294967295, 4294967295, 4294967295],
    &[0, 2, 4294967295, 1, 0, 2, 2, 6],
    &[0, 2, 2, 6, 0, 2, 2],
    &[0, 2, 2],
    &GOOD,
];

const GOOD: [u32; 8] = [0, 2, 2, 6, 8, 4, 2, 2];

fn tables(rt: &impl Print) -> io::Result<()> {
    for words in TABLES {
        run_words(rt, words, &TEXTS)?;
    }
    Ok(())
}

// Memories a byte too short and a byte too long.
fn memories(rt: &impl Print) -> io::Result<()> {
    let mut code = [SENTINEL; CODE_BYTES];
    let mut index_code = [SENTINEL; CODE_BYTES];
    let mut short = Buffers {
        memory: &mut [0; memory::IMAGE_SIZE - 1],
        code: &mut code,
        index_code: &mut index_code,
    };
    run_on(rt, &GOOD, &TEXTS, &mut short)?;
    let mut long = Buffers {
        memory: &mut [0; memory::IMAGE_SIZE + 1],
        code: &mut code,
        index_code: &mut index_code,
    };
    run_on(rt, &GOOD, &TEXTS, &mut long)
}

// Each buffer for code a byte too short.
fn short_codes(rt: &impl Print) -> io::Result<()> {
    let mut memory = [0u8; memory::IMAGE_SIZE];
    let mut short = [SENTINEL; CODE_BYTES - 1];
    let mut code = [SENTINEL; CODE_BYTES];
    let mut first = Buffers {
        memory: &mut memory,
        code: &mut short,
        index_code: &mut code,
    };
    run_on(rt, &GOOD, &TEXTS, &mut first)?;
    let mut second = Buffers {
        memory: &mut memory,
        code: &mut code,
        index_code: &mut short,
    };
    run_on(rt, &GOOD, &TEXTS, &mut second)
}

fn main(rt: HostRuntime) -> io::Result<()> {
    let mut input = [0u8; 8192];
    let n = inputs::read_full(&mut rt.stdin(), &mut input);
    for line in input[..n].split_inclusive(|b| *b == b'\n') {
        run_line(&rt, line.strip_suffix(b"\n").unwrap_or(line), 168)?;
    }
    first_line(&rt, input[..n].split(|b| *b == b'\n').next().unwrap_or(b""))?;
    tables(&rt)?;
    memories(&rt)?;
    short_codes(&rt)
}
