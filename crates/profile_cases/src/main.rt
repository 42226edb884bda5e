// The operations of the profile without reals. A line of the standard input is a case by its first byte: `=` an expression, `@` a target, `>` a target as run
// takes it, a space and its index code, `#` code; code is its bytes in hexadecimal. The memory's bytes count up, code buffers are full of sentinels. Each
// operation prints a line: the report, and a sum of the bytes of the memory and of each buffer. At the end come other sizes.
// tests/host/expected/profiles.rs has what is expected.
#![tactic(auto)]

use case_lines::{Each, Shown};
use memory::IMAGE_SIZE;
use operations::Answer;
use std::io;

const SENTINEL: u8 = 195;

const CODE_BYTES: usize = 16384;

const SHORT: usize = IMAGE_SIZE - 1;

const TICK: u32 = 0x8000_0005;

// Kinds by number, as `store_in` takes them from C.
const INTEGER: u32 = 0;

const REAL: u32 = 1;

// The code of the formula 7.
const SEVEN: [u8; 8] = [1, 0, 0, 0, 7, 0, 0, 0];

// A memory whose bytes count up. The modulus is prime, so that the bytes of neighbouring cells differ.
fn counted<const SIZE: usize>() -> [u8; SIZE] {
    let mut memory = [0; SIZE];
    for (i, b) in memory.iter_mut().enumerate() {
        *b = (i % 251) as u8;
    }
    memory
}

// Of the buffers those that an operation does not take are empty.
fn tell(
    rt: &impl Print,
    a: Answer,
    memory: &[u8],
    code: &[u8],
    index_code: &[u8],
) -> io::Result<()> {
    let r = operations::reported(a);
    let bank = u8::from(r.bank);
    let sums = [
        case_lines::sum_of(memory),
        case_lines::sum_of(code),
        case_lines::sum_of(index_code),
    ];
    println!(rt;
        "{} {} {} {} {bank} {}{}",
        r.answer,
        r.place,
        Shown(r.value),
        r.count,
        r.element,
        Each(&sums)
    )
}

// The buffers are parameters of their own: of a struct the check does not let `tell` read all of them at once.
fn run_formula(
    rt: &impl Print,
    target: &[u8],
    expr: &[u8],
    memory: &mut [u8],
    code: &mut [u8],
    index_code: &mut [u8],
) -> io::Result<()> {
    let a = operations::compile_and_run_in(target, expr, memory, code, index_code, TICK, false);
    tell(rt, a, memory, code, index_code)
}

fn compile_and_run(rt: &impl Print, target: &[u8], expr: &[u8]) -> io::Result<()> {
    let mut memory = counted::<IMAGE_SIZE>();
    let mut code = [SENTINEL; CODE_BYTES];
    let mut index_code = [SENTINEL; CODE_BYTES];
    run_formula(rt, target, expr, &mut memory, &mut code, &mut index_code)
}

fn on_text(rt: &impl Print, expr: &[u8]) -> io::Result<()> {
    let mut code = [SENTINEL; CODE_BYTES];
    let a = operations::compile_in(expr, &mut code, false);
    tell(rt, a, b"", &code, b"")?;
    compile_and_run(rt, b"D0", expr)
}

fn on_target(rt: &impl Print, target: &[u8]) -> io::Result<()> {
    let mut index_code = [SENTINEL; CODE_BYTES];
    let a = operations::compile_target_in(target, &mut index_code, false);
    tell(rt, a, b"", b"", &index_code)?;
    compile_and_run(rt, target, b"7")
}

fn run(rt: &impl Print, code: &[u8], target: &[u8], index_code: &[u8]) -> io::Result<()> {
    let mut memory = counted::<IMAGE_SIZE>();
    let a = operations::run_in(
        code,
        code.len() / 8,
        &mut memory,
        target,
        index_code,
        index_code.len() / 8,
        TICK,
        false,
    );
    tell(rt, a, &memory, code, index_code)
}

fn store(
    rt: &impl Print,
    kind: u32,
    bits: u32,
    memory: &mut [u8],
    target: &[u8],
    index_code: &[u8],
) -> io::Result<()> {
    let a = operations::store_in(
        kind,
        bits,
        memory,
        target,
        index_code,
        index_code.len() / 8,
        TICK,
        false,
    );
    tell(rt, a, memory, b"", index_code)
}

// An integer, 1.0, an infinity, and a real of a kind that no value has.
const STORED: [(u32, u32); 4] = [
    (INTEGER, 0x8000_0001),
    (REAL, 0x3F80_0000),
    (REAL, 0x7F80_0000),
    (77, 0),
];

fn on_run_target(rt: &impl Print, target: &[u8], index_code: &[u8]) -> io::Result<()> {
    run(rt, &SEVEN, target, index_code)?;
    for (kind, bits) in STORED {
        let mut memory = counted::<IMAGE_SIZE>();
        store(rt, kind, bits, &mut memory, target, index_code)?;
    }
    Ok(())
}

fn on_code(rt: &impl Print, code: &[u8]) -> io::Result<()> {
    let a = operations::check_in(code, code.len() / 8, false);
    tell(rt, a, b"", code, b"")?;
    let mut memory = counted::<IMAGE_SIZE>();
    let b = operations::evaluate_in(code, code.len() / 8, &memory, TICK, false);
    tell(rt, b, &memory, code, b"")?;
    run(rt, code, b"D0", b"")
}

// The digits are those of a code, or with a target of that of its index.
fn with_code(rt: &impl Print, digits: &[u8], target: &[u8]) -> io::Result<()> {
    let mut code = [0u8; 16448];
    let n = case_lines::bytes_of(digits, &mut code);
    if target.is_empty() {
        on_code(rt, &code[..n])
    } else {
        on_run_target(rt, target, &code[..n])
    }
}

fn one_case(rt: &impl Print, line: &[u8]) -> io::Result<()> {
    match line {
        [] => Ok(()),
        [b'=', expr @ ..] => on_text(rt, expr),
        [b'@', target @ ..] => on_target(rt, target),
        [b'#', digits @ ..] => with_code(rt, digits, b""),
        [_, rest @ ..] => {
            let mut parts = rest.splitn(2, |b| *b == b' ');
            let target = parts.next().unwrap_or(b"");
            with_code(rt, parts.next().unwrap_or(b""), target)
        }
    }
}

// 1 and 10 come before 2 and 19.
fn sizes(rt: &impl Print) -> io::Result<()> {
    let mut short = counted::<SHORT>();
    store(rt, REAL, 0x3F80_0000, &mut short, b"R0", b"")?;
    let mut code = [SENTINEL; CODE_BYTES - 1];
    let a = operations::compile_in(b"R0", &mut code, false);
    tell(rt, a, b"", &code, b"")?;
    let b = operations::compile_target_in(b"R0", &mut code, false);
    tell(rt, b, b"", b"", &code)?;
    let mut index_code = [SENTINEL; CODE_BYTES];
    run_formula(rt, b"R0", b"R0", &mut short, &mut index_code, &mut code)?;
    let mut memory = [0u8; IMAGE_SIZE];
    run_formula(rt, b"R0", b"R0", &mut memory, &mut index_code, &mut code)
}

fn main(rt: HostRuntime) -> io::Result<()> {
    let mut input = [0u8; 65536];
    let n = inputs::read_full(&mut rt.stdin(), &mut input);
    for line in input[..n].split_inclusive(|b| *b == b'\n') {
        one_case(&rt, line.strip_suffix(b"\n").unwrap_or(line))?;
    }
    sizes(&rt)
}
