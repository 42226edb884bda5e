// Every operator on a table of edge cases, to compare with a second implementation on hardware floats: tests/host/expected/values.rs.
// A line has a name and the results for every operand of the table; for two operands the left one stands after the name.
// A result is i and a signed decimal, r and a pattern, ! and a fault's number, or ? for an operand of the wrong kind.
// The last lines have whole powers, and the most multiplications that one of them takes.
#![tactic(auto)]

use case_lines::{Each, Shown};
use operators::{UnaryOp, tables};
use std::fmt::Display;
use std::io;
use std::num::f32_from_bits_with_nan;
use tokens::symbols;
use values::{Fault, Kind, Outcome, Value};

// Around the bounds of shift counts and exponents, above the 24 bits of a single, and the limits of 32 bits.
const INTEGERS: [i32; 15] = [
    0,
    1,
    -1,
    2,
    3,
    -7,
    31,
    32,
    64,
    65,
    16777217,
    -16777219,
    1073741962,
    2147483647,
    -2147483648,
];

// Patterns: zeros, subnormals, halves, whole numbers, and both sides of 2 ^ 31.
const SINGLES: [u32; 22] = [
    0x0000_0000, // 0.0
    0x8000_0000, // -0.0
    0x0000_0001, // the smallest subnormal
    0x8000_0001, // the same below zero
    0x007f_ffff, // the largest subnormal
    0x0080_0000, // the smallest normal
    0x3eff_ffff, // the single below 0.5
    0x3f00_0000, // 0.5
    0xbf00_0000, // -0.5
    0x3f7f_ffff, // the single below 1.0
    0x3f80_0000, // 1.0
    0xbf80_0000, // -1.0
    0x3fc0_0000, // 1.5
    0xc020_0000, // -2.5
    0x4aff_ffff, // 2 ^ 23 - 0.5
    0x4b80_0000, // 2 ^ 24
    0x4eff_ffff, // the single below 2 ^ 31
    0x4f00_0000, // 2 ^ 31
    0xcf00_0000, // -(2 ^ 31)
    0xcf00_0001, // the single below that
    0x7f7f_ffff, // the largest single
    0xff7f_ffff, // the least single
];

// Bases and exponents of whole powers. 46340 is the largest integer whose square 32 bits hold.
const BASES: [i32; 13] = [
    -2147483648,
    -46341,
    -46340,
    -3,
    -2,
    -1,
    0,
    1,
    2,
    3,
    46340,
    46341,
    2147483647,
];

const EXPONENTS: [i32; 19] = [
    0, 1, 2, 3, 4, 5, 6, 7, 15, 16, 30, 31, 32, 33, 62, 63, 64, 65, -1,
];

const UNARY: [(&str, UnaryOp); 8] = [
    ("-", UnaryOp::Neg),
    ("~", UnaryOp::Complement),
    ("!", UnaryOp::Not),
    ("ABS", UnaryOp::Abs),
    ("TOREAL", UnaryOp::ToReal),
    ("TRUNC", UnaryOp::Trunc),
    ("ROUND", UnaryOp::Round),
    ("FRAC", UnaryOp::Frac),
];

const BINARY: [(&str, u8); 20] = [
    ("+", symbols::PLUS),
    ("-", symbols::MINUS),
    ("*", symbols::TIMES),
    ("/", symbols::DIVIDE),
    ("%", symbols::REMAINDER),
    ("**", symbols::POWER),
    ("<<", symbols::SHIFT_LEFT),
    (">>", symbols::SHIFT_RIGHT),
    (">>>", symbols::SHIFT_RIGHT_ZEROS),
    ("<", symbols::LESS),
    (">", symbols::GREATER),
    ("<=", symbols::LESS_OR_EQUAL),
    (">=", symbols::GREATER_OR_EQUAL),
    ("==", symbols::EQUAL),
    ("!=", symbols::NOT_EQUAL),
    ("&", symbols::BIT_AND),
    ("|", symbols::BIT_OR),
    ("^", symbols::BIT_XOR),
    ("MAX", tables::MAX),
    ("MIN", tables::MIN),
];

// The integers of the table, and then its singles.
fn operands() -> [Value; 37] {
    let integers = INTEGERS.iter().map(|z| Value::Int(*z));
    let singles = SINGLES
        .iter()
        .map(|pattern| Value::Real(f32_from_bits_with_nan(*pattern)));
    let mut all = [Value::Int(0); 37];
    for (operand, v) in all.iter_mut().zip(integers.chain(singles)) {
        *operand = v;
    }
    all
}

// The element that an index names, as an integer.
fn index(v: Value, elements: u32) -> Outcome {
    match operators::index(v, elements) {
        Ok(i) => Outcome::Done(Value::Int(values::patterns::from_pattern(i))),
        Err(f) => Outcome::Stopped(f),
    }
}

// A line: its name, and what each operand of the table gives.
fn results<D: Display + Drop, F: Fn(Value) -> Outcome>(
    rt: &impl Print,
    name: D,
    of: F,
) -> io::Result<()>
    requires { F.IsAlwaysCallable of }
{
    let given = operands().map(|v| Shown(of(v)));
    println!(rt; "{name}{}", Each(&given))
}

// The numbers of the faults. No operator gives the last, which is a bank's.
fn faults(rt: &impl Print) -> io::Result<()> {
    let all = [
        Shown(Fault::DividedByZero),
        Shown(Fault::Overflow),
        Shown(Fault::OutOfRange),
        Shown(Fault::IndexError),
    ];
    println!(rt; "faults{}", Each(&all))
}

// Readings of one operand. The first of these lines has the operands themselves.
fn readings(rt: &impl Print) -> io::Result<()> {
    results(rt, "branch of int", |v| {
        Outcome::Done(operators::branch(v, Kind::Int))
    })?;
    results(rt, "branch of real", |v| {
        Outcome::Done(operators::branch(v, Kind::Real))
    })?;
    results(rt, "truth", |v| {
        Outcome::Done(Value::Int(i32::from(operators::truth(v))))
    })?;
    for elements in [64, 256] {
        results(rt, format_args!("index of {elements}"), |v| {
            index(v, elements)
        })?;
    }
    Ok(())
}

fn ones(rt: &impl Print) -> io::Result<()> {
    for (name, op) in UNARY {
        results(rt, name, |v| operators::unary(op, v))?;
    }
    Ok(())
}

// At ticks around the turns of the counter and of its sign.
fn sinces(rt: &impl Print) -> io::Result<()> {
    for tick in [0, 1, 0x7fff_ffff, 0x8000_0000, 0xffff_ffff] {
        results(rt, format_args!("SINCE at {tick:08X}:"), |v| {
            operators::since(tick, v)
        })?;
    }
    Ok(())
}

// A line for each left operand.
fn two(rt: &impl Print, name: &str, op: u8) -> io::Result<()> {
    for a in operands() {
        results(rt, format_args!("{name} {}:", Shown(a)), |v| {
            operators::numbered::binary(op, a, v)
        })?;
    }
    Ok(())
}

fn twos(rt: &impl Print) -> io::Result<()> {
    for (name, op) in BINARY {
        two(rt, name, op)?;
    }
    Ok(())
}

// Writes a line of the powers of one base, and gives the most multiplications that one of them takes.
fn powers_of(rt: &impl Print, a: i32) -> io::Result<u32> {
    let powers = EXPONENTS.map(|n| values::integers::counted_power(a, n));
    let outcomes = powers.map(|power| Shown(power.outcome));
    println!(rt; "powers of i{a}:{}", Each(&outcomes))?;
    let most = powers
        .iter()
        .fold(0, |most: u32, power| power.count.max(most));
    Ok(most)
}

fn powers(rt: &impl Print) -> io::Result<()> {
    let mut most = 0;
    for a in BASES {
        most = powers_of(rt, a)?.max(most);
    }
    println!(rt; "most multiplications {most}")
}

fn main(rt: HostRuntime) -> io::Result<()> {
    faults(&rt)?;
    readings(&rt)?;
    ones(&rt)?;
    sinces(&rt)?;
    twos(&rt)?;
    powers(&rt)
}
