// Runs that are real: sum, least and greatest as singles beside the count.
ghost use Rattle.std.specs.Prelude.{◌≡◌, ◌+◌, ◌≤◌, ◌<◌, false, nat_abs};
ghost use Rattle.values.specs.Convert.{promoted};
ghost use Rattle.values.specs.declared.Kind.TheVariants as K;
ghost use Rattle.values.specs.declared.Kind.TheVariants.{Real};
ghost use Rattle.memory.specs.Cells.{read_rule};
ghost use Rattle.totals.specs.private.Steps.{sum_step, match_step, run_over};
ghost use Rattle.totals.specs.private.Tally.{begun, stepped, first_real, mean_of, reading};

use crate::ranges::WholeCells;
use crate::{Step, Visited, integers};
use memory::{Bank, cells};
use reals::ArithOp;
use values::{ChoiceOp, CompareOp, Fault, Outcome, Value, singles};

// The least and the greatest begin as the first cell, which is then taken like any other.
#[derive(Clone, Copy)]
pub struct Tally {
    pub sum: f32,
    pub least: f32,
    pub greatest: f32,
    pub count: u32,
}

impl Tally {
    // Before any cell of a run whose first cell is given.
    pub fn begin(first: f32) -> Tally
        ensures { result ≡ begun first }
    {
        Tally {
            sum: 0.0,
            least: first,
            greatest: first,
            count: 0,
        }
    }

    // With one cell more.
    pub fn step(self, x: f32) -> Tally
        requires { self.count < 256 }
        ensures { result ≡ stepped self x }
    {
        Tally {
            sum: self.sum + x,
            least: singles::choose(ChoiceOp::Min, self.least, x),
            greatest: singles::choose(ChoiceOp::Max, self.greatest, x),
            count: self.count + 1,
        }
    }
}

// The first cell; any single where it cannot be read, since the run then ends there.
fn first_real(image: &[u8], first: u32) -> f32
    ensures { result ≡ first_real (read_rule image.now Bank.R first) }
{
    match cells::read(image, Bank::R, first) {
        Outcome::Done(v) => operators::as_real(v),
        Outcome::Stopped(_) => 0.0,
        Outcome::WrongKind => 0.0,
    }
}

// AVGR's division, of two numbers: a tally would keep its other fields in the loop.
fn mean(sum: f32, count: u32) -> Outcome
    requires { count ≤ 256 }
    ensures { result ≡ mean_of sum count }
{
    operators::arith(ArithOp::Div, Value::Real(sum), Value::Int(count as i32))
}

// What a run comes to whose last cell was taken.
fn reading(step: Step, t: Tally) -> Outcome
    requires { t.count ≤ 256 }
    ensures { result ≡ reading step t }
{
    match step {
        Step::Add => Outcome::Done(Value::Real(t.sum)),
        Step::Average => mean(t.sum, t.count),
        Step::Choose(o) => match o {
            ChoiceOp::Max => Outcome::Done(Value::Real(t.greatest)),
            ChoiceOp::Min => Outcome::Done(Value::Real(t.least)),
        },
        Step::CountIf(_, _) => Outcome::Done(Value::Int(t.count as i32)),
        Step::AddIf(_, _) => Outcome::Done(Value::Real(t.sum)),
    }
}

// SUMR and AVGR of R. It ends at a cell that cannot be read, or whose addition makes the sum infinite. Here and below an outcome is made
// anew, since a copy would keep that of every cell.
// Each of the three has a loop of its own: one loop, which asks a closure whether it takes a cell, takes 12% to 60% more instructions.
pub fn sum(averaged: bool, image: &[u8], first: u32, count: u32) -> Visited
    requires { first + count ≤ 256 }
    ensures { result ≡ run_over (sum_step averaged) Real (read_rule image.now Bank.R) first count }
{
    let mut t = Tally::begin(0.0);
    for k in 0..count {
        let cell = cells::read(image, Bank::R, first + k);
        match cell {
            Outcome::Done(v) => {
                t = t.step(operators::as_real(v));
                if !singles::is_finite(t.sum) {
                    return crate::ended(singles::settled(t.sum), k + 1);
                }
            }
            Outcome::Stopped(f) => {
                return crate::ended(Outcome::Stopped(f), k + 1);
            }
            Outcome::WrongKind => {
                return crate::ended(Outcome::WrongKind, k + 1);
            }
        }
    }
    if averaged {
        return crate::ended(reading(Step::Average, t), count);
    }
    crate::ended(reading(Step::Add, t), count)
}

// MAXR and MINR of R, which go on past an infinite sum.
pub fn choose(o: ChoiceOp, image: &[u8], first: u32, count: u32) -> Visited
    requires { (1 ≤ count) × (first + count ≤ 256) }
    ensures { result ≡ run_over (Step.Choose o) Real (read_rule image.now Bank.R) first count }
{
    let mut t = Tally::begin(first_real(image, first));
    for k in 0..count {
        let cell = cells::read(image, Bank::R, first + k);
        match cell {
            Outcome::Done(v) => {
                t = t.step(operators::as_real(v));
            }
            Outcome::Stopped(f) => {
                return crate::ended(Outcome::Stopped(f), k + 1);
            }
            Outcome::WrongKind => {
                return crate::ended(Outcome::WrongKind, k + 1);
            }
        }
    }
    crate::ended(reading(Step::Choose(o), t), count)
}

// COUNTIF and SUMIF of R: matching cells are taken, and a count goes on past an infinite sum.
pub fn matching(
    counts: bool,
    o: CompareOp,
    v: Value,
    image: &[u8],
    first: u32,
    count: u32,
) -> Visited
    requires { (1 ≤ count) × (first + count ≤ 256) }
    ensures { result ≡ run_over (match_step counts o v) Real (read_rule image.now Bank.R) first count }
{
    let y = operators::as_real(v);
    let mut t = Tally::begin(0.0);
    for k in 0..count {
        let cell = cells::read(image, Bank::R, first + k);
        match cell {
            Outcome::Done(c) => {
                let x = operators::as_real(c);
                if !singles::compare(o, x, y) {
                    continue;
                }
                t = t.step(x);
                if !counts {
                    if !singles::is_finite(t.sum) {
                        return crate::ended(singles::settled(t.sum), k + 1);
                    }
                }
            }
            Outcome::Stopped(f) => {
                return crate::ended(Outcome::Stopped(f), k + 1);
            }
            Outcome::WrongKind => {
                return crate::ended(Outcome::WrongKind, k + 1);
            }
        }
    }
    if counts {
        return crate::ended(reading(Step::CountIf(o, v), t), count);
    }
    crate::ended(reading(Step::AddIf(o, v), t), count)
}

// A cell of a narrow bank is a single as it is.
fn promoted_cell(wide: bool, z: i32) -> f32
    requires { wide ≡ false → nat_abs z ≤ 65536 }
    ensures { result ≡ promoted z }
{
    if wide {
        values::convert::promote(z)
    } else {
        z as f32
    }
}

// AVGR of a bank of integers: the cells are promoted. Above the size up to which LLVM writes a loop out for each arm by itself.
#[inline(always)]
fn average_of(bank: Bank, image: &[u8], cells: WholeCells) -> Visited
    requires { bank ≡ cells.bank }
    ensures { result ≡ run_over Step.Average Real (read_rule image.now cells.bank) cells.first cells.count }
{
    if !integers::are_in(image, bank, cells) {
        return integers::no_cells();
    }
    let wide = integers::is_wide(bank);
    let mut t = Tally::begin(0.0);
    for k in 0..cells.count {
        let z = integers::whole_at(image, bank, cells.first + k);
        t = t.step(promoted_cell(wide, z));
        if !singles::is_finite(t.sum) {
            return crate::ended(singles::settled(t.sum), k + 1);
        }
    }
    crate::ended(mean(t.sum, t.count), cells.count)
}

pub fn average(image: &[u8], cells: WholeCells) -> Visited
    ensures { result ≡ run_over Step.Average Real (read_rule image.now cells.bank) cells.first cells.count }
{
    integers::in_bank!(cells.bank, average_of(image, cells))
}

// COUNTIF and SUMIF of a bank of integers, compared with a real: the cells are promoted to be compared.
pub fn matching_promoted(
    counts: bool,
    o: CompareOp,
    x: f32,
    image: &[u8],
    cells: WholeCells,
) -> Visited
    ensures { result ≡ run_over (match_step counts o (Value.Real x)) K.Int (read_rule image.now cells.bank) cells.first cells.count }
{
    if !integers::are_in(image, cells.bank, cells) {
        return integers::no_cells();
    }
    let mut a: i64 = 0;
    for k in 0..cells.count {
        let z = integers::whole_at(image, cells.bank, cells.first + k);
        if !singles::compare(o, values::convert::promote(z), x) {
            continue;
        }
        a += integers::taken_of(counts, z) as i64;
        if !values::integers::in_range(a) {
            return crate::ended(Outcome::Stopped(Fault::Overflow), k + 1);
        }
    }
    let held = a as i32;
    crate::ended(Outcome::Done(Value::Int(held)), cells.count)
}
