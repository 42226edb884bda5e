// Totals over a run of cells (paper 02, Ask 2): specs/Totals.antt.
#![tactic(auto)]

ghost use Rattle.std.specs.Prelude.{◌≡◌, ℕ};
ghost use Rattle.memory.specs.Cells.{bank_kind, read_rule};
ghost use Rattle.memory.specs.Environment.{memory_at};
ghost use Rattle.totals.specs.Totals.{total_over, match_over};
ghost use Rattle.totals.specs.private.Admitted.{no_visit, total_in, match_in};
ghost use Rattle.totals.specs.private.Steps.{ended_with, match_step, run_over};

use ranges::Cells;
use values::{ChoiceOp, CompareOp, Outcome, Value};

mod integers;
mod neighbours;
pub mod ranges;
pub mod tables;
pub mod tally;

// SUMR, AVGR, MAXR and MINR.
#[derive(Clone, Copy)]
pub enum TotalOp {
    Sum,
    Average,
    Choice(ChoiceOp),
}

// The COUNTIF and SUMIF families: how a cell compares with the expression.
#[derive(Clone, Copy)]
pub enum MatchOp {
    Count(CompareOp),
    Sum(CompareOp),
}

// What a run over cells comes to, and how many cells it began.
#[derive(Clone, Copy)]
pub struct Visited {
    pub result: Outcome,
    pub cells: u32,
}

// A run that comes to this after so many cells.
pub fn ended(res: Outcome, cells: u32) -> Visited
    ensures { result ≡ ended_with res cells }
{
    Visited { result: res, cells }
}

// What a run does with each cell, whatever its bank; the expression's value stands behind its comparison.
#[derive(Clone, Copy)]
pub enum Step {
    Add,
    Average,
    Choose(ChoiceOp),
    CountIf(CompareOp, Value),
    AddIf(CompareOp, Value),
}

// SUMR.
fn sum(image: &[u8], cells: Cells) -> Visited
    ensures { result ≡ run_over Step.Add (bank_kind cells.bank) (read_rule image.now cells.bank) cells.first cells.count }
{
    match cells.whole() {
        Some(whole) => integers::sum(image, whole),
        None => tally::sum(false, image, cells.first, cells.count),
    }
}

// AVGR, which is real: the cells of the other banks are promoted.
fn average(image: &[u8], cells: Cells) -> Visited
    ensures { result ≡ run_over Step.Average (bank_kind cells.bank) (read_rule image.now cells.bank) cells.first cells.count }
{
    match cells.whole() {
        Some(whole) => tally::average(image, whole),
        None => tally::sum(true, image, cells.first, cells.count),
    }
}

// MAXR and MINR.
fn choose(o: ChoiceOp, image: &[u8], cells: Cells) -> Visited
    ensures { result ≡ run_over (Step.Choose o) (bank_kind cells.bank) (read_rule image.now cells.bank) cells.first cells.count }
{
    match cells.whole() {
        Some(whole) => integers::choose(o, image, whole),
        None => tally::choose(o, image, cells.first, cells.count),
    }
}

// The IF forms: of cells that compare so with v the count, or the sum.
fn matched(counts: bool, o: CompareOp, v: Value, image: &[u8], cells: Cells) -> Visited
    ensures { result ≡ run_over (match_step counts o v) (bank_kind cells.bank) (read_rule image.now cells.bank) cells.first cells.count }
{
    let Some(whole) = cells.whole() else {
        return tally::matching(counts, o, v, image, cells.first, cells.count);
    };
    match neighbours::of(v) {
        Some(n) => integers::matching(counts, o, n.low, n.high, image, whole),
        None => tally::matching_promoted(counts, o, operators::as_real(v), image, whole),
    }
}

// A run of any kind. The loops come together here and not at their callers, so that the machine, which has one call of each, does not
// take them into its own loop.
fn run(step: Step, image: &[u8], cells: Cells) -> Visited
    ensures { result ≡ run_over step (bank_kind cells.bank) (read_rule image.now cells.bank) cells.first cells.count }
{
    match step {
        Step::Add => sum(image, cells),
        Step::Average => average(image, cells),
        Step::Choose(o) => choose(o, image, cells),
        Step::CountIf(o, v) => matched(true, o, v, image, cells),
        Step::AddIf(o, v) => matched(false, o, v, image, cells),
    }
}

// SUMR, AVGR, MAXR or MINR of a range, whatever the tick.
pub fn total(op: TotalOp, image: &[u8], cells: Cells) -> Visited
    ensures { (tick : ℕ) → result ≡ total_over (memory_at tick image.now) op cells.bank cells.first cells.count }
{
    match op {
        TotalOp::Sum => run(Step::Add, image, cells),
        TotalOp::Average => run(Step::Average, image, cells),
        TotalOp::Choice(o) => run(Step::Choose(o), image, cells),
    }
}

// COUNTIF or SUMIF of a range, where the expression is v.
pub fn matching(op: MatchOp, image: &[u8], cells: Cells, v: Value) -> Visited
    ensures { (tick : ℕ) → result ≡ match_over (memory_at tick image.now) op v cells.bank cells.first cells.count }
{
    match op {
        MatchOp::Count(o) => run(Step::CountIf(o, v), image, cells),
        MatchOp::Sum(o) => run(Step::AddIf(o, v), image, cells),
    }
}

// What is no run over cells: an outcome that leaves a machine stuck.
pub fn no_visit() -> Visited
    ensures { result ≡ no_visit }
{
    let result = Outcome::WrongKind;
    Visited { result, cells: 0 }
}

// As `total`, or in the profile without reals: there AVGR and a range of R are no visit.
pub fn total_in(op: TotalOp, image: &[u8], cells: Cells, reals: bool) -> Visited
    ensures { (tick : ℕ) → result ≡ total_in reals (memory_at tick image.now) op cells.bank cells.first cells.count }
{
    if reals {
        return total(op, image, cells);
    }
    let Some(whole) = cells.whole() else {
        return no_visit();
    };
    match op {
        TotalOp::Sum => integers::sum(image, whole),
        TotalOp::Average => no_visit(),
        TotalOp::Choice(o) => integers::choose(o, image, whole),
    }
}

// As `matching`, or in the profile without reals: there a range of R and a comparison with a real are no visit.
pub fn matching_in(op: MatchOp, image: &[u8], cells: Cells, v: Value, reals: bool) -> Visited
    ensures { (tick : ℕ) → result ≡ match_in reals (memory_at tick image.now) op v cells.bank cells.first cells.count }
{
    if reals {
        return matching(op, image, cells, v);
    }
    let Some(whole) = cells.whole() else {
        return no_visit();
    };
    match v {
        Value::Int(z) => match op {
            MatchOp::Count(o) => integers::matching(true, o, z, z, image, whole),
            MatchOp::Sum(o) => integers::matching(false, o, z, z, image, whole),
        },
        Value::Real(_) => no_visit(),
    }
}
