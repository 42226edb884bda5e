// The machine: instructions run on values held, a memory that they only read, and the tick.
// An instruction is performed from the number of its eight bytes, without being made an `Instr` first: enums pass through memory.
#![tactic(auto)]

ghost use Rattle.std.specs.Prelude.{◌≡◌, ◌+◌, ◌*◌, ◌-◌, ◌≤◌, ◌<◌, Bool, MatchOption};
ghost use Rattle.memory.specs.Environment.{memory_of};
ghost use Rattle.code.specs.declared.Instr.TheVariants.{JumpIf};
ghost use Rattle.code.specs.declared.Class.TheVariants.{PushInt, PushReal, Jump, Tick, Since, Load, LoadIndexed, Unary, Binary};
ghost use Rattle.totals.specs.Numbers.{total_of, match_of};
ghost use Rattle.code.specs.Instructions.{word_of};
ghost use Rattle.code.specs.private.Classes.{number_of, instr_in};
ghost use Rattle.machine.specs.Machine.{max_cells, runs_at};
ghost use Rattle.machine.specs.Profile.{runs_in};
ghost use Rattle.machine.specs.private.Steps.{push_or_stuck, skip_step, stop_step, stuck_step, outcome_step, bank_step};
ghost use Rattle.machine.specs.private.Steps.{NoRange, IsRange, total_visit, match_visit, on_last, IsVisit};
ghost use Rattle.machine.specs.private.Steps.{IsStep, IsStepOn, IsStepOnBoth, IsLoad, IsLoadOn, IsTick, IsTickOn, stuck_at, failed_at, finished_at};

use code::Class;
use memory::{Bank, numbers};
use operators::{numbered, tables};
use totals::Visited;
use totals::ranges::Cells;
use values::{Fault, Outcome, Value};

// How a run ends: with the one value held, with a fault, or stuck: short of a value, given one of a wrong kind, past 128 held, at
// bytes that are no instruction, or past the end; without reals also at an instruction that reads R, makes a real or takes one.
#[derive(Clone, Copy)]
pub enum Ended {
    Done(Value),
    Stopped(Fault),
    Stuck,
}

// count: the instructions begun, and the cells that they began.
#[derive(Clone, Copy)]
pub struct Ran {
    pub end: Ended,
    pub count: usize,
}

// What an instruction does with the values held and the place. Stop and Stuck end the run.
#[derive(Clone, Copy)]
pub enum How {
    Push,
    Skip,
    Stop,
    Stuck,
}

// Of the values held the first are kept, as many as height says; then value is pushed (Push), or instructions are skipped (Skip), or
// the run stops with the fault (Stop). A struct, and not an enum with a value in each variant, stays in registers.
#[derive(Clone, Copy)]
pub struct Step {
    pub how: How,
    pub height: u32,
    pub skip: u32,
    pub value: Value,
    pub fault: Fault,
}

fn stuck_step() -> Step
    ensures { result ≡ stuck_step }
{
    Step {
        how: How::Stuck,
        height: 0,
        skip: 0,
        value: Value::Int(0),
        fault: Fault::Overflow,
    }
}

// No more than 128 values are held.
fn push_step(height: u32, value: Value) -> Step
    ensures { result ≡ push_or_stuck height value }
{
    if 128 <= height {
        return stuck_step();
    }
    Step {
        how: How::Push,
        height,
        skip: 0,
        value,
        fault: Fault::Overflow,
    }
}

fn skip_step(height: u32, skip: u32) -> Step
    ensures { result ≡ skip_step height skip }
{
    Step {
        how: How::Skip,
        height,
        skip,
        value: Value::Int(0),
        fault: Fault::Overflow,
    }
}

fn stop_step(fault: Fault) -> Step
    ensures { result ≡ stop_step fault }
{
    Step {
        how: How::Stop,
        height: 0,
        skip: 0,
        value: Value::Int(0),
        fault,
    }
}

// An outcome, where the first values are kept, as many as height says. Its value is made anew, since a copy of the whole would keep the
// value of every step in memory.
fn outcome_step(height: u32, o: Outcome) -> Step
    ensures { result ≡ outcome_step height o }
{
    match o {
        Outcome::Done(v) => match v {
            Value::Int(z) => push_step(height, Value::Int(z)),
            Value::Real(x) => push_step(height, Value::Real(x)),
        },
        Outcome::Stopped(f) => stop_step(f),
        Outcome::WrongKind => stuck_step(),
    }
}

// One function for each class of instruction, with w the number of its eight bytes and h values held. Whatever it does not look at may
// be anything.
fn push_int(w: u64, h: u32) -> Step
    ensures { (reals : Bool) → IsStep reals (instr_in PushInt w) h result }
{
    push_step(
        h,
        Value::Int(values::patterns::from_pattern(code::word_of(w))),
    )
}

fn push_real(w: u64, h: u32, reals: bool) -> Step
    ensures { IsStep reals (instr_in PushReal w) h result }
{
    if !reals {
        return stuck_step();
    }
    let word = code::word_of(w);
    if values::patterns::is_finite_single(word) {
        return push_step(h, Value::Real(f32::from_bits(word)));
    }
    stuck_step()
}

fn load_from(bank: Bank, word: u32, image: &[u8], h: u32) -> Step
    ensures { result ≡ bank_step (memory_of image.now) bank word h }
{
    if word < memory::layout_of(bank).elements {
        outcome_step(h, memory::cells::read(image, bank, word))
    } else {
        stuck_step()
    }
}

// An arm for each bank, so that a bank's layout is known where its cell is read.
fn load(w: u64, image: &[u8], h: u32, reals: bool) -> Step
    ensures { IsLoad reals image.now (instr_in Load w) h result }
{
    let word = code::word_of(w);
    match code::number_of(w) {
        0 => load_from(Bank::X, word, image, h),
        1 => load_from(Bank::C, word, image, h),
        2 => load_from(Bank::V, word, image, h),
        3 => load_from(Bank::N, word, image, h),
        4 => load_from(Bank::D, word, image, h),
        5 => {
            if reals {
                return load_from(Bank::R, word, image, h);
            }
            stuck_step()
        }
        _ => stuck_step(),
    }
}

// v is the last of h values, and left the one before it; where there are fewer, they may be anything.
fn load_indexed(w: u64, image: &[u8], h: u32, v: Value, reals: bool) -> Step
    ensures { IsLoadOn reals image.now (instr_in LoadIndexed w) h v result }
{
    if h < 1 {
        return stuck_step();
    }
    if code::word_of(w) != 0 {
        return stuck_step();
    }
    match numbers::bank_numbered(code::number_of(w)) {
        Some(b) => outcome_step(h - 1, memory::cells::read_indexed_in(image, b, v, reals)),
        None => stuck_step(),
    }
}

fn unary(w: u64, h: u32, v: Value, reals: bool) -> Step
    ensures { IsStepOn reals (instr_in Unary w) h v result }
{
    if h < 1 {
        return stuck_step();
    }
    if code::word_of(w) != 0 {
        return stuck_step();
    }
    match tables::unary_of(code::number_of(w)) {
        Some(o) => outcome_step(h - 1, operators::unary_in(o, v, reals)),
        None => stuck_step(),
    }
}

fn binary(w: u64, h: u32, left: Value, v: Value, reals: bool) -> Step
    ensures { IsStepOnBoth reals (instr_in Binary w) h left v result }
{
    if h < 2 {
        return stuck_step();
    }
    if code::word_of(w) != 0 {
        return stuck_step();
    }
    outcome_step(
        h - 2,
        numbered::binary_in(code::number_of(w), left, v, reals),
    )
}

fn jump(w: u64, h: u32) -> Step
    ensures { (reals : Bool) → IsStep reals (instr_in Jump w) h result }
{
    skip_step(h, code::word_of(w))
}

// A jump if the truth of v is t. Each way returns at once: where the two join, the loop tests once more what kind of step it is.
fn jump_if(w: u64, h: u32, v: Value, t: bool, reals: bool) -> Step
    ensures { IsStepOn reals (JumpIf t (word_of w)) h v result }
{
    if h < 1 {
        return stuck_step();
    }
    if !operators::is_admitted(v, reals) {
        return stuck_step();
    }
    if operators::truth_in(v, reals) == t {
        return skip_step(h - 1, code::word_of(w));
    }
    skip_step(h - 1, 0)
}

// The height is tested here already: where the ways out of `push_step` join those of a load, every load takes longer.
fn push_tick(w: u64, h: u32, tick: u32) -> Step
    ensures { IsTick tick (instr_in Tick w) h result }
{
    if code::word_of(w) != 0 {
        return stuck_step();
    }
    if 127 < h {
        return stuck_step();
    }
    push_step(h, Value::Int(values::patterns::from_pattern(tick)))
}

fn since(w: u64, h: u32, tick: u32, v: Value) -> Step
    ensures { IsTickOn tick (instr_in Since w) h v result }
{
    if h < 1 {
        return stuck_step();
    }
    if code::word_of(w) != 0 {
        return stuck_step();
    }
    outcome_step(h - 1, operators::since(tick, v))
}

// The cells of a word's range, which must lie within its bank.
fn range_of(word: u32) -> Option<Cells>
    ensures { MatchOption result (NoRange word) (λ cells. IsRange word cells.bank cells.first cells.count) }
{
    match numbers::bank_numbered(code::range_bank(word)) {
        Some(bank) => Cells::new(bank, code::range_first(word), code::range_count(word)),
        None => None,
    }
}

fn total(w: u64, image: &[u8], reals: bool) -> Visited
    ensures { IsVisit image.now (λ E. total_visit reals E (total_of (number_of w)) (word_of w)) result }
{
    let Some(o) = totals::tables::total_of(code::number_of(w)) else {
        return totals::no_visit();
    };
    match range_of(code::word_of(w)) {
        Some(cells) => totals::total_in(o, image, cells, reals),
        None => totals::no_visit(),
    }
}

// Compared with v, the last of h values.
fn matching(w: u64, image: &[u8], h: u32, v: Value, reals: bool) -> Visited
    ensures { IsVisit image.now (λ E. on_last h (match_visit reals E (match_of (number_of w)) v (word_of w))) result }
{
    if h < 1 {
        return totals::no_visit();
    }
    let Some(o) = totals::tables::match_of(code::number_of(w)) else {
        return totals::no_visit();
    };
    match range_of(code::word_of(w)) {
        Some(cells) => totals::matching_in(o, image, cells, v, reals),
        None => totals::no_visit(),
    }
}

fn stuck(count: usize) -> Ran
    ensures { result ≡ stuck_at count }
{
    Ran {
        end: Ended::Stuck,
        count,
    }
}

// The end of a run that a step makes.
fn failed(how: How, fault: Fault, count: usize) -> Ran
    ensures { result ≡ failed_at how fault count }
{
    match how {
        How::Stop => Ran {
            end: Ended::Stopped(fault),
            count,
        },
        _ => stuck(count),
    }
}

// Where the k-th value from the top of h lies in the array; anywhere in it if there are fewer, since whoever asks then is stuck. A
// remainder by 128 takes the place of a test.
fn from_top(h: u32, k: u32) -> usize
    requires { (h ≤ 128) × (1 ≤ k) × (k ≤ 2) }
    ensures { (k ≤ h → result ≡ h - k) × (result < 128) }
{
    ((h + (128 - k)) % 128) as usize
}

// Past the instructions that the code has: at the end of n of them, beyond it after a jump, or before it where the code has fewer and
// the next is none. h values are held, and the first of them is v.
fn finished(n: usize, place: usize, h: u32, v: Value, count: usize) -> Ran
    requires { (count ≤ (1 + max_cells) * place) × (n ≤ 2048) }
    ensures { result ≡ finished_at n place h v count }
{
    if n < place {
        return stuck(count);
    }
    if place < n {
        return stuck(count + 1);
    }
    if h == 1 {
        let end = Ended::Done(v);
        Ran { end, count }
    } else {
        stuck(count)
    }
}

// The first n instructions of the code, from no values held, with reals or in the profile without them. They are no more than the check
// takes, so that the count fits. Bytes beyond the code are no instruction. A jump past the end leaves the loop as the end does, and is told
// from it afterwards; one that no code holds is stuck at once, so that places, heights and counts fit 32 bits, as a controller's registers
// do. The match stands whole: with some of its arms in a function of their own a run takes a tenth to a half more machine instructions.
pub fn run_in(code: &[u8], n: usize, image: &[u8], tick: u32, reals: bool) -> Ran
    requires { n ≤ 2048 }
    ensures { result ≡ runs_in reals tick code.now n image.now }
{
    let mut stack = [Value::Int(0); 128];
    let mut h: u32 = 0;
    let mut place: u32 = 0;
    let mut count: u32 = 0;
    let there = n.min(code.len() / 8) as u32;
    while place < there {
        let w = code::fetch(code, place as usize);
        count += 1;
        let step = match code::class_of(w) {
            Class::PushInt => push_int(w, h),
            Class::PushReal => push_real(w, h, reals),
            Class::Jump => jump(w, h),
            Class::JumpIfFalse => jump_if(w, h, stack[from_top(h, 1)], false, reals),
            Class::JumpIfTrue => jump_if(w, h, stack[from_top(h, 1)], true, reals),
            Class::Tick => push_tick(w, h, tick),
            Class::Since => since(w, h, tick, stack[from_top(h, 1)]),
            Class::Load => load(w, image, h, reals),
            Class::LoadIndexed => load_indexed(w, image, h, stack[from_top(h, 1)], reals),
            Class::Unary => unary(w, h, stack[from_top(h, 1)], reals),
            Class::Binary => binary(w, h, stack[from_top(h, 2)], stack[from_top(h, 1)], reals),
            Class::Total => {
                let visited = total(w, image, reals);
                count += visited.cells;
                let result = visited.result;
                outcome_step(h, result)
            }
            Class::Match => {
                let visited = matching(w, image, h, stack[from_top(h, 1)], reals);
                count += visited.cells;
                let result = visited.result;
                outcome_step(h.saturating_sub(1), result)
            }
            Class::Unknown => stuck_step(),
        };
        h = step.height;
        let skip = step.skip;
        let fault = step.fault;
        let how = step.how;
        match how {
            How::Push => {
                let value = step.value;
                stack[h as usize] = value;
                h += 1;
                place += 1;
            }
            How::Skip => {
                if 2048 <= skip {
                    return stuck(count as usize);
                }
                place += 1 + skip;
            }
            How::Stop | How::Stuck => return failed(how, fault, count as usize),
        }
    }
    finished(n, place as usize, h, stack[0], count as usize)
}

// The run of the full box.
pub fn run(code: &[u8], n: usize, image: &[u8], tick: u32) -> Ran
    requires { n ≤ 2048 }
    ensures { result ≡ runs_at tick code.now n image.now }
{
    run_in(code, n, image, tick, true)
}
