// The operations of paper 01 with the targets of paper 02: compile, compile a target, check, run, compile and run, and the two
// halves of a run, evaluate and store. None asks anything of its caller: a bad request is refused with its number, and then nothing is written.
// Each stands twice: `.._in` is that of the full box (reals true) or of the profile without reals (false), and behind it comes the full box's own,
// a call with a constant, whose contract is the one that `Promises` speaks of.
#![tactic(auto)]

ghost use Rattle.std.specs.Prelude.{◌≡◌, ◌≤◌, length};
ghost use Rattle.profile_text.specs.Targets.{target_in};
ghost use Rattle.compiler.specs.Compile.{compiling, coded_bytes};
ghost use Rattle.targets.specs.Found.{found_of, index_bytes};
ghost use Rattle.operations.specs.Operations.{report_of, compile_answer, check_answer, compile_target_answer, compile_target_code};
ghost use Rattle.operations.specs.Operations.{run_answer, run_memory, evaluate_answer, given_value, given_answer, given_memory};
ghost use Rattle.operations.specs.Operations.{request, request_answer, request_memory, request_code, request_index};
ghost use Rattle.operations.specs.Profile.{compile_answer_for, compiled_code_for, compile_target_answer_for, compile_target_code_for, check_answer_for};
ghost use Rattle.operations.specs.Profile.{run_answer_for, run_memory_for, evaluate_answer_for, given_answer_for, given_memory_for, request_for};

pub use delivery::Answer;
use machine::Ended;
use memory::Bank;
use targets::Element;
use values::{Fault, Value};

// The answer by its number, as paper 01 returns it, with the cell that paper 02 adds.
#[derive(Clone, Copy)]
pub struct Report {
    pub answer: u32,
    pub place: usize,
    pub value: Value,
    pub count: usize,
    pub bank: Bank,
    pub element: u32,
}

pub fn reported(a: Answer) -> Report
    ensures { result ≡ report_of a }
{
    match a {
        Answer::Done(value, count, bank, element) => Report {
            answer: 0,
            place: 0,
            value,
            count,
            bank,
            element,
        },
        Answer::Fault(f, count) => Report {
            answer: u32::from(f),
            place: 0,
            value: Value::Int(0),
            count,
            bank: Bank::X,
            element: 0,
        },
        Answer::Refused(answer, place) => Report {
            answer,
            place,
            value: Value::Int(0),
            count: 0,
            bank: Bank::X,
            element: 0,
        },
    }
}

pub fn compile_in(text: &[u8], code: &mut [u8], reals: bool) -> Answer
    ensures value { result ≡ compile_answer_for reals text.now code.old }
    ensures code_after { code.new ≡ compiled_code_for reals text.now code.old }
{
    match compiler::compile_in(text, 0, code, reals) {
        Ok(count) => Answer::Done(Value::Int(0), count, Bank::X, 0),
        Err(refusal) => Answer::Refused(refusal.answer, refusal.place),
    }
}

pub fn compile(text: &[u8], code: &mut [u8]) -> Answer
    ensures value { result ≡ compile_answer (compiling (length code.old) text.now) }
    ensures code_after { code.new ≡ coded_bytes code.old (compiling (length code.old) text.now) }
{
    compile_in(text, code, true)
}

// The index of a target, so that a formula compiled once is run in every scan.
pub fn compile_target_in(target: &[u8], index: &mut [u8], reals: bool) -> Answer
    ensures value { result ≡ compile_target_answer_for reals index.old target.now }
    ensures index_after { index.new ≡ compile_target_code_for reals index.old target.now }
{
    if index.len() < compiler::LEAST_CODE {
        return Answer::Refused(10, 0);
    }
    match targets::compile_in(target, index, reals) {
        Some((bank, element)) => match element {
            Element::Is(i) => Answer::Done(Value::Int(0), 0, bank, i),
            Element::By(n) => Answer::Done(Value::Int(0), n, bank, 0),
        },
        None => Answer::Refused(2, 0),
    }
}

pub fn compile_target(target: &[u8], index: &mut [u8]) -> Answer
    ensures value { result ≡ compile_target_answer index.old target.now }
    ensures index_after { index.new ≡ compile_target_code index.old target.now }
{
    compile_target_in(target, index, true)
}

pub fn check_in(code: &[u8], n: usize, reals: bool) -> Answer
    ensures { result ≡ check_answer_for reals code.now n }
{
    match verifier::check_in(code, n, reals) {
        Some(_) => Answer::Done(Value::Int(0), 0, Bank::X, 0),
        None => Answer::Refused(15, 0),
    }
}

pub fn check(code: &[u8], n: usize) -> Answer
    ensures { result ≡ check_answer code.now n }
{
    check_in(code, n, true)
}

// The value that code works out. Nothing is written, no flag either.
pub fn evaluate_in(code: &[u8], n: usize, memory: &[u8], tick: u32, reals: bool) -> Answer
    ensures { result ≡ evaluate_answer_for reals tick code.now n memory.now }
{
    if memory.len() != memory::IMAGE_SIZE {
        return Answer::Refused(1, 0);
    }
    let Some(_) = verifier::check_in(code, n, reals) else {
        return Answer::Refused(15, 0);
    };
    let ran = machine::run_in(code, n, memory, tick, reals);
    let count = ran.count;
    let end = ran.end;
    match end {
        Ended::Done(v) => Answer::Done(v, count, Bank::X, 0),
        Ended::Stopped(f) => Answer::Fault(f, count),
        Ended::Stuck => Answer::Refused(15, 0),
    }
}

pub fn evaluate(code: &[u8], n: usize, memory: &[u8], tick: u32) -> Answer
    ensures { result ≡ evaluate_answer tick code.now n memory.now }
{
    evaluate_in(code, n, memory, tick, true)
}

// A given value goes to a target of the form that run takes.
pub fn store_in(
    kind: u32,
    bits: u32,
    memory: &mut [u8],
    target: &[u8],
    index: &[u8],
    k: usize,
    tick: u32,
    reals: bool,
) -> Answer
    ensures value { result ≡ given_answer_for reals tick (given_value kind bits) target.now index.now k memory.old }
    ensures memory_after { memory.new ≡ given_memory_for reals tick (given_value kind bits) target.now index.now k
        memory.old }
{
    if memory.len() != memory::IMAGE_SIZE {
        return Answer::Refused(1, 0);
    }
    let Some((bank, element)) = targets::to_run_in(target, k, reals) else {
        return Answer::Refused(2, 0);
    };
    if !delivery::index_passes(element, index, reals) {
        return Answer::Refused(15, 0);
    }
    if delivery::is_unstorable(kind, reals) {
        return Answer::Refused(19, 0);
    }
    if !delivery::is_finite_given(kind, bits) {
        return delivery::flagged(memory, Fault::OutOfRange, 0);
    }
    let v = delivery::given(kind, bits);
    match element {
        Element::Is(i) => {
            let s = memory::store::store_in(memory, bank, i, v, reals);
            delivery::after_store(s, v, 0, bank, i)
        }
        Element::By(k) => delivery::to_element(memory, bank, index, k, v, 0, tick, reals),
    }
}

pub fn store(
    kind: u32,
    bits: u32,
    memory: &mut [u8],
    target: &[u8],
    index: &[u8],
    k: usize,
    tick: u32,
) -> Answer
    ensures value { result ≡ given_answer tick (given_value kind bits) target.now index.now k memory.old }
    ensures memory_after { memory.new ≡ given_memory tick (given_value kind bits) target.now index.now k memory.old }
{
    store_in(kind, bits, memory, target, index, k, tick, true)
}

// The target is a cell, or a bank letter alone whose element the first k instructions of the index code give. The tick is the caller's, the same throughout.
pub fn run_in(
    code: &[u8],
    n: usize,
    memory: &mut [u8],
    target: &[u8],
    index: &[u8],
    k: usize,
    tick: u32,
    reals: bool,
) -> Answer
    ensures value { result ≡ run_answer_for reals tick code.now n target.now index.now k memory.old }
    ensures memory_after { memory.new ≡ run_memory_for reals tick code.now n target.now index.now k memory.old }
{
    if memory.len() != memory::IMAGE_SIZE {
        return Answer::Refused(1, 0);
    }
    let Some((bank, element)) = targets::to_run_in(target, k, reals) else {
        return Answer::Refused(2, 0);
    };
    let Some(_) = verifier::check_in(code, n, reals) else {
        return Answer::Refused(15, 0);
    };
    if !delivery::index_passes(element, index, reals) {
        return Answer::Refused(15, 0);
    }
    let ran = machine::run_in(code, n, memory, tick, reals);
    delivery::finish(memory, bank, element, index, ran, tick, reals)
}

pub fn run(
    code: &[u8],
    n: usize,
    memory: &mut [u8],
    target: &[u8],
    index: &[u8],
    k: usize,
    tick: u32,
) -> Answer
    ensures value { result ≡ run_answer tick code.now n target.now index.now k memory.old }
    ensures memory_after { memory.new ≡ run_memory tick code.now n target.now index.now k memory.old }
{
    run_in(code, n, memory, target, index, k, tick, true)
}

// The index's code, of a target that was found good; that of a plain cell keeps what it held.
fn write_index(target: &[u8], element: Element, index: &mut [u8], reals: bool)
    requires in_bounds { 16384 ≤ length index.old }
    requires target_value { (b : Bank) × (found_of (target_in reals target.now) ≡ Some (b, element)) }
    ensures { index.new ≡ index_bytes index.old (target_in reals target.now) }
{
    match element {
        Element::Is(_) => {}
        Element::By(_) => {
            targets::compile_in(target, index, reals);
        }
    }
}

// Compiled code is accepted by the check, as is proved, so it is run without one.
pub fn compile_and_run_in(
    target: &[u8],
    text: &[u8],
    memory: &mut [u8],
    code: &mut [u8],
    index: &mut [u8],
    tick: u32,
    reals: bool,
) -> Answer
    ensures value { result ≡ request_answer tick memory.old (request_for reals target.now text.now memory.old
        code.old index.old) }
    ensures memory_after { memory.new ≡ request_memory tick memory.old
        (request_for reals target.now text.now memory.old code.old index.old) }
    ensures code_after { code.new ≡ request_code code.old
        (request_for reals target.now text.now memory.old code.old index.old) }
    ensures index_after { index.new ≡ request_index index.old
        (request_for reals target.now text.now memory.old code.old index.old) }
{
    if memory.len() != memory::IMAGE_SIZE {
        return Answer::Refused(1, 0);
    }
    if code.len() < compiler::LEAST_CODE {
        return Answer::Refused(10, 0);
    }
    if index.len() < compiler::LEAST_CODE {
        return Answer::Refused(10, 0);
    }
    let Some((bank, element)) = targets::judge_in(target, reals) else {
        return Answer::Refused(2, 0);
    };
    match compiler::compile_in(text, 0, code, reals) {
        Ok(count) => {
            write_index(target, element, index, reals);
            let ran = machine::run_in(code, count, memory, tick, reals);
            delivery::finish(memory, bank, element, index, ran, tick, reals)
        }
        Err(refusal) => Answer::Refused(refusal.answer, refusal.place),
    }
}

pub fn compile_and_run(
    target: &[u8],
    text: &[u8],
    memory: &mut [u8],
    code: &mut [u8],
    index: &mut [u8],
    tick: u32,
) -> Answer
    ensures value { result ≡ request_answer tick memory.old (request target.now text.now memory.old
        code.old index.old) }
    ensures memory_after { memory.new ≡ request_memory tick memory.old
        (request target.now text.now memory.old code.old index.old) }
    ensures code_after { code.new ≡ request_code code.old
        (request target.now text.now memory.old code.old index.old) }
    ensures index_after { index.new ≡ request_index index.old
        (request target.now text.now memory.old code.old index.old) }
{
    compile_and_run_in(target, text, memory, code, index, tick, true)
}
