// The operations of the profile without reals for C: include/formula_int.h. Each is the full library's operation with `reals` false, so that nothing
// of floating point is left in the archive; its test lists the instructions. A slice is a pointer and a length there, and the report is seven
// 32-bit words.
#![tactic(auto)]

ghost use Rattle.std.specs.Prelude.{◌≡◌, false};
ghost use Rattle.operators.specs.Reals.{real_value};
ghost use Rattle.operations.specs.Operations.{report_of, bits_of, given_value, request_answer, request_memory, request_code, request_index};
ghost use Rattle.operations.specs.Profile.{compile_answer_for, compiled_code_for, compile_target_answer_for, compile_target_code_for, check_answer_for};
ghost use Rattle.operations.specs.Profile.{run_answer_for, run_memory_for, evaluate_answer_for, given_answer_for, given_memory_for, request_for};
ghost use Rattle.c_report.specs.Words.{report_words};

use operations::Answer;
use values::Value;

fn integer_bits(v: Value) -> u32
    requires { real_value v ≡ false }
    ensures { result ≡ bits_of v }
{
    match v {
        Value::Int(z) => values::patterns::pattern(z),
        Value::Real(_) => 0,
    }
}

// The value of an answer of the profile is an integer: profile_laws.
fn fill_report(a: Answer, report: &mut [u32; 7])
    requires { real_value (report_of a).value ≡ false }
    ensures { report.new ≡ report_words a }
{
    let r = operations::reported(a);
    let value = r.value;
    let bits = integer_bits(value);
    c_report::fill(r, bits, report);
}

#[unsafe(no_mangle)]
pub extern "C" fn formula_int_compile(expr: &[u8], code: &mut [u8], report: &mut [u32; 7])
    ensures report_after { report.new ≡ report_words (compile_answer_for false expr.now code.old) }
    ensures code_after { code.new ≡ compiled_code_for false expr.now code.old }
{
    let answer = operations::compile_in(expr, code, false);
    fill_report(answer, report);
}

#[unsafe(no_mangle)]
pub extern "C" fn formula_int_compile_target(target: &[u8], index: &mut [u8], report: &mut [u32; 7])
    ensures report_after { report.new ≡ report_words (compile_target_answer_for false index.old target.now) }
    ensures index_after { index.new ≡ compile_target_code_for false index.old target.now }
{
    let answer = operations::compile_target_in(target, index, false);
    fill_report(answer, report);
}

#[unsafe(no_mangle)]
pub extern "C" fn formula_int_check(code: &[u8], instructions: usize, report: &mut [u32; 7])
    ensures { report.new ≡ report_words (check_answer_for false code.now instructions) }
{
    let answer = operations::check_in(code, instructions, false);
    fill_report(answer, report);
}

#[unsafe(no_mangle)]
pub extern "C" fn formula_int_run(
    code: &[u8],
    instructions: usize,
    memory: &mut [u8],
    target: &[u8],
    index: &[u8],
    count: usize,
    tick: u32,
    report: &mut [u32; 7],
)
    ensures report_after { report.new ≡ report_words (run_answer_for false tick code.now instructions target.now
        index.now count memory.old) }
    ensures memory_after { memory.new ≡ run_memory_for false tick code.now instructions target.now
        index.now count memory.old }
{
    let answer = operations::run_in(
        code,
        instructions,
        memory,
        target,
        index,
        count,
        tick,
        false,
    );
    fill_report(answer, report);
}

#[unsafe(no_mangle)]
pub extern "C" fn formula_int_compile_and_run(
    target: &[u8],
    expr: &[u8],
    memory: &mut [u8],
    code: &mut [u8],
    index: &mut [u8],
    tick: u32,
    report: &mut [u32; 7],
)
    ensures report_after { report.new ≡ report_words (request_answer tick memory.old
        (request_for false target.now expr.now memory.old code.old index.old)) }
    ensures memory_after { memory.new ≡ request_memory tick memory.old
        (request_for false target.now expr.now memory.old code.old index.old) }
    ensures code_after { code.new ≡ request_code code.old
        (request_for false target.now expr.now memory.old code.old index.old) }
    ensures index_after { index.new ≡ request_index index.old
        (request_for false target.now expr.now memory.old code.old index.old) }
{
    let answer = operations::compile_and_run_in(target, expr, memory, code, index, tick, false);
    fill_report(answer, report);
}

#[unsafe(no_mangle)]
pub extern "C" fn formula_int_evaluate(
    code: &[u8],
    instructions: usize,
    memory: &[u8],
    tick: u32,
    report: &mut [u32; 7],
)
    ensures { report.new ≡ report_words (evaluate_answer_for false tick code.now instructions memory.now) }
{
    let answer = operations::evaluate_in(code, instructions, memory, tick, false);
    fill_report(answer, report);
}

#[unsafe(no_mangle)]
pub extern "C" fn formula_int_store(
    kind: u32,
    bits: u32,
    memory: &mut [u8],
    target: &[u8],
    index: &[u8],
    count: usize,
    tick: u32,
    report: &mut [u32; 7],
)
    ensures report_after { report.new ≡ report_words (given_answer_for false tick (given_value kind bits) target.now
        index.now count memory.old) }
    ensures memory_after { memory.new
        ≡ given_memory_for false tick (given_value kind bits) target.now index.now count memory.old }
{
    let answer = operations::store_in(kind, bits, memory, target, index, count, tick, false);
    fill_report(answer, report);
}
