// The operations for C, and the remainder: include/formula.h. A slice is a pointer and a length there, and the report is seven
// 32-bit words.
#![tactic(auto)]

ghost use Rattle.std.specs.Prelude.{◌≡◌, length};
ghost use Rattle.std.specs.Float.{binary32};
ghost use Rattle.std.specs.Float.Ieee.{rem};
ghost use Rattle.format_laws.specs.Format.{format_answer, format_buffer};
ghost use Rattle.compiler.specs.Compile.{compiling, coded_bytes};
ghost use Rattle.operations.specs.Operations.{compile_answer, check_answer, compile_target_answer, compile_target_code, run_answer, run_memory};
ghost use Rattle.operations.specs.Operations.{bits_of, evaluate_answer, given_value, given_answer, given_memory};
ghost use Rattle.operations.specs.Operations.{request, request_answer, request_memory, request_code, request_index};
ghost use Rattle.c_report.specs.Words.{report_words};

use operations::Answer;
use values::{Kind, Value};

mod cards;
pub mod cells;
pub mod conversions;
mod listing;
mod lists;
mod replay;
mod salvage;

fn bits_of(v: Value) -> u32
    ensures { result ≡ bits_of v }
{
    match v {
        Value::Int(z) => values::patterns::pattern(z),
        Value::Real(x) => code::encoding::pattern_of(x),
    }
}

fn fill_report(a: Answer, report: &mut [u32; 7])
    ensures { report.new ≡ report_words a }
{
    let r = operations::reported(a);
    let value = r.value;
    let bits = bits_of(value);
    c_report::fill(r, bits, report);
}

#[unsafe(no_mangle)]
pub extern "C" fn formula_compile(expr: &[u8], code: &mut [u8], report: &mut [u32; 7])
    ensures report_after { report.new ≡ report_words (compile_answer (compiling (length code.old) expr.now)) }
    ensures code_after { code.new ≡ coded_bytes code.old (compiling (length code.old) expr.now) }
{
    let answer = operations::compile(expr, code);
    fill_report(answer, report);
}

#[unsafe(no_mangle)]
pub extern "C" fn formula_format(expr: &[u8], out: &mut [u8], report: &mut [u32; 7])
    ensures report_after { report.new ≡ report_words (format_answer expr.now out.old) }
    ensures out_after { out.new ≡ format_buffer expr.now out.old }
{
    let answer = formatter::format(expr, out);
    fill_report(answer, report);
}

#[unsafe(no_mangle)]
pub extern "C" fn formula_compile_target(target: &[u8], index: &mut [u8], report: &mut [u32; 7])
    ensures report_after { report.new ≡ report_words (compile_target_answer index.old target.now) }
    ensures index_after { index.new ≡ compile_target_code index.old target.now }
{
    let answer = operations::compile_target(target, index);
    fill_report(answer, report);
}

#[unsafe(no_mangle)]
pub extern "C" fn formula_check(code: &[u8], instructions: usize, report: &mut [u32; 7])
    ensures { report.new ≡ report_words (check_answer code.now instructions) }
{
    let answer = operations::check(code, instructions);
    fill_report(answer, report);
}

#[unsafe(no_mangle)]
pub extern "C" fn formula_run(
    code: &[u8],
    instructions: usize,
    memory: &mut [u8],
    target: &[u8],
    index: &[u8],
    count: usize,
    tick: u32,
    report: &mut [u32; 7],
)
    ensures report_after { report.new ≡ report_words (run_answer tick code.now instructions target.now
        index.now count memory.old) }
    ensures memory_after { memory.new ≡ run_memory tick code.now instructions target.now
        index.now count memory.old }
{
    let answer = operations::run(code, instructions, memory, target, index, count, tick);
    fill_report(answer, report);
}

#[unsafe(no_mangle)]
pub extern "C" fn formula_compile_and_run(
    target: &[u8],
    expr: &[u8],
    memory: &mut [u8],
    code: &mut [u8],
    index: &mut [u8],
    tick: u32,
    report: &mut [u32; 7],
)
    ensures report_after { report.new ≡ report_words (request_answer tick memory.old
        (request target.now expr.now memory.old code.old index.old)) }
    ensures memory_after { memory.new ≡ request_memory tick memory.old
        (request target.now expr.now memory.old code.old index.old) }
    ensures code_after { code.new ≡ request_code code.old
        (request target.now expr.now memory.old code.old index.old) }
    ensures index_after { index.new ≡ request_index index.old
        (request target.now expr.now memory.old code.old index.old) }
{
    let answer = operations::compile_and_run(target, expr, memory, code, index, tick);
    fill_report(answer, report);
}

#[unsafe(no_mangle)]
pub extern "C" fn formula_evaluate(
    code: &[u8],
    instructions: usize,
    memory: &[u8],
    tick: u32,
    report: &mut [u32; 7],
)
    ensures { report.new ≡ report_words (evaluate_answer tick code.now instructions memory.now) }
{
    let answer = operations::evaluate(code, instructions, memory, tick);
    fill_report(answer, report);
}

#[unsafe(no_mangle)]
pub extern "C" fn formula_store(
    kind: u32,
    bits: u32,
    memory: &mut [u8],
    target: &[u8],
    index: &[u8],
    count: usize,
    tick: u32,
    report: &mut [u32; 7],
)
    ensures report_after { report.new ≡ report_words (given_answer tick (given_value kind bits) target.now
        index.now count memory.old) }
    ensures memory_after { memory.new ≡ given_memory tick (given_value kind bits) target.now index.now count memory.old }
{
    let answer = operations::store(kind, bits, memory, target, index, count, tick);
    fill_report(answer, report);
}

// In the place of the C library's fmodf it makes an archive that needs no library: include/build.sh.
#[unsafe(no_mangle)]
pub extern "C" fn formula_remainder(x: f32, y: f32) -> f32
    ensures { result ≡ rem binary32 x y }
{
    remainder::remainder(x, y)
}
