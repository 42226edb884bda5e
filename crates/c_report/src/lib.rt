// The words of a report for C. The caller gives the value's pattern: the one of a real takes a comparison of floats, which the library without reals
// may not hold.
#![tactic(auto)]

ghost use Rattle.std.specs.Prelude.{◌≡◌, ◌%◌, ◌^◌};
ghost use Rattle.operations.specs.Operations.{kind_word};
ghost use Rattle.c_report.specs.Words.{words_with};

use operations::Report;
use values::Value;

fn kind_number(v: Value) -> u32
    ensures { result ≡ kind_word v }
{
    match v {
        Value::Int(_) => 0,
        Value::Real(_) => 1,
    }
}

// Cut on purpose: a word of a report has 32 bits.
pub fn low(n: usize) -> u32
    ensures { result ≡ n % 2 ^ 32 }
{
    (n % 4294967296) as u32
}

pub fn fill(r: Report, bits: u32, report: &mut [u32; 7])
    ensures { report.new ≡ words_with r bits }
{
    let value = r.value;
    let place = low(r.place);
    let count = low(r.count);
    let bank = r.bank;
    let number = u8::from(bank) as u32;
    *report = [
        r.answer,
        place,
        kind_number(value),
        bits,
        count,
        number,
        r.element,
    ];
}
