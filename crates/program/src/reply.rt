// The text of a reply, put into a slice that is long enough.
ghost use Rattle.std.specs.Prelude.{◌≡◌, ◌+◌, ◌≤◌, T, length};
ghost use Rattle.memory.specs.Layout.{image_size, has_cell};
ghost use Rattle.lines.specs.private.Steps.{Puts};
ghost use Rattle.program.specs.Reply.{report_text, cell_line, answer_text, CellInside, write_text, written_length, HasPrefix};
ghost use Rattle.program.specs.Stream.{Replies};

use crate::stream;
use lines::printing;
use memory::Bank;
use operations::{Answer, Report};

// The program's runs have no clock.
const PROGRAM_TICK: u32 = 0;

// The first two lines.
pub fn put_report(out: &mut [u8], report: Report) -> usize
    requires { 45 ≤ length out.old }
    ensures puts { Puts out.old 0 out.new result (report_text report) }
    ensures upper_bound { result ≤ 45 }
{
    let answer = report.answer as u64;
    let place = report.place as u64;
    let a = printing::put_all(out, 0, b"answer=");
    let b = printing::put_decimal(out, a, answer);
    let c = printing::put_all(out, b, b"\nplace=");
    let d = printing::put_decimal(out, c, place);
    printing::put_all(out, d, b"\n")
}

fn put_cell(out: &mut [u8], at: usize, memory: &[u8], bank: Bank, element: u32) -> usize
    requires t { T (has_cell memory.now bank element) }
    requires at_in_bounds { at + 17 ≤ length out.old }
    ensures puts { Puts out.old at out.new result (cell_line memory.now bank element) }
    ensures upper_bound { result ≤ at + 17 }
{
    let n = memory::cells::get(memory, bank, element);
    let a = printing::put_name(out, at, bank, element);
    let b = printing::put_all(out, a, b"=");
    let c = printing::put_value(out, b, bank, n as u64);
    printing::put_all(out, c, b"\n")
}

// After answer 0 the cell is shown as it is after the store.
pub fn put_reply(out: &mut [u8], answer: Answer, memory: &[u8]) -> usize
    requires memory_len { length memory.now ≡ image_size }
    requires cell_inside { CellInside answer }
    requires in_bounds { 64 ≤ length out.old }
    ensures puts { Puts out.old 0 out.new result (answer_text memory.now answer) }
    ensures upper_bound { result ≤ 64 }
{
    let at = put_report(out, operations::reported(answer));
    match answer {
        Answer::Done(_, _, bank, element) => put_cell(out, at, memory, bank, element),
        Answer::Fault(_, _) => at,
        Answer::Refused(_, _) => at,
    }
}

// The bytes, if there is room for all of them.
pub fn write_text(bytes: &[u8], output: &mut [u8]) -> usize
    ensures value { result ≡ written_length output.old bytes.now }
    ensures output_after { output.new ≡ write_text output.old bytes.now }
    ensures has_prefix { HasPrefix result output.new }
{
    if output.len() < bytes.len() {
        return 0;
    }
    printing::put_all(output, 0, bytes)
}

// The reply to a case, which is worked out on its memory.
pub fn write_reply(memory: &mut [u8], target: &[u8], text: &[u8], output: &mut [u8]) -> usize
    requires { length memory.old ≡ image_size }
    ensures { Replies (record { memory = memory.entry.now; target = target.now; text = text.now })
        output.old result output.new }
{
    let mut code = stream::blank_code();
    let mut index = stream::blank_code();
    let answer = operations::compile_and_run(
        target,
        text,
        memory,
        &mut code,
        &mut index,
        PROGRAM_TICK,
    );
    let mut bytes = [0u8; 64];
    let n = put_reply(&mut bytes, answer, memory);
    write_text(&bytes[..n], output)
}
