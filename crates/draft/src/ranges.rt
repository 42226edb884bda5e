// Instructions over a range of cells. Its words are those of the first cell and of the count's numeral.
ghost use Rattle.std.specs.Prelude.{◌≡◌, ◌+◌, ◌<◌};
ghost use Rattle.totals.specs.Totals.{total_kind, match_kind};
ghost use Rattle.token_table.specs.private.Table.{word_operand, word_number};
ghost use Rattle.grammar.specs.Functions.{function_form};
ghost use Rattle.grammar.specs.Tree.{earlier};
ghost use Rattle.code.specs.declared.Instr.TheVariants.{Total, Match};
ghost use Rattle.code.specs.Encode.{join_range};
ghost use Rattle.draft.specs.private.Results.{Done, diagnosed, read_end, read_wrong, read_of};
ghost use Rattle.draft.specs.private.Draft.{put_instr};
ghost use Rattle.draft.specs.private.Ranges.{function_total, function_match, cell_bank, CellWord, range_span, range_wrong};

use crate::{diagnostics, results};
use code::{MATCH, TOTAL};
use grammar::functions;
use memory::numbers;
use totals::{ranges, tables};

// The word of an instruction over the range.
fn range_word(first: u64, count: u64) -> u32
    requires { CellWord first }
    ensures { result ≡ join_range (word_operand first) (word_number first) (range_span first count) }
{
    let bank = token_table::operand_of(first) as u32;
    let element = token_table::number_of(first);
    let elements = numbers::bank_elements(bank);
    let span = ranges::span_of(elements, element, token_table::number_of(count));
    code::range_word(bank, element, span)
}

// What is wrong with the range.
fn range_wrong(first: u64, count: u64) -> u64
    requires { CellWord first }
    ensures result_value { diagnosed result ≡ range_wrong first count }
    ensures upper_bound { result < 536870912 }
{
    let elements = numbers::bank_elements(token_table::operand_of(first) as u32);
    let element = token_table::number_of(first);
    let good = ranges::is_within(elements, element, token_table::number_of(count));
    diagnostics::wrong_count(good, count)
}

// A total over the range, which ends before the token `next`.
pub fn totalled(draft: &mut [u64], f: u8, first: u64, count: u64, next: usize, pc: usize) -> u64
    requires { (function_form f ≡ 6) × CellWord first × (next < 65536) × (pc < 65535) }
    ensures result_value { read_of result ≡ Done next (pc + 1) (total_kind (function_total f) (cell_bank first)) (range_wrong first count) }
    ensures draft_after { draft.new ≡ put_instr draft.old pc
        (Total (function_total f) (cell_bank first) (word_number first) (range_span first count)) }
{
    let op = functions::operator(f) as u32;
    crate::put(draft, pc, TOTAL + op, range_word(first, count));
    let kind = tables::total_kind(op, token_table::operand_of(first) as u32);
    results::done(next, pc + 1, kind, range_wrong(first, count))
}

// A total over the cells of the range that match a value, which was read before it.
pub fn matched(draft: &mut [u64], f: u8, first: u64, count: u64, next: usize, value: u64) -> u64
    requires { (function_form f ≡ 7) × CellWord first × (next < 65536) × (read_end value < 65535) }
    ensures result_value { read_of result ≡ Done next (read_end value + 1) (match_kind (function_match f) (cell_bank first))
        (earlier (range_wrong first count) (read_wrong value)) }
    ensures draft_after { draft.new ≡ put_instr draft.old (read_end value)
        (Match (function_match f) (cell_bank first) (word_number first) (range_span first count)) }
{
    let op = functions::operator(f) as u32;
    let pc = results::end_of(value);
    crate::put(draft, pc, MATCH + op, range_word(first, count));
    let kind = tables::match_kind(op, token_table::operand_of(first) as u32);
    let wrong = diagnostics::earlier(range_wrong(first, count), results::wrong_of(value));
    results::done(next, pc + 1, kind, wrong)
}
