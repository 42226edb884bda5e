// Ranges of cells, as the calls of totals have them behind their parenthesis or behind a value.
ghost use Rattle.std.specs.Prelude.{◌≡◌, ◌+◌, ◌≤◌, length};
ghost use Rattle.token_table.specs.private.Table.{TokenWords};
ghost use Rattle.grammar.specs.Functions.{function_form};
ghost use Rattle.grammar.specs.Tree.{total};
ghost use Rattle.grammar.specs.Parse.{expect_range};
ghost use Rattle.draft.specs.private.Results.{read_next, read_end, read_of};
ghost use Rattle.draft.specs.private.Ranges.{function_total};
ghost use Rattle.compiler.specs.private.Reading.{Fits, ReaderAgrees, RangeFrom, Matching};

use draft::{ahead, results};
use token_table::classes;
use tokens::symbols;

// The tokens of a range.
const RANGE: usize = 4;

// range: cell , numeral ). Where it ends, or the first token that is none of it.
fn range_end(table: &[u64], at: usize) -> usize
    requires { TokenWords table.now × (at ≤ length table.now) × (length table.now ≤ 1025) }
    ensures { RangeFrom table.now at result }
{
    if token_table::class_of(token_table::word_at(table, at)) != classes::CELL {
        return at;
    }
    if !ahead::expected(table, at + 1, symbols::COMMA) {
        return at + 1;
    }
    if token_table::class_of(token_table::word_at(table, at + 2)) != classes::INTEGER {
        return at + 2;
    }
    if !ahead::expected(table, at + 3, symbols::CLOSE) {
        return at + 3;
    }
    at + RANGE
}

// The total f over a range.
pub fn totalled(table: &[u64], draft: &mut [u64], at: usize, pc: usize, f: u8) -> u64
    requires { Fits table.now at pc × (function_form f ≡ 6) }
    ensures { ReaderAgrees (λ n ts. expect_range ts (λ b i p z. total p (function_total f) b i z)) 4 table.now at pc draft.old
        draft.new (read_of result) }
{
    let end = range_end(table, at);
    if end < at + RANGE {
        return results::bad(end);
    }
    let first = token_table::word_at(table, at);
    let count = token_table::word_at(table, at + 2);
    draft::ranges::totalled(draft, f, first, count, end, pc)
}

// The total f over the cells of a range that match the value before it.
pub fn matched(table: &[u64], draft: &mut [u64], value: u64, f: u8) -> u64
    requires { Fits table.now (read_next value) (read_end value) × (function_form f ≡ 7) }
    ensures { Matching f table.now value draft.old draft.new (read_of result) }
{
    let at = results::next_of(value);
    let end = range_end(table, at);
    if end < at + RANGE {
        return results::bad(end);
    }
    let first = token_table::word_at(table, at);
    let count = token_table::word_at(table, at + 2);
    draft::ranges::matched(draft, f, first, count, end, value)
}
