// One pass over a table of tokens: the grammar, the nesting, the kinds and the code. No tree is built. Recursion goes as deep as brackets nest, times the
// groups of operators; a chain of operators, unary or binary, is a loop. The code goes into a draft, since a text may be refused at its last token. Each
// function takes the position in the table, `at`, and the place in the draft, `pc`, and `room` for so many brackets more.
ghost use Rattle.std.specs.Prelude.{◌≡◌, true, List, ℕ, ◌+◌, ◌-◌, ◌<◌, ◌≤◌, length};
ghost use Rattle.tokens.specs.Words.{function_at};
ghost use Rattle.token_table.specs.private.Table.{word_operand, word_place, listed};
ghost use Rattle.grammar.specs.Tree.{tick};
ghost use Rattle.grammar.specs.Functions.{function_form};
ghost use Rattle.grammar.specs.Symbols.{loosest, close_paren};
ghost use Rattle.grammar.specs.Parse.{ok, expect, most_open, enter, expression, operand, bracket, parse_from};
ghost use Rattle.text.specs.Judge.{judge_parse};
ghost use Rattle.draft.specs.private.Results.{is_done, read_next, read_end, read_of};
ghost use Rattle.draft.specs.private.Words.{Signs, is_alone};
ghost use Rattle.draft.specs.private.Draft.{Unaries};
ghost use Rattle.compiler.specs.private.Reading.{Fits, ReaderAgrees, primary_of, then_symbol, call_of, Arguing, Branches, Judged};

use draft::diagnostics::CLEAR;
use draft::{ahead, diagnostics, results};
use grammar::functions;
use token_table::{Refusal, classes};
use tokens::symbols;

mod ranges;

// "more than eight open" is refused
const MOST_OPEN: u8 = 8;

const LOOSEST: u8 = 11;

// The unary operators from `at` up to `first`, the last of them first, behind their operand.
fn signed(table: &[u64], draft: &mut [u64], at: usize, first: usize, inner: u64) -> u64
    requires signs { Signs table.now at first }
    requires inner_value { is_done (read_of inner) ≡ true }
    requires first_bound { read_end inner + first < 65000 + at }
    ensures { Unaries table.now first draft.old (read_of inner) at draft.new (read_of result) }
{
    let mut read = inner;
    for i in (at..first).rev() {
        read = draft::prefixed(draft, token_table::word_at(table, i), read);
    }
    read
}

// The parenthesis behind no arguments: the tick.
fn clock(table: &[u64], draft: &mut [u64], at: usize, pc: usize) -> u64
    requires { Fits table.now at pc }
    ensures { ReaderAgrees (λ n ts. expect close_paren ts (λ q. ok tick q)) 4 table.now at pc draft.old draft.new
        (read_of result) }
{
    if ahead::expected(table, at, symbols::CLOSE) {
        return draft::ticked(draft, at + 1, pc);
    }
    results::bad(at)
}

// A number or a cell that is the whole right side of an operator of the group g: what `expression` reads there, whatever the room.
fn alone(table: &[u64], draft: &mut [u64], at: usize, pc: usize, g: u8) -> u64
    requires { Fits table.now at pc × (is_alone table.now at g ≡ true) × (1 ≤ g) }
    ensures by_index { (room : ℕ) → ReaderAgrees (λ f ts. expression f room (g - 1) ts) 3 table.now at pc draft.old draft.new
        (read_of result) }
    ensures result_value { is_done (read_of result) ≡ true }
{
    draft::leaf(draft, token_table::word_at(table, at), at, pc)
}

// expression: operand { infix expression of a tighter group }. Most right sides are a number or a cell alone: they need no further call. A slice that is
// passed on as it came is copied in one load of what was stored in two halves, for which a processor waits; `&table[..]` is made of its halves.
#[cycle(reader)]
fn expression(table: &[u64], draft: &mut [u64], at: usize, pc: usize, room: u8, level: u8) -> u64
    requires { Fits table.now at pc }
    ensures { ReaderAgrees (λ f ts. expression f room level ts) 3 table.now at pc draft.old draft.new (read_of result) }
{
    let mut left = operand(table, draft, at, pc, room);
    if !results::is_done(left) {
        return left;
    }
    loop {
        let j = results::next_of(left);
        let w = token_table::word_at(table, j);
        let g = ahead::group_in(w);
        if g == 0 {
            return left;
        }
        if level < g {
            return left;
        }
        let place = results::end_of(left) + draft::reserve(token_table::operand_of(w));
        if ahead::is_alone(table, j + 1, g) {
            let right = alone(table, draft, j + 1, place, g);
            left = draft::joined(draft, w, left, right);
        } else {
            let right = expression(&table[..], draft, j + 1, place, room, g - 1);
            if !results::is_done(right) {
                return right;
            }
            // read anew, so that it need not be kept on the stack over the call
            let operator = token_table::word_at(table, j);
            left = draft::joined(draft, operator, left, right);
        }
    }
}

// operand: { - | ~ | ! } primary. Most operands are numbers and cells: they need no further call.
#[cycle(reader)]
fn operand(table: &[u64], draft: &mut [u64], at: usize, pc: usize, room: u8) -> u64
    requires { Fits table.now at pc }
    ensures { ReaderAgrees (λ f ts. operand f room ts) 2 table.now at pc draft.old draft.new (read_of result) }
{
    let w = token_table::word_at(table, at);
    if ahead::is_leaf(w) {
        return draft::leaf(draft, w, at, pc);
    }
    let first = ahead::signs_end(table, at);
    let inner = primary(table, draft, first, pc, room);
    if !results::is_done(inner) {
        return inner;
    }
    signed(table, draft, at, first, inner)
}

// primary: number | cell | letter [ expression ] | name ( arguments ) | ( expression )
#[cycle(reader)]
fn primary(table: &[u64], draft: &mut [u64], at: usize, pc: usize, room: u8) -> u64
    requires { Fits table.now at pc }
    ensures { ReaderAgrees (λ f ts. primary_of f room ts) 1 table.now at pc draft.old draft.new (read_of result) }
{
    let w = token_table::word_at(table, at);
    let n = token_table::operand_of(w);
    match token_table::class_of(w) {
        classes::NONE => results::bad(at),
        classes::LETTER => {
            let open = symbols::OPEN_INDEX;
            let index = bracket(table, draft, at + 1, pc, room, open, symbols::CLOSE_INDEX);
            if !results::is_done(index) {
                return index;
            }
            draft::loaded(draft, n, index)
        }
        classes::NAME => call(table, draft, at + 1, pc, room, w),
        classes::SYMBOL => bracket(table, draft, at, pc, room, symbols::OPEN, symbols::CLOSE),
        _ => draft::leaf(draft, w, at, pc),
    }
}

// enclosed: expression closer. An argument, or what a bracket encloses, with the symbol behind it.
#[cycle(reader)]
fn enclosed(table: &[u64], draft: &mut [u64], at: usize, pc: usize, room: u8, closer: u8) -> u64
    requires { Fits table.now at pc }
    ensures { ReaderAgrees (λ f ts. then_symbol closer (expression f room loosest ts)) 3 table.now at pc draft.old
        draft.new (read_of result) }
{
    let inner = expression(table, draft, at, pc, room, LOOSEST);
    if !results::is_done(inner) {
        return inner;
    }
    let j = results::next_of(inner);
    if ahead::expected(table, j, closer) {
        return results::past(inner);
    }
    results::bad(j)
}

// bracket: open expression close
#[cycle(reader)]
fn bracket(
    table: &[u64],
    draft: &mut [u64],
    at: usize,
    pc: usize,
    room: u8,
    opener: u8,
    closer: u8,
) -> u64
    requires { Fits table.now at pc }
    ensures { ReaderAgrees (λ f ts. enter room opener ts (λ e q. bracket f e closer q)) 0 table.now at pc draft.old
        draft.new (read_of result) }
{
    if !ahead::expected(table, at, opener) {
        return results::bad(at);
    }
    if room == 0 {
        return results::deep(at);
    }
    enclosed(table, draft, at + 1, pc, room - 1, closer)
}

// call: ( arguments ), of the function whose word is w
#[cycle(reader)]
fn call(table: &[u64], draft: &mut [u64], at: usize, pc: usize, room: u8, w: u64) -> u64
    requires { Fits table.now at pc }
    ensures { ReaderAgrees (λ n ts. call_of (function_at (word_operand w)) (word_place w) room n ts) 0 table.now at pc draft.old
        draft.new (read_of result) }
{
    if !ahead::expected(table, at, symbols::OPEN) {
        return results::bad(at);
    }
    if room == 0 {
        return results::deep(at);
    }
    arguments(table, draft, at, pc, room - 1, w)
}

// pair: expression , expression )
#[cycle(reader)]
fn pair(table: &[u64], draft: &mut [u64], opener: usize, pc: usize, room: u8, w: u64) -> u64
    requires { Fits table.now opener pc × (opener < length table.now) × (function_form (word_operand w) ≡ 2) }
    ensures { Arguing w room table.now opener pc draft.old draft.new (read_of result) }
{
    let first = enclosed(table, draft, opener + 1, pc, room, symbols::COMMA);
    if !results::is_done(first) {
        return first;
    }
    let next = results::next_of(first);
    let end = results::end_of(first);
    let last = enclosed(table, draft, next, end, room, symbols::CLOSE);
    if !results::is_done(last) {
        return last;
    }
    draft::paired(draft, token_table::operand_of(w), first, last)
}

// arguments: [ expression { , expression } ] ) | range | expression , range, behind the parenthesis at `opener`, and what the function makes of them
#[cycle(reader)]
fn arguments(table: &[u64], draft: &mut [u64], opener: usize, pc: usize, room: u8, w: u64) -> u64
    requires { Fits table.now opener pc × (opener < length table.now) }
    ensures { Arguing w room table.now opener pc draft.old draft.new (read_of result) }
{
    let f = token_table::operand_of(w);
    let at = opener + 1;
    match functions::form(f) {
        functions::OF_ONE => {
            let only = enclosed(table, draft, at, pc, room, symbols::CLOSE);
            if !results::is_done(only) {
                return only;
            }
            draft::applied(draft, f, only)
        }
        functions::OF_TWO => pair(table, draft, opener, pc, room, w),
        functions::OF_SINCE => {
            let only = enclosed(table, draft, at, pc, room, symbols::CLOSE);
            if !results::is_done(only) {
                return only;
            }
            draft::since(draft, w, only)
        }
        functions::CLOCK => clock(table, draft, at, pc),
        functions::RANGED => ranges::totalled(table, draft, at, pc, f),
        functions::MATCHED => {
            let value = enclosed(table, draft, at, pc, room, symbols::COMMA);
            if !results::is_done(value) {
                return value;
            }
            ranges::matched(table, draft, value, f)
        }
        _ => {
            let condition = enclosed(table, draft, at, pc, room, symbols::COMMA);
            if !results::is_done(condition) {
                return condition;
            }
            branches(table, draft, condition, room)
        }
    }
}

// The branches of IF behind its condition: only one of them runs.
#[cycle(reader)]
fn branches(table: &[u64], draft: &mut [u64], condition: u64, room: u8) -> u64
    requires { Fits table.now (read_next condition) (read_end condition + 4) }
    ensures { Branches room table.now condition draft.old draft.new (read_of result) }
{
    let next = results::next_of(condition);
    let end = results::end_of(condition);
    let first = enclosed(table, draft, next, end + 1, room, symbols::COMMA);
    if !results::is_done(first) {
        return first;
    }
    draft::decided(draft, condition, first);
    let j = results::next_of(first);
    let k = results::end_of(first);
    let second = enclosed(table, draft, j, k + 1, room, symbols::CLOSE);
    if !results::is_done(second) {
        return second;
    }
    draft::chosen(draft, condition, first, second)
}

// How many brackets may be opened behind so many that are open.
fn room_behind(opened: u8) -> u8
    ensures { result ≡ most_open - opened }
{
    MOST_OPEN.saturating_sub(opened)
}

// The whole table, of a text of `size` bytes behind so many open brackets: an expression, and nothing after it.
pub fn formula(table: &[u64], draft: &mut [u64], size: usize, opened: u8) -> Result<usize, Refusal>
    requires { Fits table.now 0 0 }
    ensures { (s : List ℕ) → length s ≡ size → Judged (judge_parse s (parse_from opened (listed table.now))) draft.old
        draft.new result }
{
    let whole = expression(table, draft, 0, 0, room_behind(opened), LOOSEST);
    let at = results::next_of(whole);
    if !results::is_done(whole) {
        return Err(Refusal {
            answer: results::refusal_of(whole),
            place: ahead::place_at(table, at, size),
        });
    }
    let w = token_table::word_at(table, at);
    if token_table::class_of(w) != classes::NONE {
        return Err(Refusal {
            answer: 7,
            place: token_table::place_of(w),
        });
    }
    let wrong = results::wrong_of(whole);
    if wrong < CLEAR {
        return Err(Refusal {
            answer: diagnostics::answer_part(wrong),
            place: diagnostics::place_part(wrong),
        });
    }
    Ok(results::end_of(whole))
}
