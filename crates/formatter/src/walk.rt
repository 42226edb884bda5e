// A walk over the table of an accepted text's tokens, which writes the formula's text. Recursion goes as deep as brackets nest, times the groups of
// operators; a chain of operators is a loop. A part is written bare, and its caller encloses it if it must. No refusal is left: the text was judged before.
ghost use Rattle.std.specs.Prelude.{List, ◌++◌, ℕ};
ghost use Rattle.tokens.specs.Scan.{Tok};
ghost use Rattle.words.specs.Ascii.{ascii};
ghost use Rattle.token_table.specs.private.Table.{word_operand, word_place, tokens_from};
ghost use Rattle.grammar.specs.Symbols.{loosest};
ghost use Rattle.draft.specs.private.Words.{Signs};
ghost use Rattle.format_laws.specs.Formatted.{lexeme, parenthesized, is_infix, is_other_infix};
ghost use Rattle.format_writer.specs.private.Scratch.{Holds, Counted, StartsBehind};
ghost use Rattle.format_writer.specs.private.Spelling.{StandsAt};
ghost use Rattle.formatter.specs.private.Walk.{Position, SaysExpression, SaysOperand, SaysPrimary, SaysList, Some, Formats, WritesSigns};

use draft::ahead;
use format_writer::{scratch, spelling};
use token_table::classes;
use tokens::symbols;

const LOOSEST: u8 = 11;

// What was written of a part of the formula: the first token behind it, the end of its text, and the group of the operator at its top, or 0.
#[derive(Clone, Copy)]
pub struct Piece {
    pub next: usize,
    pub end: usize,
    pub top: u8,
}

// A token as it is typed, by its word.
fn token(text: &[u8], out: &mut [u8], n: usize, w: u64) -> usize
    requires { Counted n out.old × StandsAt text.now (word_place w) (word_operand w) }
    ensures counted { Counted result out.old }
    ensures by_index { (o : List ℕ) → Holds o out.old n → Holds (o ++ lexeme text.now (word_place w)) out.new result }
{
    let at = token_table::place_of(w);
    let end = spelling::token_end(text, at, token_table::operand_of(w));
    scratch::put_all(out, n, &text[at..end])
}

// The unary operators from `at` up to `first`.
fn signs(text: &[u8], table: &[u64], out: &mut [u8], at: usize, first: usize, n: usize) -> usize
    requires { Position text.now table.now at × Signs table.now at first × Counted n out.old }
    ensures { WritesSigns text.now table.now at first out.old out.new n result }
{
    let mut end = n;
    for i in at..first {
        end = token(text, out, end, token_table::word_at(table, i));
    }
    end
}

// What was written from `start` on, in parentheses if it has an operator at its top.
fn operand_end(out: &mut [u8], start: usize, end: usize, top: u8) -> usize
    requires { Counted end out.old }
    ensures counted { Counted result out.old }
    ensures by_index { (o x : List ℕ) → StartsBehind o out.old start → Holds (o ++ x) out.old end
        → Holds (o ++ parenthesized (is_infix top) x) out.new result }
{
    if top == 0 {
        return end;
    }
    scratch::enclose(out, start, end)
}

// The same of a left operand, before an operator of the group g.
fn left_end(out: &mut [u8], start: usize, end: usize, top: u8, g: u8) -> usize
    requires { Counted end out.old }
    ensures counted { Counted result out.old }
    ensures by_index { (o x : List ℕ) → StartsBehind o out.old start → Holds (o ++ x) out.old end
        → Holds (o ++ parenthesized (is_other_infix g top) x) out.new result }
{
    if top == g {
        return end;
    }
    operand_end(out, start, end, top)
}

// A binary operator, by its word.
fn operator(text: &[u8], out: &mut [u8], n: usize, w: u64) -> usize
    requires { Counted n out.old × StandsAt text.now (word_place w) (word_operand w) }
    ensures counted { Counted result out.old }
    ensures by_index { (o : List ℕ) → Holds o out.old n → Holds (o ++ (ascii " " ++ (lexeme text.now (word_place w) ++ ascii " ")))
        out.new result }
{
    let before = scratch::put(out, n, b' ');
    let end = token(text, out, before, w);
    scratch::put(out, end, b' ')
}

// expression: operand { infix expression of a tighter group }
#[cycle(walk)]
fn expression(text: &[u8], table: &[u64], out: &mut [u8], at: usize, n: usize, level: u8) -> Piece
    requires { Position text.now table.now at × Counted n out.old × Some (SaysExpression level text.now (tokens_from table.now at)) }
    ensures { Formats (SaysExpression level text.now (tokens_from table.now at)) text.now
        table.now at out.old out.new n result.next result.end result.top }
{
    let mut left = operand(text, table, out, at, n);
    loop {
        let j = left.next;
        let w = token_table::word_at(table, j);
        let g = ahead::group_in(w);
        if g == 0 {
            return left;
        }
        if level < g {
            return left;
        }
        let end = left_end(out, n, left.end, left.top, g);
        let start = operator(text, out, end, w);
        let right = expression(text, table, out, j + 1, start, g - 1);
        left = Piece {
            next: right.next,
            end: operand_end(out, start, right.end, right.top),
            top: g,
        };
    }
}

// operand: { - | ~ | ! } primary
#[cycle(walk)]
fn operand(text: &[u8], table: &[u64], out: &mut [u8], at: usize, n: usize) -> Piece
    requires { Position text.now table.now at × Counted n out.old × Some (SaysOperand text.now (tokens_from table.now at)) }
    ensures { Formats (SaysOperand text.now (tokens_from table.now at)) text.now
        table.now at out.old out.new n result.next result.end result.top }
{
    let first = ahead::signs_end(table, at);
    let start = signs(text, table, out, at, first, n);
    let inner = primary(text, table, out, first, start);
    if first == at {
        return inner;
    }
    Piece {
        next: inner.next,
        end: operand_end(out, start, inner.end, inner.top),
        top: 0,
    }
}

// primary: number | cell | letter [ expression ] | name ( arguments ) | ( expression )
#[cycle(walk)]
fn primary(text: &[u8], table: &[u64], out: &mut [u8], at: usize, n: usize) -> Piece
    requires { Position text.now table.now at × Counted n out.old × Some (SaysPrimary text.now (tokens_from table.now at)) }
    ensures { Formats (SaysPrimary text.now (tokens_from table.now at)) text.now
        table.now at out.old out.new n result.next result.end result.top }
{
    let w = token_table::word_at(table, at);
    let class = token_table::class_of(w);
    if class == classes::SYMBOL {
        let inner = expression(text, table, out, at + 1, n, LOOSEST);
        return Piece {
            next: inner.next + 1,
            end: inner.end,
            top: inner.top,
        };
    }
    let end = token(text, out, n, w);
    if class < classes::LETTER {
        return Piece {
            next: at + 1,
            end,
            top: 0,
        };
    }
    let start = token(text, out, end, token_table::word_at(table, at + 1));
    list(text, table, out, at + 2, start)
}

// list: [ expression { , expression } ] closer. The cell and the count of a range are expressions too.
#[cycle(walk)]
fn list(text: &[u8], table: &[u64], out: &mut [u8], at: usize, n: usize) -> Piece
    requires { Position text.now table.now at × Counted n out.old × Some (SaysList text.now (tokens_from table.now at)) }
    ensures { Formats (SaysList text.now (tokens_from table.now at)) text.now
        table.now at out.old out.new n result.next result.end result.top }
{
    let first = token_table::word_at(table, at);
    if ahead::expected(table, at, symbols::CLOSE) {
        return Piece {
            next: at + 1,
            end: token(text, out, n, first),
            top: 0,
        };
    }
    let mut item = expression(text, table, out, at, n, LOOSEST);
    while ahead::expected(table, item.next, symbols::COMMA) {
        let start = scratch::put_all(out, item.end, b", ");
        item = expression(text, table, out, item.next + 1, start, LOOSEST);
    }
    Piece {
        next: item.next + 1,
        end: token(text, out, item.end, token_table::word_at(table, item.next)),
        top: 0,
    }
}

// The whole of an accepted text, whose tokens are in the table: the length of what is written.
pub fn formula(text: &[u8], table: &[u64], out: &mut [u8]) -> usize
    requires { Position text.now table.now 0 × Some (SaysExpression loosest text.now (tokens_from table.now 0)) }
    ensures counted { Counted result out.old }
    ensures by_index { (x : List ℕ) (g : ℕ) (q : List Tok) → SaysExpression loosest text.now (tokens_from table.now 0) x g q
        → Holds x out.new result }
{
    let whole = expression(text, table, out, 0, 0, LOOSEST);
    whole.end
}
