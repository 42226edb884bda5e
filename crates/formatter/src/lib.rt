// A formula's text as it is saved: written out from its tree, with parentheses where operators are mixed.
#![tactic(auto)]

ghost use Rattle.std.specs.Prelude.{◌≡◌, List, ℕ, ◌≤◌, ◌<◌, length};
ghost use Rattle.token_table.specs.private.Table.{TokenWords};
ghost use Rattle.grammar.specs.Tree.{Tree};
ghost use Rattle.text.specs.Judge.{accepted, judge};
ghost use Rattle.format_laws.specs.Formatted.{formatted, open_behind, levels};
ghost use Rattle.format_laws.specs.Format.{text_limit, of_text, answer_of, buffer_after, format_answer, format_buffer};
ghost use Rattle.format_writer.specs.private.Scratch.{Holds, Counted};
ghost use Rattle.formatter.specs.private.Walk.{Accepted};

use lines::printing;
use memory::Bank;
use operations::Answer;
use values::Value;

mod walk;

// The least size of a buffer for the text, and the longest text.
pub const LEAST_OUT: usize = 1024;

const LONGEST: usize = 1024;

const MOST_OPEN: usize = 8;

// How many brackets are open behind a byte.
fn open_behind(depth: usize, b: u8) -> usize
    requires { depth < 65536 }
    ensures { result ≡ open_behind depth b }
{
    match b {
        b'(' | b'[' => depth + 1,
        b')' | b']' => depth.saturating_sub(1),
        _ => depth,
    }
}

// The most brackets open at once.
fn levels(text: &[u8]) -> usize
    requires { length text.now ≤ 1024 }
    ensures { result ≡ levels text.now }
{
    let mut most: usize = 0;
    let mut depth: usize = 0;
    for b in text {
        depth = open_behind(depth, *b);
        most = most.max(depth);
    }
    most
}

// The text of an accepted formula, written with a table lent for its tokens: its length.
fn write(text: &[u8], table: &mut [u64], out: &mut [u8]) -> usize
    requires text_len_bound { (length text.now ≤ 1024) × (length text.now < length table.old) × TokenWords table.old }
    requires accepted { Accepted text.now }
    ensures counted { Counted result out.old }
    ensures holds { (t : Tree) → judge text.now ≡ accepted t → Holds (formatted text.now t) out.new result }
{
    match token_table::fill(text, table) {
        Ok(()) => walk::formula(text, table, out),
        Err(_) => 0,
    }
}

// The same of a text below N bytes, with a table of so many words.
fn write_within<const N: usize>(text: &[u8], out: &mut [u8]) -> usize
    requires accepted { Accepted text.now }
    requires text_len_bound { (length text.now < N) × (N ≤ 1025) }
    ensures counted { Counted result out.old }
    ensures holds { (t : Tree) → judge text.now ≡ accepted t → Holds (formatted text.now t) out.new result }
{
    let mut table = [0u64; N];
    write(text, &mut table, out)
}

// Most formulas are short: a small table is quicker to clear.
fn written(text: &[u8], out: &mut [u8]) -> usize
    requires { Accepted text.now }
    ensures counted { Counted result out.old }
    ensures holds { (t : Tree) → judge text.now ≡ accepted t → Holds (formatted text.now t) out.new result }
{
    if text.len() < 64 {
        return write_within::<64>(text, out);
    }
    write_within::<1025>(text, out)
}

// The answer for a text whose first n bytes are in the scratch.
fn finish(scratch: &[u8], n: usize, out: &mut [u8]) -> Answer
    requires { (length scratch.now ≡ text_limit) × (text_limit ≤ length out.old) × Counted n scratch.now }
    ensures { (x : List ℕ) → Holds x scratch.now n
        → (result ≡ answer_of (of_text x)) × (out.new ≡ buffer_after out.old (of_text x)) }
{
    if LONGEST < n {
        return Answer::Refused(3, 0);
    }
    let whole = &scratch[..n];
    if MOST_OPEN < levels(whole) {
        return Answer::Refused(8, 0);
    }
    printing::put_all(out, 0, whole);
    Answer::Done(Value::Int(0), n, Bank::X, 0)
}

pub fn format(text: &[u8], out: &mut [u8]) -> Answer
    ensures value { result ≡ format_answer text.now out.old }
    ensures out_after { out.new ≡ format_buffer text.now out.old }
{
    match compiler::judge(text) {
        Err(refusal) => Answer::Refused(refusal.answer, refusal.place),
        Ok(_) => {
            if out.len() < LEAST_OUT {
                return Answer::Refused(10, 0);
            }
            let mut scratch = [0u8; LONGEST];
            let n = written(text, &mut scratch);
            finish(&scratch, n, out)
        }
    }
}
