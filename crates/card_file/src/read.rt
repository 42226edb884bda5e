// Reading a file of cards.
ghost use Rattle.std.specs.Prelude.{◌≡◌, ◌+◌, ◌-◌, ◌≤◌, length, replicate};
ghost use Rattle.lines.specs.private.Steps.{Puts};
ghost use Rattle.card_laws.specs.Reading.{bad, read_cards};
ghost use Rattle.card_laws.specs.Formulas.{formula_answer};
ghost use Rattle.card_file.specs.Words.{span_words, read_words, SmallSpans};

use crate::form::{FourLines, TO_CHECK, TO_EXPR};
use crate::{form, judging};

// Answer, place and count, then five words for each of 64 cards.
pub const READ_WORDS: usize = 323;

// The zeros come from a function: its contract names the list, which a literal would write out in every step of the proofs below.
pub fn no_words() -> [u32; READ_WORDS]
    ensures { (323 ≡ length result) × (result ≡ replicate 323 0) }
{
    [0; READ_WORDS]
}

fn refused_words(answer: u32, place: u32) -> [u32; READ_WORDS]
    ensures { result ≡ read_words (bad answer place) }
{
    let mut words = no_words();
    words[0] = answer;
    words[1] = place;
    words
}

// The words of the card that stands at a place of the file, put into the table; what stands behind them.
fn put_card(words: &mut [u32], to: usize, at: u32, f: FourLines) -> usize
    requires to_in_bounds { to + 5 ≤ length words.old }
    requires small_spans { SmallSpans at f }
    ensures { Puts words.old to words.new result (span_words at f) }
{
    words[to] = f.number;
    words[to + 1] = at + (f.target as u32);
    words[to + 2] = (f.expr - TO_EXPR - f.target) as u32;
    words[to + 3] = at + (f.expr as u32);
    words[to + 4] = (f.check - TO_CHECK - f.expr) as u32;
    to + 5
}

// Answer, place, count, and of a good file five words a card: its number, and where its target and its expression stand in the file, each with its length.
pub fn read(file: &[u8], res: &mut [u32; READ_WORDS])
    ensures { res.new ≡ read_words (read_cards formula_answer file.now) }
{
    let mut words = no_words();
    let mut at = 0;
    let mut to = 3;
    let mut last: u32 = 0;
    let mut count: u32 = 0;
    while at < file.len() {
        let rest = &file[at..];
        let f = match judging::judged(rest, last, form::card_form(rest)) {
            Ok(f) => f,
            Err(answer) => {
                *res = refused_words(answer, at as u32);
                return;
            }
        };
        to = put_card(&mut words, to, at as u32, f);
        last = f.number;
        count += 1;
        at += f.end;
    }
    words[2] = count;
    *res = words;
}
