// Writing a file of cards. A refused file leaves the lent buffer as it was, so cards are measured and judged before any is put.
#![tactic(auto)]

ghost use Rattle.std.specs.Prelude.{◌≡◌, ◌+◌, ◌≤◌, leb, length, get_or};
ghost use Rattle.lines.specs.private.Steps.{Puts};
ghost use Rattle.card_laws.specs.Cards.{card, checked_lines, card_bytes, cards_bytes};
ghost use Rattle.std.proofs.lemmas.List.Edits.{sets};
ghost use Rattle.card_laws.specs.Lines.{lacks};
ghost use Rattle.card_laws.specs.Writing.{written_bytes, card_verdict};
ghost use Rattle.card_laws.specs.Formulas.{formula_answer};
ghost use Rattle.card_write.specs.Given.{part, writing, written_in};
ghost use Rattle.card_write.specs.private.Places.{cards_of, judged_cards};

use card_file::{check, judging};
use lines::printing;

// Answer, place, and how many bytes were written.
#[derive(Clone, Copy)]
pub struct Written {
    pub answer: u32,
    pub place: u32,
    pub length: u32,
}

// A card as the caller gives it: its number, its target and its expression.
#[derive(Clone, Copy)]
struct Given<'a> {
    number: u32,
    target: &'a [u8],
    expr: &'a [u8],
}

// Answer and place, how many bytes the cards have, and how many of them are to be put: all, or none. One call of `put_cards` follows on either way.
#[derive(Clone, Copy)]
struct Judged {
    answer: u32,
    place: u32,
    length: u32,
    cards: usize,
}

// A card has its keys, line ends and check besides its number and its texts.
const CARD_FRAME: usize = 32;

// Bytes beyond the texts are not there.
fn part(texts: &[u8], at: u32, size: u32) -> &[u8]
    ensures { result.now ≡ part texts.now at size }
{
    let rest = &texts[(at as usize).min(texts.len())..];
    &rest[..(size as usize).min(rest.len())]
}

// The card of five words.
fn card_of<'a>(texts: &'a [u8], words: &[u32; 5]) -> Given<'a>
    ensures number { result.number ≡ get_or words.now 0 0 }
    ensures target { result.target.now ≡ part texts.now (get_or words.now 1 0) (get_or words.now 2 0) }
    ensures expr { result.expr.now ≡ part texts.now (get_or words.now 3 0) (get_or words.now 4 0) }
{
    let [number, target, target_size, expr, expr_size] = *words;
    Given {
        number,
        target: part(texts, target, target_size),
        expr: part(texts, expr, expr_size),
    }
}

// Whether the cards' bytes fit: what is left of the room is counted down, so that no size is too large a number.
fn fits(texts: &[u8], cards: &[[u32; 5]], room: usize) -> bool
    ensures { result ≡ leb (length (cards_bytes (cards_of texts.now cards.now))) room }
{
    let mut left = room;
    for words in cards {
        let card = card_of(texts, words);
        let frame = CARD_FRAME + printing::width_of(card.number as u64);
        let target = card.target.len();
        let expr = card.expr.len();
        if left < frame {
            return false;
        }
        if left - frame < target {
            return false;
        }
        if left - frame - target < expr {
            return false;
        }
        left = left - frame - target - expr;
    }
    true
}

// Whether a text lacks the line end.
fn is_line(text: &[u8]) -> bool
    ensures { result ≡ lacks 10 text.now }
{
    lines::until(text, b'\n') == text.len()
}

// "16 .. (in writing, also a byte 10 in a text) .., 18 a card number repeated or falling, in that order; then the formula's own number"
fn card_verdict(number: u32, target: &[u8], expr: &[u8], last: u32) -> Result<(), u32>
    ensures { result ≡ card_verdict formula_answer last (card number target.now expr.now) }
{
    if !is_line(target) {
        return Err(16);
    }
    if !is_line(expr) {
        return Err(16);
    }
    if number == 0 {
        return Err(16);
    }
    if 64 < number {
        return Err(16);
    }
    if number <= last {
        return Err(18);
    }
    judging::formula_verdict(target, expr)
}

fn judge_cards(texts: &[u8], cards: &[[u32; 5]]) -> Judged
    ensures { result ≡ judged_cards texts.now cards.now }
{
    let mut at: usize = 0;
    let mut last: u32 = 0;
    for k in 0..cards.len() {
        let card = card_of(texts, &cards[k]);
        if let Err(answer) = card_verdict(card.number, card.target, card.expr, last) {
            return Judged {
                answer,
                place: at as u32,
                length: 0,
                cards: 0,
            };
        }
        let width = printing::width_of(card.number as u64);
        at = at + CARD_FRAME + width + card.target.len() + card.expr.len();
        last = card.number;
    }
    Judged {
        answer: 0,
        place: 0,
        length: at as u32,
        cards: cards.len(),
    }
}

// The two lines that are checked.
fn put_lines(out: &mut [u8], at: usize, target: &[u8], expr: &[u8]) -> usize
    requires { at + 14 + length target.now + length expr.now ≤ length out.old }
    ensures { Puts out.old at out.new result (checked_lines target.now expr.now) }
{
    let a = printing::put_all(out, at, b"target=");
    let b = printing::put_all(out, a, target);
    let c = printing::put_all(out, b, b"\nexpr=");
    let d = printing::put_all(out, c, expr);
    printing::put_all(out, d, b"\n")
}

fn put_card(out: &mut [u8], at: usize, number: u32, target: &[u8], expr: &[u8]) -> usize
    requires { at + length (card_bytes (card number target.now expr.now)) ≤ length out.old }
    ensures { Puts out.old at out.new result (card_bytes (card number target.now expr.now)) }
{
    let a = printing::put_all(out, at, b"card=");
    let b = printing::put_decimal(out, a, number as u64);
    let lines = printing::put_all(out, b, b"\n");
    let end = put_lines(out, lines, target, expr);
    let digits = check::digits_of(check::sum_of(&out[lines..end]));
    let c = printing::put_all(out, end, b"check=");
    let d = printing::put_all(out, c, &digits);
    printing::put_all(out, d, b"\n")
}

fn put_cards(texts: &[u8], cards: &[[u32; 5]], out: &mut [u8])
    requires { length (cards_bytes (cards_of texts.now cards.now)) ≤ length out.old }
    ensures { out.new ≡ sets out.old 0 (cards_bytes (cards_of texts.now cards.now)) }
{
    let mut at = 0;
    for words in cards {
        let card = card_of(texts, words);
        at = put_card(out, at, card.number, card.target, card.expr);
    }
}

// Five words a card, as reading leaves them, of texts that may stand anywhere; words behind the last whole five are not looked at.
pub fn write(texts: &[u8], cards: &[u32], out: &mut [u8]) -> Written
    ensures value { result ≡ written_in (writing texts.now cards.now out.old) }
    ensures out_after { out.new ≡ written_bytes out.old (writing texts.now cards.now out.old) }
{
    let (cards, _) = cards.as_chunks::<5>();
    if !fits(texts, cards, out.len()) {
        return Written {
            answer: 10,
            place: 0,
            length: 0,
        };
    }
    let judged = judge_cards(texts, cards);
    put_cards(texts, &cards[..judged.cards], out);
    Written {
        answer: judged.answer,
        place: judged.place,
        length: judged.length,
    }
}
