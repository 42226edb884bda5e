// The judgement of a card: its form, its check, its number, and the formula.
ghost use Rattle.std.specs.Prelude.{◌≡◌, ltb};
ghost use Rattle.card_laws.specs.Cards.{card_form};
ghost use Rattle.card_laws.specs.Reading.{judged};
ghost use Rattle.card_laws.specs.Formulas.{formula_answer};
ghost use Rattle.card_file.specs.Spans.{spans, places_in, is_target};

use crate::check;
use crate::form::{FourLines, TO_CHECK, TO_EXPR};

fn is_target(text: &[u8]) -> bool
    ensures { result ≡ is_target text.now }
{
    targets::judge(text).is_some()
}

// "the formula's own number, target included"
pub fn formula_verdict(target: &[u8], expr: &[u8]) -> Result<(), u32>
    ensures { result ≡ formula_answer target.now expr.now }
{
    if !is_target(target) {
        return Err(2);
    }
    match compiler::judge(expr) {
        Ok(_) => Ok(()),
        Err(refusal) => Err(refusal.answer),
    }
}

fn rises(last: u32, number: u32) -> bool
    ensures { result ≡ ltb last number }
{
    last < number
}

// A text whose form has been looked for, behind a card with the number `last`: where the lines of a good card stand.
pub fn judged(s: &[u8], last: u32, f: Option<FourLines>) -> Result<FourLines, u32>
    requires { f ≡ spans (card_form s.now) }
    ensures { result ≡ places_in (judged formula_answer last (card_form s.now)) }
{
    let Some(f) = f else {
        return Err(16);
    };
    let target = f.target;
    let target_end = f.expr - TO_EXPR;
    let expr = f.expr;
    let expr_end = f.check - TO_CHECK;
    let lines = target - 7;
    let lines_end = expr_end + 1;
    let digits = check::digits_of(check::sum_of(&s[lines..lines_end]));
    let from = f.check;
    let to = from + 5;
    let same = tokens::identifiers::same_bytes(&s[from..to], &digits);
    let above = rises(last, f.number);
    if !same {
        return Err(17);
    }
    if !above {
        return Err(18);
    }
    formula_verdict(&s[target..target_end], &s[expr..expr_end])?;
    Ok(f)
}
