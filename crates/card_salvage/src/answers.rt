// The answer to a part: it is kept as a card with its number, or left out with a refusal.
ghost use Rattle.std.specs.Prelude.{◌≡◌};
ghost use Rattle.card_laws.specs.Formulas.{formula_answer};
ghost use Rattle.salvage_laws.specs.Salvage.{part_answer};
ghost use Rattle.card_salvage.specs.private.Steps.{answer_in};

use card_file::{form, judging};

// "a part with anything beyond its four lines is 16 too"
pub fn part_answer(part: &[u8], last: u32) -> Result<u32, u32>
    ensures { result ≡ answer_in (part_answer formula_answer last part.now) }
{
    let Some(f) = form::card_form(part) else {
        return Err(16);
    };
    if f.end != part.len() {
        return Err(16);
    }
    let card = judging::judged(part, last, Some(f))?;
    Ok(card.number)
}
