// Files of cards for C: a result is 323 words, five words a card.
ghost use Rattle.std.specs.Prelude.{◌≡◌};
ghost use Rattle.card_laws.specs.Reading.{read_cards};
ghost use Rattle.card_laws.specs.Writing.{written_bytes};
ghost use Rattle.card_laws.specs.Formulas.{formula_answer};
ghost use Rattle.card_file.specs.Words.{read_words};
ghost use Rattle.card_write.specs.Given.{writing};
ghost use Rattle.formula_c.specs.Cards.{written_words};

#[unsafe(no_mangle)]
pub extern "C" fn formula_cards_read(file: &[u8], res: &mut [u32; 323])
    ensures { res.new ≡ read_words (read_cards formula_answer file.now) }
{
    card_file::read::read(file, res);
}

#[unsafe(no_mangle)]
pub extern "C" fn formula_cards_write(
    texts: &[u8],
    cards: &[u32],
    out: &mut [u8],
    res: &mut [u32; 3],
)
    ensures res_after { res.new ≡ written_words (writing texts.now cards.now out.old) }
    ensures out_after { out.new ≡ written_bytes out.old (writing texts.now cards.now out.old) }
{
    let w = card_write::write(texts, cards, out);
    *res = [w.answer, w.place, w.length];
}
