// What is kept of a spoiled file of cards, for C.
ghost use Rattle.std.specs.Prelude.{◌≡◌, length};
ghost use Rattle.card_laws.specs.Formulas.{formula_answer};
ghost use Rattle.salvage_laws.specs.Salvage.{salvage};
ghost use Rattle.card_salvage.specs.Outputs.{kept_after, named_after};
ghost use Rattle.formula_c.specs.Salvage.{salvage_words};

#[unsafe(no_mangle)]
pub extern "C" fn formula_salvage(
    file: &[u8],
    kept: &mut [u8],
    named: &mut [u8],
    res: &mut [u64; 3],
)
    ensures res_after { res.new
        ≡ salvage_words (salvage formula_answer (length kept.old) (length named.old) file.now) }
    ensures kept_after { kept.new
        ≡ kept_after kept.old (salvage formula_answer (length kept.old) (length named.old) file.now) }
    ensures named_after { named.new
        ≡ named_after named.old (salvage formula_answer (length kept.old) (length named.old) file.now) }
{
    let s = card_salvage::salvage(file, kept, named);
    *res = [s.answer as u64, s.kept as u64, s.named as u64];
}
