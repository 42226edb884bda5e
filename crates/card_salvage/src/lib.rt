// What is kept of a spoiled file of cards, and what is left out (paper 02, request 7).
#![tactic(auto)]

ghost use Rattle.std.specs.Prelude.{◌≡◌, length};
ghost use Rattle.card_laws.specs.Formulas.{formula_answer};
ghost use Rattle.salvage_laws.specs.Salvage.{salvage};
ghost use Rattle.card_salvage.specs.Outputs.{salvaged_in, kept_after, named_after};

mod answers;
mod cutting;
mod outputs;

// 0, and how many bytes of each output were written; or 10, and nothing was.
#[derive(Clone, Copy)]
pub struct Salvaged {
    pub answer: u32,
    pub kept: usize,
    pub named: usize,
}

// A refusal writes nothing: that both outputs fit is known before either is written. Parts that are measured are judged twice rather than kept,
// since there may be any number of them.
pub fn salvage(file: &[u8], kept: &mut [u8], named: &mut [u8]) -> Salvaged
    ensures value { result ≡ salvaged_in (salvage formula_answer (length kept.old) (length named.old) file.now) }
    ensures kept_after { kept.new
        ≡ kept_after kept.old (salvage formula_answer (length kept.old) (length named.old) file.now) }
    ensures named_after { named.new
        ≡ named_after named.old (salvage formula_answer (length kept.old) (length named.old) file.now) }
{
    if !outputs::fit(file, kept.len(), named.len()) {
        return Salvaged {
            answer: 10,
            kept: 0,
            named: 0,
        };
    }
    outputs::write(file, kept, named)
}
