// The code of a case's expression and of its target's index, for the programs that print something of both.
ghost use Rattle.std.specs.Prelude.{◌≡◌, MatchResult};
ghost use Rattle.program.specs.Cases.{zeros};
ghost use Rattle.program.specs.Codes.{BothCompiled, Stops};

use memory::Bank;
use operations::Answer;

// How many instructions each has, and the bank of the target.
#[derive(Clone, Copy)]
pub struct Counts {
    pub code: usize,
    pub index: usize,
    pub bank: Bank,
}

// The target comes first, as in compile-and-run.
pub fn compile_both(
    target: &[u8],
    text: &[u8],
    code: &mut [u8],
    index: &mut [u8],
) -> Result<Counts, Answer>
    requires { (code.old ≡ zeros 16384) × (index.old ≡ zeros 16384) }
    ensures { MatchResult result (BothCompiled target.now text.now code.new index.new) (Stops target.now text.now) }
{
    let found = operations::compile_target(target, index);
    let Answer::Done(_, in_index, bank, _) = found else {
        return Err(found);
    };
    let judged = operations::compile(text, code);
    let Answer::Done(_, in_code, _, _) = judged else {
        return Err(judged);
    };
    Ok(Counts {
        code: in_code,
        index: in_index,
        bank,
    })
}
