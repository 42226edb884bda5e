// Lists of formulas, for C: a result is 41 words, the operation's own answer and the forty.
ghost use Rattle.std.specs.Prelude.{◌≡◌, ◌∷◌, length};
ghost use Rattle.list_laws.specs.Running.{most_listed, ran_table};
ghost use Rattle.formula_c.specs.Lists.{list_words};

use run_list::Answers;

fn fill_answers(r: Answers, res: &mut [u32; 41])
    requires { length r.answers ≡ most_listed }
    ensures { res.new ≡ r.answer ∷ r.answers }
{
    let answers = r.answers;
    let mut words = [r.answer; 41];
    let mut i = 0;
    while i < 40 {
        words[i + 1] = answers[i];
        i += 1;
    }
    *res = words;
}

#[unsafe(no_mangle)]
pub extern "C" fn formula_run_list(
    places: &[u32],
    texts: &[u8],
    memory: &mut [u8],
    code: &mut [u8],
    index: &mut [u8],
    tick: u32,
    res: &mut [u32; 41],
)
    ensures res_after { res.new ≡ list_words (ran_table tick places.now texts.now memory.old code.old
        index.old) }
    ensures memory_after { memory.new ≡ (ran_table tick places.now texts.now memory.old code.old
        index.old).buffers.memory }
    ensures code_after { code.new ≡ (ran_table tick places.now texts.now memory.old code.old
        index.old).buffers.code }
    ensures index_after { index.new ≡ (ran_table tick places.now texts.now memory.old code.old
        index.old).buffers.index }
{
    let answers = run_list::run_list(places, texts, memory, code, index, tick);
    fill_answers(answers, res);
}
