// A list of formulas, run in turn by compile-and-run: "past their faults and refusals".
#![tactic(auto)]

ghost use Rattle.std.specs.Prelude.{◌≡◌, take, drop};
ghost use Rattle.list_laws.specs.Running.{ran_table};

// The operation's own answer, 0 or 20, and one for each place of a list.
#[derive(Clone, Copy)]
pub struct Answers {
    pub answer: u32,
    pub answers: [u32; 40],
}

const MOST_LISTED: usize = 40;

const WORDS_LISTED: usize = 4;

// A part of the lent texts: bytes beyond them are not there.
fn cut(texts: &[u8], place: u32, length: u32) -> &[u8]
    ensures { result.now ≡ take length (drop place texts.now) }
{
    let rest = &texts[texts.len().min(place as usize)..];
    &rest[..rest.len().min(length as usize)]
}

// Four words a formula: place and length of its target, place and length of its expression.
pub fn run_list(
    places: &[u32],
    texts: &[u8],
    memory: &mut [u8],
    code: &mut [u8],
    index_code: &mut [u8],
    tick: u32,
) -> Answers
    ensures answer_value { result.answer ≡ (ran_table tick places.now texts.now memory.old code.old
        index_code.old).answer }
    ensures answers_value { result.answers ≡ (ran_table tick places.now texts.now memory.old code.old
        index_code.old).answers }
    ensures memory_after { memory.new ≡ (ran_table tick places.now texts.now memory.old code.old
        index_code.old).buffers.memory }
    ensures code_after { code.new ≡ (ran_table tick places.now texts.now memory.old code.old
        index_code.old).buffers.code }
    ensures index_code_after { index_code.new ≡ (ran_table tick places.now texts.now memory.old code.old
        index_code.old).buffers.index }
{
    let mut answers = [0; MOST_LISTED];
    let count = places.len() / WORDS_LISTED;
    if MOST_LISTED < count {
        return Answers {
            answer: 20,
            answers,
        };
    }
    for k in 0..count {
        let words = &places[WORDS_LISTED * k..];
        let target = cut(texts, words[0], words[1]);
        let text = cut(texts, words[2], words[3]);
        let answer = operations::compile_and_run(target, text, memory, code, index_code, tick);
        answers[k] = operations::reported(answer).answer;
    }
    Answers { answer: 0, answers }
}
