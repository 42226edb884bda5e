// A night replayed in calls, for C.
ghost use Rattle.std.specs.Prelude.{◌≡◌, length};
ghost use Rattle.std.proofs.lemmas.List.Edits.{sets};
ghost use Rattle.log_laws.specs.Replay.{replay_call};
ghost use Rattle.formula_c.specs.Replay.{words_given, replay_words};

use log_replay::ReplayWords;

// The state has at, tick, done and written.
#[unsafe(no_mangle)]
pub extern "C" fn formula_replay(
    cards: &[u8],
    log: &[u8],
    memory: &mut [u8],
    out: &mut [u8],
    state: &mut [u64; 4],
)
    ensures state_after { state.new
        ≡ replay_words (replay_call cards.now log.now memory.old (length out.old)
        (words_given state.old)) }
    ensures memory_after { memory.new
        ≡ (replay_call cards.now log.now memory.old (length out.old) (words_given state.old)).memory }
    ensures out_after { out.new
        ≡ sets out.old 0
        (replay_call cards.now log.now memory.old (length out.old) (words_given state.old)).text }
{
    let words = ReplayWords {
        at: state[0],
        tick: state[1],
        done: state[2],
        written: 0,
    };
    let r = log_replay::replay(cards, log, memory, out, words);
    *state = [r.at, r.tick, r.done, r.written as u64];
}
