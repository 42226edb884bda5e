// Replaying a night (paper 02, request 13): the lines of a log, played with a file of cards.
#![tactic(auto)]

ghost use Rattle.std.specs.Prelude.{◌≡◌, ◌+◌, ◌^◌, ◌≤◌, ◌<◌, length, drop};
ghost use Rattle.memory.specs.Layout.{image_size};
ghost use Rattle.lines.specs.private.Steps.{Puts};
ghost use Rattle.log_laws.specs.Replay.{refusal_lines, replay_from, lent, line_room, after_replay, replay_call};
ghost use Rattle.log_lines.specs.private.Steps.{Book, cards_in, state_in};
ghost use Rattle.log_replay.specs.private.Steps.{done_in, state_from};
ghost use Rattle.log_replay.specs.Replays.{Plays, call_words, CallGives};

use lines::printing;
use log_lines::LINE_ROOM;
use operations::Answer;
use program::reply;

// The answer of a bad line.
const BAD_LINE: u32 = 16;

// The byte of the log that is next, and the tick.
#[derive(Clone, Copy)]
pub struct ReplayCursor {
    pub at: u64,
    pub tick: u32,
}

// No room for a further line; the end of what is lent; a bad line.
#[derive(Clone, Copy)]
pub enum Pause {
    Full,
    End,
    BadLine,
}

#[derive(Clone, Copy)]
pub struct Replayed {
    pub cursor: ReplayCursor,
    pub pause: Pause,
    pub written: usize,
}

// The two lines of a refusal.
fn put_refusal(out: &mut [u8], at: usize, answer: u32, place: u64) -> usize
    requires { at + line_room ≤ length out.old }
    ensures { Puts out.old at out.new result (refusal_lines answer place) }
{
    let mut bytes = [0u8; LINE_ROOM];
    let m = reply::put_report(
        &mut bytes,
        operations::reported(Answer::Refused(answer, place as usize)),
    );
    printing::put_all(out, at, &bytes[..m])
}

// The lines from the cursor on, while each has its bytes: what a run prints is known only after it has changed the memory.
pub fn replay_lines(
    cards: &[u8],
    read: &[u32; 323],
    rest: &[u8],
    cursor: ReplayCursor,
    memory: &mut [u8],
    out: &mut [u8],
) -> Replayed
    requires book { Book cards.now read.now }
    requires memory_len { (length memory.old ≡ image_size) × (cursor.at + length rest.now < 2 ^ 64) }
    ensures { Plays
        (replay_from (cards_in cards.now) (lent (length out.old)) (state_in memory.old cursor.tick) cursor.at
        rest.now)
        memory.new out.old out.new result }
{
    let mut from = 0;
    let mut tick = cursor.tick;
    let mut end = 0;
    while from < rest.len() {
        let at = cursor.at + (from as u64);
        if out.len() - end < LINE_ROOM {
            return Replayed {
                cursor: ReplayCursor { at, tick },
                pause: Pause::Full,
                written: end,
            };
        }
        let line = &rest[from..];
        let k = lines::until(line, b'\n');
        match log_lines::take_line(
            cards,
            read,
            log_lines::entry_at(line, k),
            tick,
            memory,
            out,
            end,
        ) {
            Some(step) => {
                tick = step.tick;
                end = step.end;
                from += k + 1;
            }
            None => {
                let last = put_refusal(out, end, BAD_LINE, at);
                return Replayed {
                    cursor: ReplayCursor { at, tick },
                    pause: Pause::BadLine,
                    written: last,
                };
            }
        }
    }
    Replayed {
        cursor: ReplayCursor {
            at: cursor.at + (from as u64),
            tick,
        },
        pause: Pause::End,
        written: end,
    }
}

// Of a call: the byte of the log that is next, the tick, whether the replay is over, and how many bytes were written.
#[derive(Clone, Copy)]
pub struct ReplayWords {
    pub at: u64,
    pub tick: u64,
    pub done: u64,
    pub written: usize,
}

fn over(pause: Pause) -> u64
    ensures { result ≡ done_in pause }
{
    match pause {
        Pause::Full => 0,
        Pause::End | Pause::BadLine => 1,
    }
}

// Where no line was taken yet the image is zeros and the tick 0, whatever the caller has there.
fn begin(memory: &mut [u8], at: u64, tick: u64) -> u32
    requires { length memory.old ≡ image_size }
    ensures { state_in memory.new result ≡ state_from memory.old at tick }
{
    if at == 0 {
        let zeros = program::blank_image();
        printing::put_all(memory, 0, &zeros);
        return 0;
    }
    (tick % 4294967296) as u32
}

// The lines of a call that reaches them.
fn play(
    cards: &[u8],
    read: &[u32; 323],
    log: &[u8],
    memory: &mut [u8],
    out: &mut [u8],
    words: ReplayWords,
) -> ReplayWords
    requires book { Book cards.now read.now }
    requires memory_len { length memory.old ≡ image_size }
    ensures { CallGives
        (after_replay (replay_from (cards_in cards.now) (lent (length out.old))
        (state_from memory.old words.at words.tick) words.at (drop words.at log.now)))
        memory.new out.old out.new result }
{
    let tick = begin(memory, words.at, words.tick);
    let from = words.at.min(log.len() as u64) as usize;
    let cursor = ReplayCursor { at: words.at, tick };
    let r = replay_lines(cards, read, &log[from..], cursor, memory, out);
    let pause = r.pause;
    ReplayWords {
        at: r.cursor.at,
        tick: r.cursor.tick as u64,
        done: over(pause),
        written: r.written,
    }
}

// The two lines of a call that replays nothing.
pub fn put_refused(out: &mut [u8], answer: u32, place: u32) -> usize
    requires { line_room ≤ length out.old }
    ensures { Puts out.old 0 out.new result (refusal_lines answer place) }
{
    put_refusal(out, 0, answer, place as u64)
}

fn done_with(words: ReplayWords, written: usize) -> ReplayWords
    ensures { (result.at ≡ words.at) × (result.tick ≡ words.tick) × (result.done ≡ 1) × (result.written ≡ written) }
{
    ReplayWords {
        at: words.at,
        tick: words.tick,
        done: 1,
        written,
    }
}

// One call: over already; too few bytes lent; a memory of another size; a refused file; then the lines.
pub fn replay(
    cards: &[u8],
    log: &[u8],
    memory: &mut [u8],
    out: &mut [u8],
    words: ReplayWords,
) -> ReplayWords
    ensures { CallGives (replay_call cards.now log.now memory.old (length out.old) (call_words words))
        memory.new out.old out.new result }
{
    if words.done != 0 {
        return done_with(words, 0);
    }
    if out.len() < LINE_ROOM {
        return ReplayWords {
            at: words.at,
            tick: words.tick,
            done: words.done,
            written: 0,
        };
    }
    if memory.len() != memory::IMAGE_SIZE {
        let written = put_refused(out, 1, 0);
        return done_with(words, written);
    }
    let mut read = card_file::read::no_words();
    card_file::read::read(cards, &mut read);
    if read[0] != 0 {
        let written = put_refused(out, read[0], read[1]);
        return done_with(words, written);
    }
    play(cards, &read, log, memory, out, words)
}
