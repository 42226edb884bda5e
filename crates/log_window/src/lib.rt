// A log of any length, read through a window (paper 02, request 13): which of its bytes are played, and which are kept.
#![tactic(auto)]

ghost use Rattle.std.specs.Prelude.{◌≡◌, ◌+◌, ◌^◌, ◌≤◌, ◌<◌, length, take, drop};
ghost use Rattle.memory.specs.Layout.{image_size};
ghost use Rattle.lines.specs.private.Steps.{Puts};
ghost use Rattle.log_laws.specs.Replay.{line_room};
ghost use Rattle.log_laws.specs.Window.{through_last_end, playable};
ghost use Rattle.log_laws.specs.Window.{turn as Window·turn};
ghost use Rattle.log_lines.specs.private.Steps.{Book, cards_in, state_in};
ghost use Rattle.log_window.specs.Turns.{TurnGives, TurnInside};

use log_replay::{ReplayCursor, Replayed};

// What was played, and how many bytes of the window are held.
#[derive(Clone, Copy)]
pub struct Turned {
    pub replayed: Replayed,
    pub held: usize,
}

// How many bytes stand up to the last line end, and with it.
fn through_last_end(bytes: &[u8]) -> usize
    ensures { result ≡ through_last_end bytes.now }
{
    for k in (0..bytes.len()).rev() {
        if bytes[k] == b'\n' {
            return k + 1;
        }
    }
    0
}

// How many of the bytes held are played; `last`: a read has answered 0.
fn playable_bytes(held: &[u8], size: usize, last: bool) -> usize
    ensures { result ≡ playable size last held.now }
{
    if last {
        return held.len();
    }
    let n = through_last_end(held);
    if 0 < n {
        return n;
    }
    if held.len() < size { 0 } else { held.len() }
}

// The bytes of a window from a place on, up to an end, go to its front.
fn keep(window: &mut [u8], from: usize, end: usize) -> usize
    requires { (from ≤ end) × (end ≤ length window.old) }
    ensures { Puts window.old 0 window.new result (drop from (take end window.old)) }
{
    window.copy_within(from..end, 0);
    end - from
}

// The lines whose end stands in the window are played, as far as there is room for what they print; the rest goes to its front. The caller writes out what
// was printed, and goes on: after Full with the same bytes, after End with a further read.
pub fn turn(
    cards: &[u8],
    read: &[u32; 323],
    window: &mut [u8],
    held: usize,
    last: bool,
    cursor: ReplayCursor,
    memory: &mut [u8],
    out: &mut [u8],
) -> Turned
    requires book { Book cards.now read.now }
    requires memory_len { (length memory.old ≡ image_size) × (line_room ≤ length out.old) × (held ≤ length window.old) × (cursor.at + held < 2 ^ 64) }
    ensures turn_gives { TurnGives
        (Window·turn (cards_in cards.now) (length window.old) (length out.old) last
        (state_in memory.old cursor.tick) cursor.at (take held window.old))
        cursor.at (take held window.old) memory.new out.old out.new window.old
        window.new result }
    ensures turn_inside { TurnInside cursor held (length out.old) result }
{
    let size = window.len();
    let n = playable_bytes(&window[..held], size, last);
    let r = log_replay::replay_lines(cards, read, &window[..n], cursor, memory, out);
    let taken = (r.cursor.at - cursor.at) as usize;
    let kept = keep(window, taken, held);
    Turned {
        replayed: r,
        held: kept,
    }
}
