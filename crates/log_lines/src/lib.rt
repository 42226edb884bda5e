// What one line of a log does (paper 02, request 13): a change of a cell, a tick, a run of a card.
#![tactic(auto)]

ghost use Rattle.std.specs.Prelude.{◌≡◌, [], ◌++◌, suc, ◌+◌, ◌≤◌, length, take};
ghost use Rattle.memory.specs.Layout.{image_size};
ghost use Rattle.words.specs.Ascii.{ascii};
ghost use Rattle.lines.specs.Printing.{decimal_text};
ghost use Rattle.lines.specs.private.Steps.{Puts};
ghost use Rattle.card_laws.specs.Lines.{ended, to_end};
ghost use Rattle.log_laws.specs.Log.{log_entry_of};
ghost use Rattle.log_laws.specs.Replay.{card_of, after_run, line_room};
ghost use Rattle.log_lines.specs.private.Steps.{entry_in, EntryInside, Book, cards_in, state_in, Finds, Goes, TakesEntry};

use crate::entry::Entry;
use lines::printing;
use program::{reply, stream};

pub mod entry;

// More bytes than a line prints.
pub const LINE_ROOM: usize = 64;

// After a good line: the tick, and where what was printed ends.
#[derive(Clone, Copy)]
pub struct Step {
    pub tick: u32,
    pub end: usize,
}

// The first of the words of the card with a number, if the file has it.
fn find_card(cards: &[u8], read: &[u32; 323], k: u32) -> Option<usize>
    requires { Book cards.now read.now }
    ensures { Finds cards.now read.now (card_of k (cards_in cards.now)) result }
{
    let count = read[2] as usize;
    for card in 0..count {
        let p = 3 + 5 * card;
        if read[p] == k {
            return Some(p);
        }
    }
    None
}

fn put_unknown(bytes: &mut [u8], k: u32) -> usize
    requires { line_room ≤ length bytes.old }
    ensures puts { Puts bytes.old 0 bytes.new result (ended (ascii "unknown=" ++ decimal_text k) []) }
    ensures upper_bound { result ≤ line_room }
{
    let a = printing::put_all(bytes, 0, b"unknown=");
    let b = printing::put_decimal(bytes, a, k as u64);
    printing::put_all(bytes, b, b"\n")
}

// Every run compiles its card anew.
fn run_card(
    cards: &[u8],
    read: &[u32; 323],
    k: u32,
    tick: u32,
    memory: &mut [u8],
    bytes: &mut [u8],
) -> usize
    requires book { Book cards.now read.now }
    requires memory_len { (length memory.old ≡ image_size) × (line_room ≤ length bytes.old) }
    ensures { Goes (after_run k (state_in memory.old tick) (card_of k (cards_in cards.now))) memory.new tick
        bytes.old 0 bytes.new result }
{
    let Some(p) = find_card(cards, read, k) else {
        return put_unknown(bytes, k);
    };
    let target = read[p + 1] as usize;
    let target_end = target + (read[p + 2] as usize);
    let expr = read[p + 3] as usize;
    let expr_end = expr + (read[p + 4] as usize);
    let mut code = stream::blank_code();
    let mut index = stream::blank_code();
    let answer = operations::compile_and_run(
        &cards[target..target_end],
        &cards[expr..expr_end],
        memory,
        &mut code,
        &mut index,
        tick,
    );
    reply::put_reply(bytes, answer, memory)
}

// Of the line at the front of a log, which ends at k.
pub fn entry_at(rest: &[u8], k: usize) -> Option<Entry>
    requires { k ≡ to_end rest.now }
    ensures value { result ≡ entry_in (log_entry_of (take (suc k) rest.now)) }
    ensures entry_inside { EntryInside result }
{
    if rest.len() <= k {
        return None;
    }
    entry::entry_of(&rest[..k])
}

pub fn take_line(
    cards: &[u8],
    read: &[u32; 323],
    entry: Option<Entry>,
    tick: u32,
    memory: &mut [u8],
    out: &mut [u8],
    at: usize,
) -> Option<Step>
    requires book { Book cards.now read.now }
    requires memory_len { (length memory.old ≡ image_size) × (at + line_room ≤ length out.old) × EntryInside entry }
    ensures { TakesEntry (cards_in cards.now) entry memory.old tick memory.new out.old at
        out.new result }
{
    let entry = entry?;
    match entry {
        Entry::Change(bank, element, n) => {
            memory::cells::put(memory, bank, element, n);
            Some(Step { tick, end: at })
        }
        Entry::Tick(t) => Some(Step { tick: t, end: at }),
        Entry::Run(k) => {
            let mut bytes = [0u8; LINE_ROOM];
            let m = run_card(cards, read, k, tick, memory, &mut bytes);
            let end = printing::put_all(out, at, &bytes[..m]);
            Some(Step { tick, end })
        }
    }
}
