// Files of cards and logs in turn, each of which ends at a byte 30: each log is replayed with the file before it, on a memory of ones, in calls of
// so many bytes until it is done; printed are what each call writes, and its words. tests/host/expected/replay.rs has what is expected.
#![tactic(auto)]

ghost use Rattle.std.specs.Prelude.{◌≡◌, ◌≤◌, length};

use log_replay::ReplayWords;
use std::io;

const END: u8 = 30;

const ROOM: usize = 4096;

const CALLS: usize = 64;

// The ensures gives only the length: the list of dots would be written out in every step of a proof.
fn dots() -> [u8; ROOM]
    ensures { 4096 ≡ length result }
{
    [b'.'; ROOM]
}

// A file of cards, and the log that is replayed with it.
#[derive(Clone, Copy)]
struct Night<'a> {
    cards: &'a [u8],
    log: &'a [u8],
}

fn tell(rt: &impl Print, w: ReplayWords) -> io::Result<()> {
    println!(rt; "call {} {} {} {}", w.at, w.tick, w.done, w.written)
}

// So many bytes of a buffer.
fn show(rt: &impl Print, buffer: &[u8], n: usize) -> io::Result<()> {
    if let Some(part) = buffer.get(..n) {
        rt.write_all(part)?;
    }
    Ok(())
}

impl<'a> Night<'a> {
    fn call(self, memory: &mut [u8], out: &mut [u8], room: usize, words: ReplayWords) -> ReplayWords
        requires { room ≤ length out.old }
    {
        log_replay::replay(self.cards, self.log, memory, &mut out[..room], words)
    }

    // Calls that each write into the beginning of a buffer of dots, until the replay is done.
    fn in_calls(self, rt: &impl Print, room: usize) -> io::Result<()>
        requires { room ≤ 4096 }
    {
        let mut memory = [255u8; memory::IMAGE_SIZE];
        let mut words = ReplayWords {
            at: 0,
            tick: 0,
            done: 0,
            written: 0,
        };
        for _ in 0..CALLS {
            if words.done != 0 {
                break;
            }
            let mut out = dots();
            words = self.call(&mut memory, &mut out, room, words);
            show(rt, &out, words.written)?;
            tell(rt, words)?;
        }
        Ok(())
    }

    // A memory a byte short, too few bytes lent, a replay that is done, and one that begins beyond the log with a tick of more than 32 bits.
    fn ends(self, rt: &impl Print) -> io::Result<()> {
        let mut short = [255u8; memory::IMAGE_SIZE - 1];
        let mut memory = [255u8; memory::IMAGE_SIZE];
        let far = ReplayWords {
            at: 18446744073709551615,
            tick: 4294967303,
            done: 0,
            written: 7,
        };
        let done = ReplayWords {
            at: 5,
            tick: 4294967303,
            done: 9,
            written: 7,
        };
        let mut out = dots();
        tell(rt, self.call(&mut short, &mut out, 64, far))?;
        show(rt, &out, 66)?;
        tell(rt, self.call(&mut memory, &mut out, 63, far))?;
        show(rt, &out, 66)?;
        tell(rt, self.call(&mut memory, &mut out, 64, done))?;
        tell(rt, self.call(&mut memory, &mut out, 64, far))?;
        show(rt, &out, 66)
    }
}

fn one_night(rt: &impl Print, cards: &[u8], log: &[u8]) -> io::Result<()> {
    let night = Night { cards, log };
    night.in_calls(rt, 4096)?;
    night.in_calls(rt, 64)?;
    night.in_calls(rt, 65)?;
    night.ends(rt)
}

fn without_end(part: &[u8]) -> &[u8] {
    part.strip_suffix(&[END]).unwrap_or(part)
}

// A file behind which the input ends has an empty log.
fn every_night(rt: &impl Print, input: &[u8]) -> io::Result<()> {
    let mut file = None;
    for part in input.split_inclusive(|b| *b == END) {
        match file.take() {
            None => file = Some(without_end(part)),
            Some(cards) => one_night(rt, cards, without_end(part))?,
        }
    }
    match file {
        None => Ok(()),
        Some(cards) => one_night(rt, cards, b""),
    }
}

fn main(rt: HostRuntime) -> io::Result<()> {
    let mut input = [0u8; 32768];
    let n = inputs::read_full(&mut rt.stdin(), &mut input);
    every_night(&rt, &input[..n])
}
