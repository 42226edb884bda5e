// A night replayed (paper 02, request 13): the name of a file of cards is the one argument, the log comes on standard input; what is printed goes to
// standard output. The log may have any length: it is read through a window.
#![tactic(auto)]

ghost use Rattle.std.specs.Prelude.{◌≡◌, ◌+◌, ◌≤◌, ◌<◌, length};
ghost use Rattle.memory.specs.Layout.{image_size};
ghost use Rattle.log_laws.specs.Replay.{line_room};
ghost use Rattle.log_lines.specs.private.Steps.{Book};
ghost use Rattle.replay.specs.private.Reads.{ReadInto};

use card_input::Stop;
use log_replay::{Pause, ReplayCursor};
use std::env::FillError;
use std::fs::File;
use std::io;
use std::io::Read;
use std::rt::{Env, Files};

// Far more bytes than can be read: the loop ends, and a place fits 64 bits.
const MOST_READ: u64 = 4611686018427387904;

// What a read of the log came to.
#[derive(Clone, Copy)]
enum Got {
    Bytes(usize),
    End,
    Failed,
}

// Into the window, behind the bytes held.
fn read_more<R: Read>(log: &mut R, window: &mut [u8], held: usize) -> Got
    requires { held ≤ length window.old }
    ensures { ReadInto held (length window.old) result }
{
    let Ok(n) = log.read(&mut window[held..]) else {
        return Got::Failed;
    };
    if n == 0 {
        return Got::End;
    }
    Got::Bytes(n)
}

// So many bytes of a buffer.
fn show(rt: &impl Print, out: &[u8], n: usize) -> io::Result<()> {
    if n <= out.len() {
        rt.write_all(&out[..n])?;
    }
    Ok(())
}

// Turns of the window, until the log has ended, a line was bad or a read failed.
fn replay_log<R: Read>(
    rt: &impl Print,
    log: &mut R,
    cards: &[u8],
    read: &[u32; 323],
    window: &mut [u8],
    memory: &mut [u8],
    out: &mut [u8],
) -> io::Result<()>
    requires book { Book cards.now read.now }
    requires window_len { (length window.old ≡ 65536) × (length memory.old ≡ image_size) × (line_room ≤ length out.old) }
{
    let mut cursor = ReplayCursor { at: 0, tick: 0 };
    let mut held: usize = 0;
    let mut last = false;
    while cursor.at < MOST_READ {
        let t = log_window::turn(cards, read, window, held, last, cursor, memory, out);
        let r = t.replayed;
        show(rt, out, r.written)?;
        cursor = r.cursor;
        held = t.held;
        let pause = r.pause;
        match pause {
            Pause::Full => {}
            Pause::BadLine => return Ok(()),
            Pause::End => {
                if last {
                    return Ok(());
                }
                match read_more(log, window, held) {
                    Got::Bytes(n) => held += n,
                    Got::End => last = true,
                    Got::Failed => {
                        return card_input::tell_unread(rt, cursor.at + (held as u64));
                    }
                }
            }
        }
    }
    card_input::tell_unread(rt, cursor.at + (held as u64))
}

// A refused file prints its two lines, and nothing is replayed.
fn replay_book<R: Read>(rt: &impl Print, log: &mut R, cards: &[u8]) -> io::Result<()> {
    let mut out = [0u8; 65536];
    let mut read = card_file::read::no_words();
    card_file::read::read(cards, &mut read);
    if read[0] != 0 {
        let n = log_replay::put_refused(&mut out, read[0], read[1]);
        return show(rt, &out, n);
    }
    let mut window = [0u8; 65536];
    let mut memory = program::blank_image();
    replay_log(rt, log, cards, &read, &mut window, &mut memory, &mut out)
}

fn tell_unopened(rt: &impl Print, name: &[u8]) -> io::Result<()> {
    rt.write_all(b"unopened=")?;
    rt.write_all(name)?;
    rt.write_all(b"\n")
}

// Whether there is no second argument.
fn is_only(rt: &impl Env) -> bool {
    let mut second = [0u8; 1];
    match rt.arg(2, &mut second) {
        Err(FillError::NotPresent) => true,
        _ => false,
    }
}

// A file with a name that is no UTF-8 cannot be opened.
fn open_book<R: Files>(rt: &R, name: &[u8]) -> Option<R::File> {
    let path = std::str::from_utf8(name).ok()?;
    File::open(rt, path).ok()
}

fn main(rt: HostRuntime) -> io::Result<()> {
    let mut name = card_input::file_buffer();
    let k = rt.arg(1, &mut name).unwrap_or(0);
    if !is_only(&rt) {
        return tell_unopened(&rt, &name[..k]);
    }
    let Some(mut file) = open_book(&rt, &name[..k]) else {
        return tell_unopened(&rt, &name[..k]);
    };
    let mut book = card_input::file_buffer();
    let n = inputs::read_full(&mut file, &mut book);
    match card_input::stopped_at(&mut file, n) {
        Stop::End => replay_book(&rt, &mut rt.stdin(), &book[..n]),
        Stop::Limit => card_input::tell_limit(&rt),
        Stop::Failed => tell_unopened(&rt, &name[..k]),
    }
}
