// What the program `cards` prints of a file: three lines, and two more of a refused file, for whoever stands before it.
#![tactic(auto)]

ghost use Rattle.std.specs.Prelude.{◌≡◌, ◌+◌, ◌≤◌, length};
ghost use Rattle.lines.specs.private.Steps.{Puts};
ghost use Rattle.card_laws.specs.Reading.{read_cards};
ghost use Rattle.card_laws.specs.Formulas.{formula_answer};
ghost use Rattle.card_file.specs.Words.{read_words};
ghost use Rattle.card_reply.specs.Reply.{result_lines, card_text, refused_lines, reply_text};

use card_file::{form, read};
use lines::printing;

fn put_result(out: &mut [u8], answer: u32, place: u32, count: u32) -> usize
    requires { 52 ≤ length out.old }
    ensures puts { Puts out.old 0 out.new result (result_lines answer place count) }
    ensures upper_bound { result ≤ 52 }
{
    let a = printing::put_all(out, 0, b"answer=");
    let b = printing::put_decimal(out, a, answer as u64);
    let c = printing::put_all(out, b, b"\nplace=");
    let d = printing::put_decimal(out, c, place as u64);
    let e = printing::put_all(out, d, b"\ncards=");
    let f = printing::put_decimal(out, e, count as u64);
    printing::put_all(out, f, b"\n")
}

// The number in the first line of a card; nothing where that line has not its form.
fn put_number(out: &mut [u8], at: usize, card: &[u8]) -> usize
    requires { at + 16 ≤ length out.old }
    ensures puts { Puts out.old at out.new result (card_text card.now) }
    ensures upper_bound { result ≤ at + 16 }
{
    let n = form::line_number(card);
    if n == 0 {
        return at;
    }
    let a = printing::put_all(out, at, b"card=");
    let b = printing::put_decimal(out, a, n as u64);
    printing::put_all(out, b, b"\n")
}

fn put_refused(out: &mut [u8], at: usize, card: &[u8], answer: u32) -> usize
    requires { at + 70 ≤ length out.old }
    ensures puts { Puts out.old at out.new result (refused_lines card.now answer) }
    ensures upper_bound { result ≤ at + 70 }
{
    let a = put_number(out, at, card);
    let b = printing::put_all(out, a, b"words=");
    let c = answer_words::put(out, b, answer);
    printing::put_all(out, c, b"\n")
}

// A function of its own: the range of a word that was read through a reference is known only as an argument's.
fn wide(n: u32) -> usize
    ensures { result ≡ n }
{
    n as usize
}

pub fn reply(file: &[u8], out: &mut [u8]) -> usize
    requires { 122 ≤ length out.old }
    ensures puts { Puts out.old 0 out.new result (reply_text file.now (read_words (read_cards formula_answer file.now))) }
    ensures upper_bound { result ≤ 122 }
{
    let mut words = read::no_words();
    read::read(file, &mut words);
    let answer = words[0];
    let place = wide(words[1]);
    let at = put_result(out, answer, words[1], words[2]);
    if answer == 0 {
        return at;
    }
    if file.len() < place {
        return put_refused(out, at, &file[..0], answer);
    }
    put_refused(out, at, &file[place..], answer)
}
