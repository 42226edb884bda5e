// What the program `listing` prints (specs/Reply.antt): the code of a formula and of its target's index, or a refusal.
#![tactic(auto)]

ghost use Rattle.std.specs.Prelude.{◌≡◌, ◌+◌, ◌≤◌, length};
ghost use Rattle.lines.specs.private.Steps.{Puts};
ghost use Rattle.listing_reply.specs.Reply.{refusal_text, listing_text};
ghost use Rattle.listing_reply.specs.private.Parts.{code_text, index_part};

use code_listing::BANKS;
use lines::printing;
use memory::Bank;
use operations::Report;
use program::{codes, reply, stream};

pub mod respond;

// Two listings and the line between them.
pub const MOST_BYTES: usize = 131080;

// Room for every reply. The ensures gives only the length: the list of zeros would be written out in every step of a proof.
pub fn blank_reply() -> [u8; MOST_BYTES]
    ensures { 131080 ≡ length result }
{
    program::zeros()
}

fn put_code(out: &mut [u8], at: usize, code: &[u8], n: usize) -> usize
    requires { at + 65536 ≤ length out.old }
    ensures puts { Puts out.old at out.new result (code_text code.now n) }
    ensures upper_bound { result ≤ at + 65536 }
{
    let mut text: [u8; code_listing::LEAST_TEXT] = program::zeros();
    let listed = code_listing::listing(code, n, &mut text);
    let length = listed.length;
    printing::put_all(out, at, &text[..length])
}

fn put_index(out: &mut [u8], at: usize, index: &[u8], k: usize, bank: Bank) -> usize
    requires { at + 65544 ≤ length out.old }
    ensures puts { Puts out.old at out.new result (index_part index.now k bank) }
    ensures upper_bound { result ≤ at + 65544 }
{
    if k == 0 {
        return at;
    }
    let a = printing::put_all(out, at, b"index=");
    let b = text_tables::put_row(out, a, &BANKS, u8::from(bank) as usize);
    let c = printing::put_all(out, b, b"\n");
    put_code(out, c, index, k)
}

fn put_refusal(out: &mut [u8], report: Report) -> usize
    requires { 131080 ≤ length out.old }
    ensures puts { Puts out.old 0 out.new result (refusal_text report) }
    ensures upper_bound { result ≤ 131080 }
{
    let answer = report.answer;
    let a = reply::put_report(out, report);
    let b = printing::put_all(out, a, b"words=");
    let c = answer_words::put(out, b, answer);
    printing::put_all(out, c, b"\n")
}

pub fn reply(target: &[u8], text: &[u8], out: &mut [u8]) -> usize
    requires { 131080 ≤ length out.old }
    ensures puts { Puts out.old 0 out.new result (listing_text target.now text.now) }
    ensures upper_bound { result ≤ 131080 }
{
    let mut code = stream::blank_code();
    let mut index = stream::blank_code();
    match codes::compile_both(target, text, &mut code, &mut index) {
        Ok(n) => {
            let at = put_code(out, 0, &code, n.code);
            put_index(out, at, &index, n.index, n.bank)
        }
        Err(answer) => put_refusal(out, operations::reported(answer)),
    }
}
