// The key=value program of paper 01 ("Sheet of sums") as a function: the lines of a case in, the reply out.
#![tactic(auto)]

ghost use Rattle.std.specs.Prelude.{◌≡◌, ◌≤◌, length};
ghost use Rattle.memory.specs.Layout.{image_size};
ghost use Rattle.program.specs.Cases.{zeros};
ghost use Rattle.program.specs.Reply.{reply, write_text, written_length, HasPrefix, Outputs};

use memory::IMAGE_SIZE;
use std::io::Read;

pub mod case;
pub mod codes;
pub mod kept;
pub mod reply;
pub mod stream;

// N zero bytes. They come from a function: its contract names the list, which a literal would write out in every step of a proof.
pub fn zeros<const N: usize>() -> [u8; N]
    ensures size { N ≡ length result }
    ensures value { result ≡ zeros N }
{
    [0; N]
}

pub fn blank_image() -> [u8; IMAGE_SIZE]
    ensures { (image_size ≡ length result) × (result ≡ zeros image_size) }
{
    zeros()
}

// The whole input is one case. An output of 64 bytes has room for every reply; in one that is too short nothing is written, and 0 is returned.
pub fn respond(input: &[u8], output: &mut [u8]) -> usize
    ensures value { result ≡ written_length output.old (reply input.now) }
    ensures output_after { output.new ≡ write_text output.old (reply input.now) }
    ensures input_len_bound { length (reply input.now) ≤ 64 }
    ensures has_prefix { HasPrefix result output.new }
{
    let mut case = stream::take_case(input);
    case.reply(output)
}

// The same of an input that is read to its end. If a read fails there is no answer, and the one line `error=read` says so.
pub fn respond_from<R: Read>(input: &mut R, output: &mut [u8]) -> usize
    ensures outputs { Outputs output.old result output.new }
    ensures has_prefix { HasPrefix result output.new }
{
    match stream::receive_case(input) {
        Some(mut case) => case.reply(output),
        None => reply::write_text(b"error=read\n", output),
    }
}
