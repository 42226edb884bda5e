// The lines of an input that is read to its end, as the program of paper 01 reads it.
ghost use Rattle.std.specs.Prelude.{◌≤◌, length};
ghost use Rattle.listing_reply.specs.private.Prints.{Prints};

use lines::printing;
use program::stream;
use std::io::Read;

// If a read fails, the one line `error=read` says so.
pub fn respond_from<R: Read>(input: &mut R, out: &mut [u8]) -> usize
    requires { 131080 ≤ length out.old }
    ensures prints { Prints out.old result out.new }
    ensures upper_bound { result ≤ 131080 }
{
    match stream::receive_case(input) {
        Some(case) => crate::reply(case.target.bytes(), case.text.bytes(), out),
        None => printing::put_all(out, 0, b"error=read\n"),
    }
}
