// A formula as it is saved: key=value lines on standard input to its end, as for the program `formula`; on standard output its answer and place, and on 0
// its text.
#![tactic(auto)]

use program::stream;
use std::io;

fn main(rt: HostRuntime) -> io::Result<()> {
    match stream::receive_case(&mut rt.stdin()) {
        Some(case) => format_reply::tell(&rt, case.text.bytes()),
        None => rt.write_all(b"error=read\n"),
    }
}
