// The program of paper 01: key=value lines on standard input to its end, the reply on standard output.
#![tactic(auto)]

use std::io;

fn main(rt: HostRuntime) -> io::Result<()> {
    let mut reply = [0u8; 64];
    let n = program::respond_from(&mut rt.stdin(), &mut reply);
    rt.write_all(&reply[..n])
}
