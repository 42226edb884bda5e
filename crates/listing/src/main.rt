// The code of a formula: key=value lines on standard input to its end, as for the program `formula`; on standard output a line an instruction.
#![tactic(auto)]

use std::io;

fn main(rt: HostRuntime) -> io::Result<()> {
    let mut out = listing_reply::blank_reply();
    let n = listing_reply::respond::respond_from(&mut rt.stdin(), &mut out);
    rt.write_all(&out[..n])
}
