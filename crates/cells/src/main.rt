// Which cells a formula reads: key=value lines on standard input to its end, as for the program `formula`; on standard output a line a cell.
#![tactic(auto)]

use std::io;

fn main(rt: HostRuntime) -> io::Result<()> {
    let mut out = read_reply::blank_reply();
    let n = read_reply::respond::respond_from(&mut rt.stdin(), &mut out);
    rt.write_all(&out[..n])
}
