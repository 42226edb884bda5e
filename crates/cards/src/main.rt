// A file of cards on standard input; on standard output what reading it answers.
#![tactic(auto)]

use std::io;

fn print_reply(rt: &impl Print, file: &[u8]) -> io::Result<()> {
    let mut out = [0u8; 128];
    let n = card_reply::reply(file, &mut out);
    rt.write_all(&out[..n])
}

fn main(rt: HostRuntime) -> io::Result<()> {
    let mut input = rt.stdin();
    let mut file = card_input::file_buffer();
    let n = inputs::read_full(&mut input, &mut file);
    if card_input::all_read(&mut input, n, &rt)? {
        print_reply(&rt, &file[..n])?;
    }
    Ok(())
}
