// A spoiled file of cards on standard input; on standard output the cards that are kept, on standard error the names of the parts that are left out.
#![tactic(auto)]

ghost use Rattle.std.specs.Prelude.{length, ◌≡◌};

use std::io;

// Six bytes a byte of the file, and 64.
const MOST_NAMED: usize = 1572928;

// The ensures gives only the length: the list of zeros would be written out in every step.
fn named_buffer() -> [u8; MOST_NAMED]
    ensures { 1572928 ≡ length result }
{
    [0; MOST_NAMED]
}

fn print_outputs(out: &impl Print, err: &impl Print, file: &[u8]) -> io::Result<()> {
    let mut kept = card_input::file_buffer();
    let mut named = named_buffer();
    let s = card_salvage::salvage(file, &mut kept, &mut named);
    let written = out.write_all(&kept[..s.kept]).is_ok();
    err.write_all(&named[..s.named])?;
    if !written {
        err.write_all(b"unwritten=1\n")?;
    }
    Ok(())
}

fn main(rt: HostRuntime) -> io::Result<()> {
    let mut input = rt.stdin();
    let mut file = card_input::file_buffer();
    let n = inputs::read_full(&mut input, &mut file);
    if card_input::all_read(&mut input, n, &rt.stderr())? {
        print_outputs(&rt, &rt.stderr(), &file[..n])?;
    }
    Ok(())
}
