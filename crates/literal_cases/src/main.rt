// The patterns of literals at every scale, to compare with exact fractions: tests/host/expected/literals.rs.
// A line has a mantissa, and the patterns at the scales from -28 to 20. The last line has the scales next to these, which no literal has.
#![tactic(auto)]

use std::{fmt, io};

// One digit; a tie between two singles, and twice it; and the most nines of a mantissa.
const MANTISSAS: [u32; 5] = [1, 9, 16777217, 33554434, 999999999];

// The patterns of a mantissa at the scales from -28 to 20, a space before each.
#[derive(Clone, Copy)]
struct Patterns(u32);

impl fmt::Display for Patterns {
    fn fmt<W: fmt::Write>(&self, f: &mut fmt::Formatter<W>) -> fmt::Result {
        for scale in -28..=20 {
            write!(f, " {:08X}", literals::pattern(self.0, scale))?;
        }
        Ok(())
    }
}

fn main(rt: HostRuntime) -> io::Result<()> {
    for n in MANTISSAS {
        println!(rt; "{n}{}", Patterns(n))?;
    }
    println!(rt;
        "1 {:08X} {:08X}",
        literals::pattern(1, -29),
        literals::pattern(1, 21)
    )
}
