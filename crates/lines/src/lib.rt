// Lines of text: numbers and cells in the forms in which they are read and printed.
#![tactic(auto)]

ghost use Rattle.std.specs.Prelude.{◌≡◌, ◌≤◌, eqb, length, position};
ghost use Rattle.tokens.specs.Bytes.{run_len};
ghost use Rattle.lines.specs.Lines.{except};

pub mod forms;
pub mod printing;

fn place_of(text: &[u8], b: u8) -> Option<usize>
    ensures { result ≡ position (λ c. eqb c b) text.now }
{
    text.iter().position(|c| *c == b)
}

// The place of the first byte b, or the end.
pub fn until(text: &[u8], b: u8) -> usize
    ensures { (result ≡ run_len (except b) text.now) × (result ≤ length text.now) }
{
    place_of(text, b).unwrap_or(text.len())
}
