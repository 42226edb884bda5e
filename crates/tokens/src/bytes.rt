// Classes of bytes, and the longest runs of them.
ghost use Rattle.std.specs.Prelude.{◌≡◌, ℕ, Bool, ◌+◌, ◌≤◌, length, get_or, drop};
ghost use Rattle.std.specs.List.{prefix_len};
ghost use Rattle.tokens.specs.Bytes.{is_letter, is_space, is_word, is_run, is_hex, run_len};

pub fn is_letter(b: u8) -> bool
    ensures { result ≡ is_letter b }
{
    b.is_ascii_alphabetic()
}

pub fn is_space(b: u8) -> bool
    ensures { result ≡ is_space b }
{
    matches!(b, b' ' | b'\t')
}

pub fn is_word(b: u8) -> bool
    ensures { result ≡ is_word b }
{
    b.is_ascii_alphanumeric()
}

pub fn is_run(b: u8) -> bool
    ensures { result ≡ is_run b }
{
    is_word(b) || b == b'.'
}

pub fn is_hex(b: u8) -> bool
    ensures { result ≡ is_hex b }
{
    b.is_ascii_hexdigit()
}

// How many bytes at the front of a text are of a class, which a test tells.
fn passing<F: Fn(u8) -> bool>(text: &[u8], test: F) -> usize
    ghost class: { ℕ → Bool }
    requires callable { F.IsAlwaysCallable test }
    requires tells { (c : ℕ) (r : Bool) → F.post test c r → r ≡ class c }
    ensures { result ≡ prefix_len class text.now }
{
    text.iter().take_while(|b| test(**b)).count()
}

// The end of the longest run of a class from a position.
pub fn run_end<F: Fn(u8) -> bool>(text: &[u8], at: usize, test: F) -> usize
    ghost class: { ℕ → Bool }
    requires at_in_bounds { at ≤ length text.now }
    requires callable { F.IsAlwaysCallable test }
    requires tells { (c : ℕ) (r : Bool) → F.post test c r → r ≡ class c }
    ensures { (result ≡ at + run_len class (drop at text.now)) × (result ≤ length text.now) }
{
    at + passing(&text[at..], test)
}

// The byte at a position, 0 past the end.
pub fn byte_at(text: &[u8], at: usize) -> u8
    ensures { result ≡ get_or text.now at 0 }
{
    text.get(at).copied().unwrap_or(0)
}
