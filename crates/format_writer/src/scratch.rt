// A text written from the front of a buffer that may be too small for it: behind the buffer's end nothing is written, and one byte past it stands for
// everything beyond.
ghost use Rattle.std.specs.Prelude.{◌≡◌, List, [], ◌∷◌, ◌++◌, ℕ, ◌+◌, ◌<◌, length, take};
ghost use Rattle.words.specs.Ascii.{ascii, byte};
ghost use Rattle.format_writer.specs.private.Scratch.{Holds, Counted, StartsBehind};

// One byte more.
pub fn put(out: &mut [u8], n: usize, b: u8) -> usize
    requires { Counted n out.old }
    ensures counted { Counted result out.old }
    ensures by_index { (o : List ℕ) → Holds o out.old n → Holds (o ++ (b ∷ [])) out.new result }
{
    if n < out.len() {
        out[n] = b;
        return n + 1;
    }
    out.len() + 1
}

pub fn put_all(out: &mut [u8], n: usize, bytes: &[u8]) -> usize
    requires { Counted n out.old }
    ensures counted { Counted result out.old }
    ensures by_index { (o : List ℕ) → Holds o out.old n → Holds (o ++ bytes.now) out.new result }
{
    let mut end = n;
    for b in bytes {
        end = put(out, end, *b);
    }
    end
}

// Everything from `start` up to n one place further, behind an opening parenthesis. Not by `copy_within`, which calls memmove: the archives for C want
// memset and memcpy alone.
fn shift(out: &mut [u8], start: usize, n: usize)
    requires { n < length out.old }
    ensures { (o x : List ℕ) → take n out.old ≡ o ++ x → start ≡ length o → take (n + 1) out.new ≡ o ++ (byte "(" ∷ x) }
{
    let mut carried = b'(';
    for i in start..n {
        let b = out[i];
        out[i] = carried;
        carried = b;
    }
    out[n] = carried;
}

// What was written from `start` up to n, in parentheses.
pub fn enclose(out: &mut [u8], start: usize, n: usize) -> usize
    requires { Counted n out.old }
    ensures counted { Counted result out.old }
    ensures by_index { (o x : List ℕ) → StartsBehind o out.old start → Holds (o ++ x) out.old n → Holds
        (o ++ (ascii "(" ++ (x ++ ascii ")"))) out.new result }
{
    if out.len() < n + 2 {
        return out.len() + 1;
    }
    shift(out, start, n);
    put(out, n + 1, b')')
}
