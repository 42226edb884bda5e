// A draft as bytes, once its text is accepted.
ghost use Rattle.std.specs.Prelude.{◌≡◌, ◌*◌, ◌≤◌, length, take};
ghost use Rattle.std.proofs.lemmas.List.Edits.{sets};
ghost use Rattle.draft.specs.private.Draft.{word_bytes};

// The first n words, as bytes.
pub fn copy(draft: &[u64], n: usize, code: &mut [u8])
    requires { (n ≤ length draft.now) × (8 * n ≤ length code.old) }
    ensures { code.new ≡ sets code.old 0 (word_bytes (take n draft.now)) }
{
    for (i, word) in draft[..n].iter().enumerate() {
        let at = 8 * i;
        code[at..at + 8].copy_from_slice(&word.to_le_bytes());
    }
}
