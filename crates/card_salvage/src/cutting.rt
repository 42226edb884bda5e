// Where the parts of a spoiled file end.
ghost use Rattle.std.specs.Prelude.{◌≡◌, ◌+◌, ◌≤◌, ◌<◌, length, drop, get_or};
ghost use Rattle.card_laws.specs.Lines.{begins};
ghost use Rattle.card_laws.specs.Cards.{card_key};
ghost use Rattle.salvage_laws.specs.Salvage.{card_follows};
ghost use Rattle.card_salvage.specs.private.Steps.{PartTo};

// Whether a card line begins at a place.
fn card_begins(file: &[u8], at: usize) -> bool
    requires { at ≤ length file.now }
    ensures { result ≡ begins card_key (drop at file.now) }
{
    if file.len() - at < 5 {
        return false;
    }
    let end = at + 5;
    tokens::identifiers::same_bytes(b"card=", &file[at..end])
}

// Whether a part ends behind the byte at a place.
fn ends_at(file: &[u8], at: usize) -> bool
    requires { at < length file.now }
    ensures { result ≡ card_follows (get_or file.now at 0) (drop (at + 1) file.now) }
{
    if file[at] != b'\n' {
        return false;
    }
    card_begins(file, at + 1)
}

// Where the part ends that begins at a place.
pub fn part_end(file: &[u8], at: usize) -> usize
    requires { at < length file.now }
    ensures { PartTo file.now at result }
{
    for last in at..file.len() - 1 {
        if ends_at(file, last) {
            return last + 1;
        }
    }
    file.len()
}
