// What reading returns, in one word: structs and enums are returned through memory, which costs more than the packing. specs/private/Results.antt says
// which bits are which.
ghost use Rattle.std.specs.Prelude.{◌≡◌, ◌<◌};
ghost use Rattle.operators.specs.Kinds.{number_kind};
ghost use Rattle.draft.specs.private.Results.{Done, Bad, Deep, is_done, further, refusal, diagnosed, read_next, read_end, read_kind, read_wrong, read_of};

// Reading got to `next` in the table and to `end` in the draft.
pub fn done(next: usize, end: usize, kind: u8, wrong: u64) -> u64
    requires { (next < 65536) × (end < 65536) × (kind < 2) × (wrong < 536870912) }
    ensures { read_of result ≡ Done next end (number_kind kind) (diagnosed wrong) }
{
    (next as u64) + 65536 * (end as u64) + 4294967296 * (kind as u64) + 34359738368 * wrong
}

// The first token that no formula has there.
pub fn bad(at: usize) -> u64
    requires { at < 65536 }
    ensures { read_of result ≡ Bad at }
{
    (at as u64) + 8589934592
}

// An opener met with eight still open.
pub fn deep(at: usize) -> u64
    requires { at < 65536 }
    ensures { read_of result ≡ Deep at }
{
    (at as u64) + 17179869184
}

pub fn is_done(r: u64) -> bool
    ensures { result ≡ is_done (read_of r) }
{
    r / 8589934592 % 4 == 0
}

// The answer of a refusal.
pub fn refusal_of(r: u64) -> u32
    ensures { result ≡ refusal (read_of r) }
{
    if r / 8589934592 % 4 < 2 { 7 } else { 8 }
}

pub fn next_of(r: u64) -> usize
    ensures value { result ≡ read_next r }
    ensures upper_bound { result < 65536 }
{
    (r % 65536) as usize
}

pub fn end_of(r: u64) -> usize
    ensures value { result ≡ read_end r }
    ensures upper_bound { result < 65536 }
{
    (r / 65536 % 65536) as usize
}

// As operators::kinds numbers it.
pub fn kind_of(r: u64) -> u8
    ensures result_value { number_kind result ≡ read_kind r }
    ensures upper_bound { result < 2 }
{
    (r / 4294967296 % 2) as u8
}

pub fn wrong_of(r: u64) -> u64
    ensures result_value { diagnosed result ≡ read_wrong r }
    ensures upper_bound { result < 536870912 }
{
    r / 34359738368
}

// One token further.
pub fn past(r: u64) -> u64
    requires { read_next r < 65535 }
    ensures { read_of result ≡ further (read_of r) }
{
    r + 1
}
