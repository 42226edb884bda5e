// Diagnostics as numbers, place times 16 plus answer: what is wrong with an operand or a count, and which of two is the earlier. Only
// this module sees the bits.
ghost use Rattle.std.specs.Prelude.{◌≡◌, ◌<◌};
ghost use Rattle.token_table.specs.private.Table.{word_place};
ghost use Rattle.grammar.specs.Tree.{at, earlier, unless, wrong_kind_at, wrong_count_at};
ghost use Rattle.draft.specs.private.Results.{diagnosed, place_part, answer_part};

// The number of no diagnostic: every other is less, being a place below 65,536 times 16 and an answer below 16.
pub const CLEAR: u64 = 1048576;

const WRONG_KIND: u64 = 9;

const WRONG_COUNT: u64 = 6;

pub fn earlier(a: u64, b: u64) -> u64
    requires { (a < 536870912) × (b < 536870912) }
    ensures result_value { diagnosed result ≡ earlier (diagnosed a) (diagnosed b) }
    ensures upper_bound { result < 536870912 }
{
    a.min(b)
}

// An answer at a token's place, unless all is well.
fn refused_at(well: bool, w: u64, answer: u64) -> u64
    requires { answer < 16 }
    ensures result_value { diagnosed result ≡ unless well (at (word_place w) answer) }
    ensures upper_bound { result < 536870912 }
{
    if well {
        CLEAR
    } else {
        16 * (token_table::place_of(w) as u64) + answer
    }
}

// Answer 9 at an operator's place, unless its operands' kinds are taken.
pub fn wrong_at(taken: bool, w: u64) -> u64
    ensures result_value { diagnosed result ≡ unless taken (wrong_kind_at (word_place w)) }
    ensures upper_bound { result < 536870912 }
{
    refused_at(taken, w, WRONG_KIND)
}

// Answer 6 at a count's place, unless its range is good.
pub fn wrong_count(good: bool, w: u64) -> u64
    ensures result_value { diagnosed result ≡ unless good (wrong_count_at (word_place w)) }
    ensures upper_bound { result < 536870912 }
{
    refused_at(good, w, WRONG_COUNT)
}

// The place of a diagnostic, and its answer.
pub fn place_part(wrong: u64) -> usize
    ensures { result ≡ place_part wrong }
{
    (wrong / 16) as usize
}

pub fn answer_part(wrong: u64) -> u32
    ensures { result ≡ answer_part wrong }
{
    (wrong % 16) as u32
}
