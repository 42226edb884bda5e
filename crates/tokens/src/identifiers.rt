// Words: the names of functions.
ghost use Rattle.std.specs.Prelude.{◌≡◌};
ghost use Rattle.tokens.specs.Symbols.{equal_bytes};
ghost use Rattle.tokens.specs.private.Names.{Named};

use crate::functions;

pub fn same_bytes(a: &[u8], b: &[u8]) -> bool
    ensures { result ≡ equal_bytes a.now b.now }
{
    a == b
}

// The number of the function that has the name; COUNT where none has it.
#[tactic(auto, using(crate::proofs::identifiers::Names::other_names))]
pub fn function(run: &[u8]) -> u8
    ensures { Named run.now result }
{
    match run {
        b"ABS" => functions::ABS,
        b"TOREAL" => functions::TO_REAL,
        b"TOINT" => functions::TO_INT,
        b"TRUNC" => functions::TRUNC,
        b"ROUND" => functions::ROUND,
        b"FRAC" => functions::FRAC,
        b"MAX" => functions::MAX,
        b"MIN" => functions::MIN,
        b"IF" => functions::IF,
        b"TICKms" => functions::TICK_MS,
        b"SINCE" => functions::SINCE,
        b"SUMR" => functions::SUMR,
        b"AVGR" => functions::AVGR,
        b"MAXR" => functions::MAXR,
        b"MINR" => functions::MINR,
        b"COUNTIFEQ" => functions::COUNTIF_EQ,
        b"COUNTIFNE" => functions::COUNTIF_NE,
        b"COUNTIFGE" => functions::COUNTIF_GE,
        b"COUNTIFGT" => functions::COUNTIF_GT,
        b"COUNTIFLE" => functions::COUNTIF_LE,
        b"COUNTIFLT" => functions::COUNTIF_LT,
        b"SUMIFEQ" => functions::SUMIF_EQ,
        b"SUMIFNE" => functions::SUMIF_NE,
        b"SUMIFGE" => functions::SUMIF_GE,
        b"SUMIFGT" => functions::SUMIF_GT,
        b"SUMIFLE" => functions::SUMIF_LE,
        b"SUMIFLT" => functions::SUMIF_LT,
        _ => functions::COUNT,
    }
}
