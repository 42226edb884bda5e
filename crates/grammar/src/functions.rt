// The functions by number: specs/Functions.antt. A match: a table would be copied at every use. A number past the last function's stands for the first.
ghost use Rattle.std.specs.Prelude.{◌≡◌};
ghost use Rattle.grammar.specs.Functions.{function_form, function_operator};

use operators::tables;
use tokens::functions;

// The numbers of the forms.
pub const OF_ONE: u8 = 1;

pub const OF_TWO: u8 = 2;

pub const OF_CHOICE: u8 = 3;

pub const OF_SINCE: u8 = 4;

pub const CLOCK: u8 = 5;

pub const RANGED: u8 = 6;

pub const MATCHED: u8 = 7;

// The form of what stands between a function's parentheses.
pub fn form(f: u8) -> u8
    ensures { result ≡ function_form f }
{
    match f {
        functions::ABS..=functions::FRAC => OF_ONE,
        functions::MAX..=functions::MIN => OF_TWO,
        functions::IF => OF_CHOICE,
        functions::TICK_MS => CLOCK,
        functions::SINCE => OF_SINCE,
        functions::SUMR..=functions::MINR => RANGED,
        functions::COUNTIF_EQ..=functions::SUMIF_LT => MATCHED,
        _ => OF_ONE,
    }
}

// The number of a function's operator among those of its form.
pub fn operator(f: u8) -> u8
    ensures { result ≡ function_operator f }
{
    match f {
        functions::ABS => tables::ABS,
        functions::TO_REAL => tables::TO_REAL,
        functions::TO_INT => tables::TRUNC,
        functions::TRUNC => tables::TRUNC,
        functions::ROUND => tables::ROUND,
        functions::FRAC => tables::FRAC,
        functions::MAX => tables::MAX,
        functions::MIN => tables::MIN,
        functions::IF..=functions::SINCE => 0,
        functions::SUMR..=functions::MINR => f - functions::SUMR,
        functions::COUNTIF_EQ..=functions::SUMIF_LT => f - functions::COUNTIF_EQ,
        _ => tables::ABS,
    }
}
