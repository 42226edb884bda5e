// The first real token of a table (paper 02, request 12): an R cell, the letter R, a real literal, TOREAL, FRAC or AVGR.
#![tactic(auto)]

ghost use Rattle.std.specs.Prelude.{◌≡◌};
ghost use Rattle.token_table.specs.private.Table.{word_class, word_operand, listed, TokenWords};
ghost use Rattle.profile_text.specs.Judge.{token_diagnostic};
ghost use Rattle.real_tokens.specs.private.Words.{is_real_function, is_real_word, shown};

use memory::numbers;
use operators::kinds;
use token_table::classes;
use tokens::functions;

fn is_real_function(f: u8) -> bool
    ensures { result ≡ is_real_function f }
{
    matches!(f, functions::TO_REAL | functions::FRAC | functions::AVGR)
}

fn is_real(w: u64) -> bool
    ensures { result ≡ is_real_word (word_class w) (word_operand w) }
{
    let operand = token_table::operand_of(w);
    match token_table::class_of(w) {
        classes::REAL => true,
        classes::CELL | classes::LETTER => numbers::bank_kind(operand as u32) == kinds::REAL,
        classes::NAME => is_real_function(operand),
        _ => false,
    }
}

// The word of the first real token; 0 where there is none, and where reals are taken.
pub fn first_real(table: &[u64], reals: bool) -> u64
    requires { TokenWords table.now }
    ensures { shown result ≡ token_diagnostic reals (listed table.now) }
{
    if reals {
        return 0;
    }
    for w in table {
        if token_table::class_of(*w) == classes::NONE {
            return 0;
        }
        if is_real(*w) {
            return *w;
        }
    }
    0
}
