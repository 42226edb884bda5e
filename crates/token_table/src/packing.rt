// Words without a place.
ghost use Rattle.std.specs.Prelude.{◌≡◌};
ghost use Rattle.tokens.specs.private.Patterns.{pattern_token};
ghost use Rattle.token_table.specs.private.Table.{pack_fields};
ghost use Rattle.token_table.specs.private.Lexing.{scanned_word};

use crate::classes;

// A word of a class, an operand and a number.
pub fn word(class: u8, operand: u8, number: u32) -> u64
    ensures { result ≡ pack_fields class operand number 0 }
{
    (class as u64) + 256 * (operand as u64) + 4294967296 * (number as u64)
}

// A hexadecimal numeral's pattern, or the answer that refuses it.
pub fn hexadecimal(pattern: Result<u32, u32>) -> u64
    ensures { result ≡ scanned_word (pattern_token pattern) }
{
    match pattern {
        Ok(bits) => word(classes::INTEGER, 0, bits),
        Err(answer) => word(classes::NONE, 0, answer),
    }
}
