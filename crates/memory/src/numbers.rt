// The banks by number: specs/Numbers.antt.
ghost use Rattle.std.specs.Prelude.{◌≡◌};
ghost use Rattle.memory.specs.Numbers.{bank_numbered, bank_number, bank_typed, bank_elements};

use crate::Bank;
use operators::kinds;

// An Option: a TryFrom would want an error of its own, which says nothing that None does not.
pub fn bank_numbered(n: u8) -> Option<Bank>
    ensures { result ≡ bank_numbered n }
{
    match n {
        0 => Some(Bank::X),
        1 => Some(Bank::C),
        2 => Some(Bank::V),
        3 => Some(Bank::N),
        4 => Some(Bank::D),
        5 => Some(Bank::R),
        _ => None,
    }
}

impl From<Bank> for u8 {
    ghost from_gives = { λ bank n. n ≡ bank_number bank };

    fn from(bank: Bank) -> u8 {
        match bank {
            Bank::X => 0,
            Bank::C => 1,
            Bank::V => 2,
            Bank::N => 3,
            Bank::D => 4,
            Bank::R => 5,
        }
    }
}

// The kind of what a bank has, as operators::kinds numbers it; NOT_TAKEN for a number that is no bank's.
pub fn bank_kind(n: u32) -> u8
    ensures { result ≡ bank_typed (bank_numbered n) }
{
    match n {
        0..=4 => kinds::INT,
        5 => kinds::REAL,
        _ => kinds::NOT_TAKEN,
    }
}

// How many elements a bank has; none for a number that is no bank's. Each arm names its bank, so that it is a constant.
pub fn bank_elements(n: u32) -> u32
    ensures { result ≡ bank_elements (bank_numbered n) }
{
    match n {
        0 => crate::layout_of(Bank::X).elements,
        1 => crate::layout_of(Bank::C).elements,
        2 => crate::layout_of(Bank::V).elements,
        3 => crate::layout_of(Bank::N).elements,
        4 => crate::layout_of(Bank::D).elements,
        5 => crate::layout_of(Bank::R).elements,
        _ => 0,
    }
}
