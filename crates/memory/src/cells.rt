// Cells of the image: where one lies, the number that it holds, and what it reads.
ghost use Rattle.std.specs.Prelude.{◌≡◌, true, not, ◌||◌, ◌^◌, ◌<◌, T};
ghost use Rattle.values.specs.declared.Value.TheVariants.{Int};
ghost use Rattle.operators.specs.Reals.{real_value};
ghost use Rattle.operators.specs.private.Admitted.{admitted};
ghost use Rattle.memory.specs.Layout.{layout_of, block_place, packed, has_cell};
ghost use Rattle.memory.specs.Laws.{Holdable};
ghost use Rattle.memory.specs.Cells.{real_bank, cell_value, read_rule, position_rule, at_position, indexed_rule};

use crate::{Bank, IMAGE_SIZE, bytes};
use values::{Fault, Outcome, Value};

// What a bank reads in the number that a cell holds.
fn bit_cell(n: u32) -> Outcome
    ensures { result ≡ cell_value Bank.X n }
{
    Outcome::Done(Value::Int(i32::from(n != 0)))
}

fn unsigned_cell(n: u32) -> Outcome
    requires { n < 65536 }
    ensures { result ≡ cell_value Bank.«V» n }
{
    Outcome::Done(Value::Int(n as i32))
}

// Half the range is added and taken off again, around its end: no branch at the sign.
fn signed_cell(n: u32) -> Outcome
    requires { n < 65536 }
    ensures { result ≡ cell_value Bank.N n }
{
    let turned = (n + 32768) % 65536;
    Outcome::Done(Value::Int((turned as i32) - 32768))
}

fn wide_cell(n: u32) -> Outcome
    ensures { result ≡ cell_value Bank.D n }
{
    Outcome::Done(Value::Int(values::patterns::from_pattern(n)))
}

fn real_cell(n: u32) -> Outcome
    ensures { result ≡ cell_value Bank.R n }
{
    if values::patterns::is_finite_single(n) {
        Outcome::Done(Value::Real(f32::from_bits(n)))
    } else {
        Outcome::Stopped(Fault::OutOfRange)
    }
}

// Outside the bank, and in an image of another size, there is no element.
pub fn has_cell(image: &[u8], bank: Bank, element: u32) -> bool
    ensures { result ≡ has_cell image.now bank element }
{
    image.len() == IMAGE_SIZE && element < crate::layout_of(bank).elements
}

// The first byte of a block. Nothing else works out a place.
fn place_of(bank: Bank, block: u32) -> usize
    requires { block < (layout_of bank).elements }
    ensures { result ≡ block_place bank block }
{
    let row = crate::layout_of(bank);
    row.place + (block as usize) * row.width
}

// The number that a cell holds. Here and below an arm for each bank, so that its layout is known where the cell is reached.
pub fn get(image: &[u8], bank: Bank, element: u32) -> u32
    requires { T (has_cell image.now bank element) }
    ensures value { result ≡ packed.get image.now bank element }
    ensures upper_bound { result < 256 ^ (layout_of bank).width }
{
    match bank {
        Bank::X => bytes::get_bit(image, place_of(Bank::X, element / 8), element % 8),
        Bank::C => bytes::get_bit(image, place_of(Bank::C, element / 8), element % 8),
        Bank::V => bytes::get::<2>(image, place_of(Bank::V, element)),
        Bank::N => bytes::get::<2>(image, place_of(Bank::N, element)),
        Bank::D => bytes::get::<4>(image, place_of(Bank::D, element)),
        Bank::R => bytes::get::<4>(image, place_of(Bank::R, element)),
    }
}

// A number into a cell, and no other: a bit's neighbours in its byte stay.
pub fn put(image: &mut [u8], bank: Bank, element: u32, n: u32)
    requires { T (has_cell image.old bank element) × Holdable bank n }
    ensures { image.new ≡ packed.put image.old bank element n }
{
    match bank {
        Bank::X => bytes::put_bit(image, place_of(Bank::X, element / 8), element % 8, n),
        Bank::C => bytes::put_bit(image, place_of(Bank::C, element / 8), element % 8, n),
        Bank::V => bytes::put::<2>(image, place_of(Bank::V, element), n),
        Bank::N => bytes::put::<2>(image, place_of(Bank::N, element), n),
        Bank::D => bytes::put::<4>(image, place_of(Bank::D, element), n),
        Bank::R => bytes::put::<4>(image, place_of(Bank::R, element), n),
    }
}

// A cell that the image has: no test, for a loop that asked once.
pub fn read_present(image: &[u8], bank: Bank, element: u32) -> Outcome
    requires { T (has_cell image.now bank element) }
    ensures { result ≡ read_rule image.now bank element }
{
    match bank {
        Bank::X => bit_cell(get(image, Bank::X, element)),
        Bank::C => bit_cell(get(image, Bank::C, element)),
        Bank::V => unsigned_cell(get(image, Bank::V, element)),
        Bank::N => signed_cell(get(image, Bank::N, element)),
        Bank::D => wide_cell(get(image, Bank::D, element)),
        Bank::R => real_cell(get(image, Bank::R, element)),
    }
}

pub fn read(image: &[u8], bank: Bank, element: u32) -> Outcome
    ensures { result ≡ read_rule image.now bank element }
{
    if !has_cell(image, bank, element) {
        return Outcome::Stopped(Fault::IndexError);
    }
    read_present(image, bank, element)
}

// The element of a bank that an index names.
pub fn position(bank: Bank, index: Value) -> Result<u32, Fault>
    ensures { result ≡ position_rule bank index }
{
    operators::index(index, crate::layout_of(bank).elements)
}

fn integer_position(bank: Bank, z: i32) -> Result<u32, Fault>
    ensures { result ≡ position_rule bank (Int z) }
{
    operators::integers::index(z, crate::layout_of(bank).elements)
}

// As `position`, of an integer where reals is false: a real, which the profile without reals does not hold, names element 0 there.
pub fn position_in(bank: Bank, index: Value, reals: bool) -> Result<u32, Fault>
    ensures { (reals || not (real_value index)) ≡ true → result ≡ position_rule bank index }
{
    if reals {
        return position(bank, index);
    }
    match index {
        Value::Int(z) => integer_position(bank, z),
        Value::Real(_) => Ok(0),
    }
}

fn read_at(image: &[u8], bank: Bank, position: Result<u32, Fault>) -> Outcome
    ensures { result ≡ at_position (read_rule image.now bank) position }
{
    match position {
        Ok(i) => read(image, bank, i),
        Err(f) => Outcome::Stopped(f),
    }
}

pub fn read_indexed(image: &[u8], bank: Bank, index: Value) -> Outcome
    ensures { result ≡ indexed_rule image.now bank index }
{
    read_at(image, bank, position(bank, index))
}

// As `read_indexed`, or in the profile without reals: there an index is an integer, and R has no cell.
pub fn read_indexed_in(image: &[u8], bank: Bank, index: Value, reals: bool) -> Outcome
    ensures { result ≡ admitted reals (real_bank bank || real_value index) (indexed_rule image.now bank index) }
{
    if reals {
        return read_indexed(image, bank, index);
    }
    if crate::is_real(bank) {
        return Outcome::WrongKind;
    }
    match index {
        Value::Int(z) => read_at(image, bank, integer_position(bank, z)),
        Value::Real(_) => Outcome::WrongKind,
    }
}
