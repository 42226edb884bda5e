// Storing a value into a cell, and setting a fault's flag.
ghost use Rattle.std.specs.Prelude.{◌≡◌, true, false, not, ◌||◌};
ghost use Rattle.values.specs.declared.Value.TheVariants.{Int};
ghost use Rattle.operators.specs.Reals.{real_value};
ghost use Rattle.memory.specs.Cells.{real_bank};
ghost use Rattle.memory.specs.Store.{bool_pattern, low_cut, integer_of, is_finite, encode_cell, with_flag, store_answer, store_image};

use crate::{Bank, IMAGE_SIZE, cells};
use values::{Fault, Value};

fn from_bool(b: bool) -> Result<u32, Fault>
    ensures { result ≡ Ok (bool_pattern b) }
{
    Ok(u32::from(b))
}

// A real is truncated first.
fn integer_of(v: Value) -> Option<i32>
    ensures { result ≡ integer_of v }
{
    match v {
        Value::Int(z) => Some(z),
        Value::Real(x) => values::convert::truncate(x),
    }
}

fn low16(c: Option<i32>) -> Result<u32, Fault>
    ensures { result ≡ low_cut 16 c }
{
    match c {
        Some(z) => Ok(values::patterns::pattern(z) % 65536),
        None => Err(Fault::OutOfRange),
    }
}

fn low32(c: Option<i32>) -> Result<u32, Fault>
    ensures { result ≡ low_cut 32 c }
{
    match c {
        Some(z) => Ok(values::patterns::pattern(z)),
        None => Err(Fault::OutOfRange),
    }
}

fn is_finite(v: Value) -> bool
    ensures { result ≡ is_finite v }
{
    match v {
        Value::Int(_) => true,
        Value::Real(x) => values::singles::is_finite(x),
    }
}

pub fn pattern_of(bank: Bank, v: Value) -> Result<u32, Fault>
    ensures { result ≡ encode_cell bank v }
{
    if !is_finite(v) {
        return Err(Fault::OutOfRange);
    }
    match bank {
        Bank::X | Bank::C => from_bool(operators::truth(v)),
        Bank::V | Bank::N => low16(integer_of(v)),
        Bank::D => low32(integer_of(v)),
        Bank::R => Ok(f32::to_bits(operators::as_real(v))),
    }
}

// Of an integer in a bank of integers; R, of which the profile without reals has no cell, takes none.
fn integer_pattern(bank: Bank, z: i32) -> Result<u32, Fault>
    ensures { real_bank bank ≡ false → result ≡ encode_cell bank (Int z) }
{
    match bank {
        Bank::X | Bank::C => from_bool(operators::integers::truth(z)),
        Bank::V | Bank::N => low16(Some(z)),
        Bank::D => low32(Some(z)),
        Bank::R => Err(Fault::OutOfRange),
    }
}

// As `pattern_of`, or in the profile without reals.
fn pattern_in(bank: Bank, v: Value, reals: bool) -> Result<u32, Fault>
    ensures { (reals || not (real_bank bank || real_value v)) ≡ true → result ≡ encode_cell bank v }
{
    if reals {
        return pattern_of(bank, v);
    }
    match v {
        Value::Int(z) => integer_pattern(bank, z),
        Value::Real(_) => Err(Fault::OutOfRange),
    }
}

pub fn set_flag(image: &mut [u8], f: Fault)
    ensures { image.new ≡ with_flag image.old f }
{
    if image.len() == IMAGE_SIZE {
        image[crate::flag_at(f)] = 1;
    }
}

// A fault sets its flag; otherwise only the cell changes. In the profile without reals (reals false) an integer goes to a bank of integers.
pub fn store_in(
    image: &mut [u8],
    bank: Bank,
    element: u32,
    v: Value,
    reals: bool,
) -> Result<(), Fault>
    requires { (reals || not (real_bank bank || real_value v)) ≡ true }
    ensures { (result ≡ store_answer image.old bank element v) × (image.new ≡ store_image image.old bank element v) }
{
    if !cells::has_cell(image, bank, element) {
        set_flag(image, Fault::IndexError);
        return Err(Fault::IndexError);
    }
    match pattern_in(bank, v, reals) {
        Ok(p) => {
            cells::put(image, bank, element, p);
            Ok(())
        }
        Err(f) => {
            set_flag(image, f);
            Err(f)
        }
    }
}

pub fn store(image: &mut [u8], bank: Bank, element: u32, v: Value) -> Result<(), Fault>
    ensures { (result ≡ store_answer image.old bank element v) × (image.new ≡ store_image image.old bank element v) }
{
    store_in(image, bank, element, v, true)
}
