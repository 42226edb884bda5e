// Text put into a slice. Each function answers the place behind what it put.
ghost use Rattle.std.specs.Prelude.{◌≡◌, ◌∷◌, ◌+◌, ◌*◌, ◌^◌, ◌≤◌, ◌<◌, length};
ghost use Rattle.memory.specs.Layout.{layout_of};
ghost use Rattle.memory.specs.Cells.{bit_of};
ghost use Rattle.lines.specs.Printing.{numeral_byte, low_digits, width_of, decimal_text, signed_text, cell_text, letter_byte, cell_name};
ghost use Rattle.lines.specs.private.Steps.{Puts, half_text};

use memory::Bank;

// Not by `copy_from_slice`, which calls memmove: the archives for C want memset and memcpy alone.
pub fn put_all(out: &mut [u8], at: usize, text: &[u8]) -> usize
    requires { at + length text.now ≤ length out.old }
    ensures { Puts out.old at out.new result text.now }
{
    for k in 0..text.len() {
        out[at + k] = text[k];
    }
    at + text.len()
}

fn digit(d: u64) -> u8
    requires { d < 16 }
    ensures { result ≡ numeral_byte d }
{
    if d < 10 {
        b'0' + (d as u8)
    } else {
        b'A' - 10 + (d as u8)
    }
}

// The k lowest digits of a number in a base, the last one first.
fn spell(out: &mut [u8], at: usize, k: usize, base: u64, n: u64) -> usize
    requires base_nonzero { (0 < base) × (base ≤ 16) }
    requires k_in_bounds { at + k ≤ length out.old }
    ensures { Puts out.old at out.new result (low_digits base k n) }
{
    let mut rest = n;
    for i in (0..k).rev() {
        out[at + i] = digit(rest % base);
        rest = rest / base;
    }
    at + k
}

// How many decimal digits a number has.
pub fn width_of(n: u64) -> usize
    ensures { result ≡ width_of n }
{
    match n.checked_ilog10() {
        Some(tens) => tens as usize + 1,
        None => 1,
    }
}

pub fn put_decimal(out: &mut [u8], at: usize, n: u64) -> usize
    requires { at + width_of n ≤ length out.old }
    ensures puts { Puts out.old at out.new result (decimal_text n) }
    ensures value { result ≡ at + width_of n }
{
    spell(out, at, width_of(n), 10, n)
}

// The integer of a pattern of 2 * half.
fn put_half(out: &mut [u8], at: usize, n: u64, half: u64) -> usize
    requires n_bound { (n < 2 * half) × (half ≤ 2147483648) }
    requires at_in_bounds { at + 11 ≤ length out.old }
    ensures puts { Puts out.old at out.new result (half_text half n) }
    ensures upper_bound { result ≤ at + 11 }
{
    if n < half {
        return put_decimal(out, at, n);
    }
    let next = put_all(out, at, b"-");
    put_decimal(out, next, 2 * half - n)
}

fn put_hexadecimal(out: &mut [u8], at: usize, n: u64) -> usize
    requires { at + 10 ≤ length out.old }
    ensures { Puts out.old at out.new result (48 ∷ 120 ∷ low_digits 16 8 n) }
{
    let next = put_all(out, at, b"0x");
    spell(out, next, 8, 16, n)
}

fn put_bit(out: &mut [u8], at: usize, n: u64) -> usize
    requires { at + 1 ≤ length out.old }
    ensures puts { Puts out.old at out.new result (signed_text (bit_of n)) }
    ensures value { result ≡ at + 1 }
{
    if n == 0 {
        return put_all(out, at, b"0");
    }
    put_all(out, at, b"1")
}

// What a cell holds, by its bank.
pub fn put_value(out: &mut [u8], at: usize, bank: Bank, n: u64) -> usize
    requires n_bound { n < 256 ^ (layout_of bank).width }
    requires at_in_bounds { at + 11 ≤ length out.old }
    ensures puts { Puts out.old at out.new result (cell_text bank n) }
    ensures upper_bound { result ≤ at + 11 }
{
    match bank {
        Bank::X => put_bit(out, at, n),
        Bank::C => put_bit(out, at, n),
        Bank::V => put_decimal(out, at, n),
        Bank::N => put_half(out, at, n, 32768),
        Bank::D => put_half(out, at, n, 2147483648),
        Bank::R => put_hexadecimal(out, at, n),
    }
}

fn letter(bank: Bank) -> u8
    ensures { result ≡ letter_byte bank }
{
    match bank {
        Bank::X => b'X',
        Bank::C => b'C',
        Bank::V => b'V',
        Bank::N => b'N',
        Bank::D => b'D',
        Bank::R => b'R',
    }
}

pub fn put_name(out: &mut [u8], at: usize, bank: Bank, element: u32) -> usize
    requires element_bound { element < 1000 }
    requires at_in_bounds { at + 4 ≤ length out.old }
    ensures puts { Puts out.old at out.new result (cell_name bank element) }
    ensures upper_bound { result ≤ at + 4 }
{
    let first = [letter(bank)];
    let next = put_all(out, at, &first);
    put_decimal(out, next, element as u64)
}
