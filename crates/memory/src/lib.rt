// The memory image: 3,092 bytes that the caller lends. This crate alone knows where a cell lies.
#![tactic(auto)]

ghost use Rattle.std.specs.Prelude.{◌≡◌};
ghost use Rattle.memory.specs.Layout.{layout_of, flag_at};
ghost use Rattle.memory.specs.Cells.{real_bank};

use values::Fault;

mod bytes;
pub mod cells;
pub mod names;
pub mod numbers;
pub mod store;

#[derive(Clone, Copy)]
pub enum Bank {
    X,
    C,
    V,
    N,
    D,
    R,
}

// A bank's place in the image, how many elements it has, and the bytes of each of its blocks: a byte of eight bits, or an element's own.
#[derive(Clone, Copy)]
pub struct Layout {
    pub place: usize,
    pub elements: u32,
    pub width: usize,
}

pub const IMAGE_SIZE: usize = 3092;

pub fn layout_of(bank: Bank) -> Layout
    ensures { result ≡ layout_of bank }
{
    let (place, elements, width) = match bank {
        Bank::X => (0, 64, 1),
        Bank::C => (8, 64, 1),
        Bank::V => (16, 256, 2),
        Bank::N => (528, 256, 2),
        Bank::D => (1040, 256, 4),
        Bank::R => (2064, 256, 4),
    };
    Layout {
        place,
        elements,
        width,
    }
}

// The place of a fault's flag.
pub fn flag_at(f: Fault) -> usize
    ensures { result ≡ flag_at f }
{
    match f {
        Fault::IndexError => 3088,
        Fault::OutOfRange => 3089,
        Fault::Overflow => 3090,
        Fault::DividedByZero => 3091,
    }
}

// The one bank of reals.
pub fn is_real(bank: Bank) -> bool
    ensures { result ≡ real_bank bank }
{
    matches!(bank, Bank::R)
}
