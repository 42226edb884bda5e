// Ranges of cells: which are good, and the count that stands in the code. A count is the pattern of the one typed: below zero it is
// none of the good ones either.
ghost use Rattle.std.specs.Prelude.{◌≡◌, T, false, MatchOption};
ghost use Rattle.values.specs.declared.Kind.TheVariants as K;
ghost use Rattle.memory.specs.declared.Bank.TheVariants as B;
ghost use Rattle.memory.specs.Cells.{bank_kind};
ghost use Rattle.totals.specs.Totals.{range_within, good_range, span_within};

use memory::Bank;

// Whether so many cells from the first on lie within a bank of so many elements.
pub fn is_within(elements: u32, first: u32, count: u32) -> bool
    ensures { result ≡ range_within elements first count }
{
    if count < 1 {
        return false;
    }
    if elements < first {
        return false;
    }
    count <= elements - first
}

pub fn is_good(bank: Bank, first: u32, count: u32) -> bool
    ensures { result ≡ good_range bank first count }
{
    is_within(memory::layout_of(bank).elements, first, count)
}

// The count that stands in the code.
pub fn span_of(elements: u32, first: u32, count: u32) -> u32
    ensures { result ≡ span_within elements first count }
{
    if is_within(elements, first, count) {
        count
    } else {
        1
    }
}

// So many cells of a bank from the first on, all of which it has.
#[derive(Clone, Copy)]
pub struct Cells {
    pub bank: Bank,
    pub first: u32,
    pub count: u32,
    pub ghost good: { T (good_range bank first count) },
}

impl Cells {
    // None where the range is not good.
    pub fn new(bank: Bank, first: u32, count: u32) -> Option<Cells>
        ensures { MatchOption result (good_range bank first count ≡ false)
            (λ cells. (cells.bank ≡ bank) × (cells.first ≡ first) × (cells.count ≡ count)) }
    {
        if is_good(bank, first, count) {
            Some(Cells { bank, first, count })
        } else {
            None
        }
    }
    // None where the bank is R.
    pub fn whole(self) -> Option<WholeCells>
        ensures { MatchOption result (self.bank ≡ B.R)
            (λ whole. (whole.bank ≡ self.bank) × (whole.first ≡ self.first) × (whole.count ≡ self.count)) }
    {
        let Cells { bank, first, count } = self;
        if memory::is_real(bank) {
            None
        } else {
            Some(WholeCells { bank, first, count })
        }
    }
}

// As `Cells`, of a bank of integers.
#[derive(Clone, Copy)]
pub struct WholeCells {
    pub bank: Bank,
    pub first: u32,
    pub count: u32,
    pub ghost good: { T (good_range bank first count) },
    pub ghost whole: { bank_kind bank ≡ K.Int },
}
