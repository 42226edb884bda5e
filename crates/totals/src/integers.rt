// Runs over the banks of integers: exact sums, MAX, MIN and counts in 32 bits.
ghost use Rattle.std.specs.Prelude.{◌≡◌, ◌+◌, ◌-◌, ◌+ℤ◌, T, false, true, MatchOption};
ghost use Rattle.values.specs.declared.Kind.TheVariants as K;
ghost use Rattle.values.specs.Integers.{in_range};
ghost use Rattle.memory.specs.Cells.{bank_kind, read_rule};
ghost use Rattle.memory.specs.Layout.{has_cell};
ghost use Rattle.totals.specs.declared.Step.TheVariants as S;
ghost use Rattle.totals.specs.private.Steps.{match_step, run_over};
ghost use Rattle.totals.specs.private.Integers.{MatchedBy, Enclosed, bounds_of, passes_in, is_wide, whole_of, whole_in, taken_of, no_cells};

use crate::Visited;
use crate::ranges::WholeCells;
use memory::{Bank, cells};
use values::{ChoiceOp, CompareOp, Fault, Outcome, Value};

// Of an integer; these banks have no real.
fn whole_of(v: Value) -> i32
    ensures { result ≡ whole_of v }
{
    match v {
        Value::Int(z) => z,
        Value::Real(_) => 0,
    }
}

// A cell that the image has.
pub fn whole_at(image: &[u8], bank: Bank, element: u32) -> i32
    requires { T (has_cell image.now bank element) }
    ensures { result ≡ whole_in (read_rule image.now bank element) }
{
    match cells::read_present(image, bank, element) {
        Outcome::Done(v) => whole_of(v),
        Outcome::Stopped(_) => 0,
        Outcome::WrongKind => 0,
    }
}

// Of an image that has none of the cells.
pub fn no_cells() -> Visited
    ensures { result ≡ no_cells }
{
    crate::ended(Outcome::Stopped(Fault::IndexError), 1)
}

// A run over a bank of integers, with an arm for each, so that its layout is known in the loop. R is none of them. A closure in the place of
// the call loses that: 200,000 sums of V then take 267 million instructions where they take 74 million here.
macro_rules! in_bank {
    ($bank:expr, $run:ident($($argument:expr),*)) => {
        match $bank {
            memory::Bank::X => $run(memory::Bank::X, $($argument),*),
            memory::Bank::C => $run(memory::Bank::C, $($argument),*),
            memory::Bank::V => $run(memory::Bank::V, $($argument),*),
            memory::Bank::N => $run(memory::Bank::N, $($argument),*),
            memory::Bank::D => $run(memory::Bank::D, $($argument),*),
            memory::Bank::R => $crate::integers::no_cells(),
        }
    };
}

pub(crate) use in_bank;

// Whether the image has them: of another size it has no cell. The last one is asked for, and then every cell can be read.
pub fn are_in(image: &[u8], bank: Bank, cells: WholeCells) -> bool
    ensures { result ≡ has_cell image.now bank (cells.first + (cells.count - 1)) }
{
    memory::cells::has_cell(image, bank, cells.first + (cells.count - 1))
}

// Whether a cell may hold more than 16 bits.
pub fn is_wide(bank: Bank) -> bool
    ensures { result ≡ is_wide bank }
{
    matches!(bank, Bank::D | Bank::R)
}

// A sum with one cell more, if it stays within 32 bits; the sums of the narrow banks always do. A function of its own, since LLVM works on
// it before the loop is written out for each bank: there it makes of the test the addition's own flag. In the loop it does not, and a cell
// of D takes ten instructions in place of six.
fn added(wide: bool, a: i32, z: i32) -> Option<i32>
    requires { wide ≡ false → in_range (a +ℤ z) ≡ true }
    ensures { MatchOption result (in_range (a +ℤ z) ≡ false) (λ sum. (sum ≡ a +ℤ z) × (in_range (a +ℤ z) ≡ true)) }
{
    let sum = (a as i64) + (z as i64);
    if wide {
        if !values::integers::in_range(sum) {
            return None;
        }
    }
    Some(sum as i32)
}

// SUMR. It ends where a sum leaves 32 bits, which one more cell could bring back.
fn sum_of(bank: Bank, image: &[u8], cells: WholeCells) -> Visited
    requires { bank ≡ cells.bank }
    ensures { result ≡ run_over S.Add K.Int (read_rule image.now cells.bank) cells.first cells.count }
{
    if !are_in(image, bank, cells) {
        return no_cells();
    }
    let wide = is_wide(bank);
    let mut a: i32 = 0;
    for k in 0..cells.count {
        match added(wide, a, whole_at(image, bank, cells.first + k)) {
            Some(sum) => a = sum,
            None => return crate::ended(Outcome::Stopped(Fault::Overflow), k + 1),
        }
    }
    crate::ended(Outcome::Done(Value::Int(a)), cells.count)
}

pub fn sum(image: &[u8], cells: WholeCells) -> Visited
    ensures { result ≡ run_over S.Add K.Int (read_rule image.now cells.bank) cells.first cells.count }
{
    in_bank!(cells.bank, sum_of(image, cells))
}

// MAXR and MINR.
fn choose_of(bank: Bank, o: ChoiceOp, image: &[u8], cells: WholeCells) -> Visited
    requires { bank ≡ cells.bank }
    ensures { result ≡ run_over (S.Choose o) K.Int (read_rule image.now cells.bank) cells.first cells.count }
{
    if !are_in(image, bank, cells) {
        return no_cells();
    }
    let mut a = whole_at(image, bank, cells.first);
    for k in 0..cells.count {
        let z = whole_at(image, bank, cells.first + k);
        a = values::integers::choose(o, a, z);
    }
    crate::ended(Outcome::Done(Value::Int(a)), cells.count)
}

// An arm for each of the two, so that no cell asks which one is wanted.
pub fn choose(o: ChoiceOp, image: &[u8], cells: WholeCells) -> Visited
    ensures { result ≡ run_over (S.Choose o) K.Int (read_rule image.now cells.bank) cells.first cells.count }
{
    match o {
        ChoiceOp::Max => in_bank!(cells.bank, choose_of(ChoiceOp::Max, image, cells)),
        ChoiceOp::Min => in_bank!(cells.bank, choose_of(ChoiceOp::Min, image, cells)),
    }
}

// What a cell that passes adds.
pub fn taken_of(counts: bool, z: i32) -> i32
    ensures { result ≡ taken_of counts z }
{
    if counts { 1 } else { z }
}

const LEAST: i32 = -2147483648;

const GREATEST: i32 = 2147483647;

// The integers that compare so with a value: those from the least to the greatest, or all others.
#[derive(Clone, Copy)]
struct Bounds {
    least: i32,
    greatest: i32,
    outside: bool,
}

// Of a value by the integers next to it: low is the least that is not less, high the greatest that is not greater.
fn bounds_of(o: CompareOp, low: i32, high: i32) -> Bounds
    ensures { result ≡ bounds_of o low high }
{
    match o {
        CompareOp::Lt => Bounds {
            least: low,
            greatest: GREATEST,
            outside: true,
        },
        CompareOp::Gt => Bounds {
            least: LEAST,
            greatest: high,
            outside: true,
        },
        CompareOp::Le => Bounds {
            least: LEAST,
            greatest: high,
            outside: false,
        },
        CompareOp::Ge => Bounds {
            least: low,
            greatest: GREATEST,
            outside: false,
        },
        CompareOp::Eq => Bounds {
            least: low,
            greatest: high,
            outside: false,
        },
        CompareOp::Ne => Bounds {
            least: low,
            greatest: high,
            outside: true,
        },
    }
}

impl Bounds {
    fn passes(self, z: i32) -> bool
        ensures { result ≡ passes_in self.least self.greatest self.outside z }
    {
        if z < self.least {
            return self.outside;
        }
        if self.greatest < z {
            return self.outside;
        }
        !self.outside
    }
}

// COUNTIF and SUMIF, of any comparison that has these bounds: no cell asks which one it is.
fn matching_of(bank: Bank, counts: bool, bounds: Bounds, image: &[u8], cells: WholeCells) -> Visited
    requires { bank ≡ cells.bank }
    ensures { MatchedBy bounds.least bounds.greatest bounds.outside counts (read_rule image.now cells.bank)
        cells.first cells.count result }
{
    if !are_in(image, bank, cells) {
        return no_cells();
    }
    let wide = is_wide(bank);
    let mut a: i64 = 0;
    for k in 0..cells.count {
        let z = whole_at(image, bank, cells.first + k);
        if bounds.passes(z) {
            a += taken_of(counts, z) as i64;
            if wide {
                if !values::integers::in_range(a) {
                    return crate::ended(Outcome::Stopped(Fault::Overflow), k + 1);
                }
            }
        }
    }
    let held = a as i32;
    crate::ended(Outcome::Done(Value::Int(held)), cells.count)
}

// Whatever the value is, an integer or a real: the integers next to it are all that cells are compared with.
pub fn matching(
    counts: bool,
    o: CompareOp,
    low: i32,
    high: i32,
    image: &[u8],
    cells: WholeCells,
) -> Visited
    ensures { (v : Value) → Enclosed low high v
        → result ≡ run_over (match_step counts o v) K.Int (read_rule image.now cells.bank) cells.first cells.count }
{
    let bounds = bounds_of(o, low, high);
    in_bank!(cells.bank, matching_of(counts, bounds, image, cells))
}
