// Where the value of a run, or a given one, goes: the cell or the element that an index names, and the answer and the flag that follow. `operations`
// calls these functions, behind the tests that they ask for.
#![tactic(auto)]

ghost use Rattle.std.specs.Prelude.{◌≡◌, true, ℕ, ◌≤◌};
ghost use Rattle.memory.specs.Store.{is_finite, with_flag};
ghost use Rattle.targets.specs.declared.Element.TheVariants.{By};
ghost use Rattle.delivery.specs.Delivery.{after_store, reached, arrived_answer, arrived_memory, follow_answer, follow_memory};
ghost use Rattle.delivery.specs.Delivery.{finished, memory_after, given_value};
ghost use Rattle.delivery.specs.Profile.{arrival_for, index_passes_for, unstorable};
ghost use Rattle.delivery.specs.private.Bounds.{most_begun, Few, FiniteEnd, Storable, StorableEnd};

use machine::{Ended, Ran};
use memory::{Bank, cells};
use targets::Element;
use values::{Fault, Value};

// Done with a value, a count and a cell: after a run what its instructions counted, the cells that they visited included, and the cell
// stored to. A fault and what was counted until then; or a refusal's number and place.
#[derive(Clone, Copy)]
pub enum Answer {
    Done(Value, usize, Bank, u32),
    Fault(Fault, usize),
    Refused(u32, usize),
}

pub fn flagged(memory: &mut [u8], f: Fault, count: usize) -> Answer
    ensures { (result ≡ Answer.Fault f count) × (memory.new ≡ with_flag memory.old f) }
{
    memory::store::set_flag(memory, f);
    Answer::Fault(f, count)
}

// The answer after a store. Each way calls the store itself: a function around both would give the whole answer back through memory.
pub fn after_store(s: Result<(), Fault>, v: Value, count: usize, bank: Bank, element: u32) -> Answer
    ensures { result ≡ after_store v count bank element s }
{
    match s {
        Ok(()) => Answer::Done(v, count, bank, element),
        Err(f) => Answer::Fault(f, count),
    }
}

// The index was worked out: its element, or its fault.
fn arrived(memory: &mut [u8], bank: Bank, end: Ended, v: Value, count: usize, reals: bool) -> Answer
    requires { StorableEnd reals bank end × Storable reals bank v }
    ensures value { result ≡ arrived_answer memory.old v count (reached bank end) }
    ensures memory_after { memory.new ≡ arrived_memory memory.old v (reached bank end) }
{
    match end {
        Ended::Done(index) => match cells::position_in(bank, index, reals) {
            Ok(i) => {
                let s = memory::store::store_in(memory, bank, i, v, reals);
                after_store(s, v, count, bank, i)
            }
            Err(f) => flagged(memory, f, count),
        },
        Ended::Stopped(f) => flagged(memory, f, count),
        Ended::Stuck => Answer::Refused(15, 0),
    }
}

// A value that so many instructions gave goes to the element of its bank that k instructions of the index code give.
pub fn to_element(
    memory: &mut [u8],
    bank: Bank,
    index: &[u8],
    k: usize,
    v: Value,
    count: usize,
    tick: u32,
    reals: bool,
) -> Answer
    requires { (k ≤ 2048) × (count ≤ most_begun) × (is_finite v ≡ true) × Storable reals bank v }
    ensures value { result ≡ follow_answer memory.old v count (arrival_for reals tick index.now memory.old bank (By k)) }
    ensures memory_after { memory.new ≡ follow_memory memory.old v
        (arrival_for reals tick index.now memory.old bank (By k)) }
{
    let ran = machine::run_in(index, k, memory, tick, reals);
    let end = ran.end;
    arrived(memory, bank, end, v, count + ran.count, reals)
}

// After a run: its value goes to the target, or its fault sets its flag. No run of bytes gives an infinity or a NaN, nor,
// without reals, a real, so none is looked for.
pub fn finish(
    memory: &mut [u8],
    bank: Bank,
    element: Element,
    index: &[u8],
    ran: Ran,
    tick: u32,
    reals: bool,
) -> Answer
    requires { Few element × (ran.count ≤ most_begun) × FiniteEnd ran.end × StorableEnd reals bank ran.end }
    ensures value { result ≡ finished memory.old (arrival_for reals tick index.now memory.old bank element)
        ran.end ran.count }
    ensures memory_after { memory.new ≡ memory_after memory.old (arrival_for reals tick index.now memory.old bank element)
        ran.end }
{
    let count = ran.count;
    let end = ran.end;
    match end {
        Ended::Done(v) => match element {
            Element::Is(i) => {
                let s = memory::store::store_in(memory, bank, i, v, reals);
                after_store(s, v, count, bank, i)
            }
            Element::By(k) => to_element(memory, bank, index, k, v, count, tick, reals),
        },
        Ended::Stopped(fault) => flagged(memory, fault, count),
        Ended::Stuck => Answer::Refused(15, 0),
    }
}

// A plain cell has no index code to check.
pub fn index_passes(element: Element, index: &[u8], reals: bool) -> bool
    ensures { result ≡ index_passes_for reals index.now element }
{
    match element {
        Element::Is(_) => true,
        Element::By(k) => verifier::accepts_in(index, k, reals),
    }
}

// A value comes from a caller as a kind and a pattern; any kind but 0 is a real.
pub fn is_finite_given(kind: u32, bits: u32) -> bool
    ensures { result ≡ is_finite (given_value kind bits) }
{
    if kind == 0 {
        return true;
    }
    values::patterns::is_finite_single(bits)
}

// Without reals one is not stored.
pub fn is_unstorable(kind: u32, reals: bool) -> bool
    ensures { (bits : ℕ) → result ≡ unstorable reals (given_value kind bits) }
{
    if reals {
        return false;
    }
    kind != 0
}

pub fn given(kind: u32, bits: u32) -> Value
    requires { is_finite (given_value kind bits) ≡ true }
    ensures { result ≡ given_value kind bits }
{
    if kind == 0 {
        return Value::Int(values::patterns::from_pattern(bits));
    }
    Value::Real(f32::from_bits(bits))
}
