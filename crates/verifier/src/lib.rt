// The verifier: one pass over the code, with the kinds of the values held as its state.
#![tactic(auto)]

ghost use Rattle.std.specs.Prelude.{◌≡◌, Bool, true, ℕ, ◌-◌, ◌<◌, ◌≤◌, List, length};
ghost use Rattle.code.specs.declared.Instr.TheVariants.{Jump, JumpIf};
ghost use Rattle.code.specs.Instructions.{word_of, instruction_of, instructions};
ghost use Rattle.verifier.specs.Accepts.{CorrectVerdict};
ghost use Rattle.verifier.specs.Verdicts.{is_accepted};
ghost use Rattle.verifier.specs.Profile.{CorrectVerdictIn, verdict_in};
ghost use Rattle.verifier.specs.private.Shapes.{holds, kinds_of, state_of, brought_to, ArrayHolds, Carries, Blank};
ghost use Rattle.verifier.specs.private.Pass.{Steps, Skips, all_admitted, verdict_of};

mod double_word;
mod kinds;
mod packing;
mod places;
mod typing;

use code::Class;
use double_word::DoubleWord;
use operators::kinds::INT;
use packing::Held;
use places::Brought;
use typing::Flow;
use values::Kind;

// A jump leads to its target alone.
fn jump(w: u64, held: Held, next: usize, brought: &mut Brought<'_>) -> Flow
    requires { next ≤ brought.old.end }
    ensures array { (a : List ℕ) → length a ≡ 128 → Carries a result }
    ensures same_end { brought.new.end ≡ brought.old.end }
    ensures steps { Steps true (Jump (word_of w)) (brought.old.end - next) next (kinds_of held) (brought_to brought.old) (state_of result)
        (brought_to brought.new) }
{
    if !kinds::stays(w, brought.end - next) {
        return Flow::Refused;
    }
    if brought.merge(next + (code::word_of(w) as usize), &held) {
        Flow::Left
    } else {
        Flow::Refused
    }
}

// A jump on a value takes it, and leads to its target and to the next place.
fn fork(w: u64, kinds: &mut [u8; 128], held: Held, next: usize, brought: &mut Brought<'_>) -> Flow
    requires array { ArrayHolds kinds.old held }
    requires inside { next ≤ brought.old.end }
    ensures array { Carries kinds.new result }
    ensures same_end { brought.new.end ≡ brought.old.end }
    ensures steps { (t : Bool) → Steps true (JumpIf t (word_of w)) (brought.old.end - next) next (kinds_of held) (brought_to brought.old)
        (state_of result) (brought_to brought.new) }
{
    if held.height < 1 {
        return Flow::Refused;
    }
    if !kinds::stays(w, brought.end - next) {
        return Flow::Refused;
    }
    let rest = held.popped();
    rest.note(kinds);
    if brought.merge(next + (code::word_of(w) as usize), &rest) {
        Flow::On(rest)
    } else {
        Flow::Refused
    }
}

// From the values held at a place to what flows from it into the next. The number is the instruction's. In the profile without reals (reals
// false) what reads R or leaves a real is refused. Where the kind of the last is read, the height is tested before.
fn step(
    w: u64,
    kinds: &mut [u8; 128],
    held: Held,
    next: usize,
    brought: &mut Brought<'_>,
    reals: bool,
) -> Flow
    requires array { ArrayHolds kinds.old held }
    requires admitted { all_admitted reals (kinds_of held) ≡ true }
    requires inside { next ≤ brought.old.end }
    ensures array { Carries kinds.new result }
    ensures same_end { brought.new.end ≡ brought.old.end }
    ensures steps { Steps reals (instruction_of w) (brought.old.end - next) next (kinds_of held) (brought_to brought.old) (state_of result)
        (brought_to brought.new) }
{
    match code::class_of(w) {
        Class::PushInt => typing::push(kinds, held, INT, reals),
        Class::PushReal => typing::push(kinds, held, kinds::real_kind(w), reals),
        Class::Jump => jump(w, held, next, brought),
        Class::JumpIfFalse | Class::JumpIfTrue => fork(w, kinds, held, next, brought),
        Class::Tick => typing::push(kinds, held, kinds::tick_kind(w), reals),
        Class::Since => {
            if held.height < 1 {
                return Flow::Refused;
            }
            let k = kinds::since_kind(w, held.last(kinds));
            typing::replace(kinds, held, k, reals)
        }
        Class::Load => typing::push(kinds, held, kinds::load_kind(w), reals),
        Class::LoadIndexed => typing::replace(kinds, held, kinds::indexed_kind(w), reals),
        Class::Unary => {
            if held.height < 1 {
                return Flow::Refused;
            }
            let k = kinds::unary_kind(w, held.last(kinds));
            typing::replace(kinds, held, k, reals)
        }
        Class::Binary => {
            if held.height < 2 {
                return Flow::Refused;
            }
            let k = kinds::binary_kind(w, held.second(), held.last(kinds));
            typing::replace_two(kinds, held, k, reals)
        }
        Class::Total => typing::push(kinds, held, kinds::total_kind(w), reals),
        Class::Match => typing::matching(kinds, held, w, reals),
        Class::Unknown => Flow::Refused,
    }
}

// From a place that nothing flows into, over instructions that are known, to one that jumps come to. Where it ends at another, there is
// none, or an instruction on the way is not known.
fn skipped(code: &[u8], from: usize, brought: &Brought<'_>, reals: bool) -> usize
    requires { from ≤ brought.now.end }
    ensures { Skips reals code.now brought.now.end (brought_to brought.now) from result }
{
    for place in from..brought.end {
        if brought.at(place).is_some() {
            return place;
        }
        if !kinds::known_in(code::fetch(code, place), brought.end - place - 1, reals) {
            return place;
        }
    }
    brought.end
}

// The end has one value.
fn ended(held: Held) -> Option<Kind>
    ensures { result ≡ verdict_of (holds (kinds_of held)) }
{
    if held.height == 1 {
        return Some(typing::kind(held.lowest()));
    }
    None
}

// The pass over the first n instructions, with tables that have a place for each of them and for the end. The place is counted by hand, since
// it leaps over what is skipped.
fn checked(
    code: &[u8],
    n: usize,
    tops: &mut [u8],
    bits: &mut [DoubleWord],
    reals: bool,
) -> Option<Kind>
    requires some { (0 < n) × (n ≤ 2048) }
    requires blank { Blank n tops.old bits.old }
    ensures { CorrectVerdictIn reals code.now n result }
{
    if code.len() / 8 < n {
        return None;
    }
    let mut brought = Brought::blank(n, tops, bits);
    let mut kinds = [0u8; 128];
    let mut held = Held::none();
    let mut place: usize = 0;
    while place < n {
        let w = code::fetch(code, place);
        place += 1;
        match step(w, &mut kinds, held, place, &mut brought, reals) {
            Flow::Refused => return None,
            Flow::Left => {
                place = skipped(code, place, &brought, reals);
                match brought.at(place) {
                    Some(there) => {
                        there.note(&mut kinds);
                        held = there;
                    }
                    None => return None,
                }
            }
            Flow::On(kept) => {
                if !brought.agree(place, &kept) {
                    return None;
                }
                held = kept;
            }
        }
    }
    ended(held)
}

// Short code gets short tables, since clearing long ones would take longer than the pass, and the tables of a size that is not wanted have
// no part in the frame. The code is lent anew, `&code[..]`: the reference itself would be copied as one word of 16 bytes, which waits for the
// two of eight that its caller has just stored.
fn within<const N: usize>(code: &[u8], n: usize, reals: bool) -> Option<Kind>
    requires { (0 < n) × (n < N) × (N ≤ 2049) }
    ensures { CorrectVerdictIn reals code.now n result }
{
    let mut tops = [0u8; N];
    let mut bits = [DoubleWord::zero(); N];
    checked(&code[..], n, &mut tops, &mut bits, reals)
}

// Under 129 instructions, in a small frame. It and `long` have two callers each and four sizes of tables, so that they are not made a part
// of either caller, up to an inline threshold of 500.
fn short(code: &[u8], n: usize, reals: bool) -> Option<Kind>
    requires { n < 129 }
    ensures { CorrectVerdictIn reals code.now n result }
{
    if n == 0 {
        return None;
    }
    if n < 16 {
        return within::<16>(code, n, reals);
    }
    if n < 32 {
        return within::<32>(code, n, reals);
    }
    if n < 64 {
        return within::<64>(code, n, reals);
    }
    within::<129>(code, n, reals)
}

fn long(code: &[u8], n: usize, reals: bool) -> Option<Kind>
    requires { 0 < n }
    ensures { CorrectVerdictIn reals code.now n result }
{
    if n < 257 {
        return within::<257>(code, n, reals);
    }
    if n < 513 {
        return within::<513>(code, n, reals);
    }
    if n < 1025 {
        return within::<1025>(code, n, reals);
    }
    if n < 2049 {
        return within::<2049>(code, n, reals);
    }
    None
}

// The first n instructions of the code.
pub fn check_in(code: &[u8], n: usize, reals: bool) -> Option<Kind>
    ensures { result ≡ verdict_in reals (instructions code.now n) }
{
    if n < 129 {
        short(code, n, reals)
    } else {
        long(code, n, reals)
    }
}

// The check of the full box.
pub fn check(code: &[u8], n: usize) -> Option<Kind>
    ensures { CorrectVerdict code.now n result }
{
    check_in(code, n, true)
}

fn is_accepted(verdict: Option<Kind>) -> bool
    ensures { result ≡ is_accepted verdict }
{
    matches!(verdict, Some(_))
}

// The same for a caller that does not ask for the kind.
pub fn accepts_in(code: &[u8], n: usize, reals: bool) -> bool
    ensures { result ≡ is_accepted (verdict_in reals (instructions code.now n)) }
{
    if n < 129 {
        is_accepted(short(code, n, reals))
    } else {
        is_accepted(long(code, n, reals))
    }
}
