// What an instruction makes of the kinds of the values held.
ghost use Rattle.std.specs.Prelude.{◌≡◌, true, length};
ghost use Rattle.code.specs.declared.Class.TheVariants.{Match};
ghost use Rattle.code.specs.private.Classes.{instr_in};
ghost use Rattle.verifier.specs.private.Shapes.{number_kind, kind_limit, kinds_of, push_under, replace_under, replace_two_under, Leaves};
ghost use Rattle.verifier.specs.private.Pass.{all_admitted, admitted_move};

use crate::kinds;
use crate::packing::Held;
use operators::kinds::{INT, NOT_TAKEN, REAL};
use values::Kind;

// What flows on from an instruction into the next place: nothing, since the code is refused or since the next place is not reached from here,
// or these values.
#[derive(Clone, Copy)]
pub enum Flow {
    Refused,
    Left,
    On(Held),
}

pub fn kind(n: u8) -> Kind
    ensures { result ≡ number_kind n }
{
    if n == INT { Kind::Int } else { Kind::Real }
}

// What is less is a kind that may be held. The choice is a constant at every entry, so that nothing is held without reals but integers,
// and no test is made that the full box does not make.
fn limit(reals: bool) -> u8
    ensures { result ≡ kind_limit reals }
{
    if reals { NOT_TAKEN } else { REAL }
}

// One value more, where there is room for it.
pub fn push(kinds: &mut [u8; 128], held: Held, n: u8, reals: bool) -> Flow
    requires { length kinds.old ≡ 128 }
    ensures { Leaves kinds.old kinds.new result (push_under (kind_limit reals) n (kinds_of held)) }
{
    if limit(reals) <= n || 128 <= held.height {
        return Flow::Refused;
    }
    kinds[held.height] = n;
    Flow::On(held.pushed(n))
}

// Another value for the last.
pub fn replace(kinds: &mut [u8; 128], held: Held, n: u8, reals: bool) -> Flow
    requires { length kinds.old ≡ 128 }
    ensures { Leaves kinds.old kinds.new result (replace_under (kind_limit reals) n (kinds_of held)) }
{
    if held.height < 1 || limit(reals) <= n {
        return Flow::Refused;
    }
    kinds[held.height - 1] = n;
    Flow::On(held.replaced(n))
}

// Another value for the last two.
pub fn replace_two(kinds: &mut [u8; 128], held: Held, n: u8, reals: bool) -> Flow
    requires { length kinds.old ≡ 128 }
    ensures { Leaves kinds.old kinds.new result (replace_two_under (kind_limit reals) n (kinds_of held)) }
{
    if held.height < 2 || limit(reals) <= n {
        return Flow::Refused;
    }
    kinds[held.height - 2] = n;
    Flow::On(held.popped().replaced(n))
}

// A match replaces its expression, unless its range is barred.
pub fn matching(kinds: &mut [u8; 128], held: Held, w: u64, reals: bool) -> Flow
    requires whole { length kinds.old ≡ 128 }
    requires admitted { all_admitted reals (kinds_of held) ≡ true }
    ensures { Leaves kinds.old kinds.new result (admitted_move reals (instr_in Match w) (kinds_of held)) }
{
    if kinds::is_barred(w, reals) {
        return Flow::Refused;
    }
    replace(kinds, held, kinds::match_kind(w), reals)
}
