// The grammar of formulas. Its code is the table of precedence groups and that of the functions; its definitions and theorems are in specs/ and proofs/.
#![tactic(auto)]

ghost use Rattle.std.specs.Prelude.{◌≡◌};
ghost use Rattle.grammar.specs.Symbols.{group_number};

pub mod functions;

// The precedence groups of the binary operators, which are the first symbols: 1 is the tightest.
const GROUPS: [u8; 20] = [1, 2, 2, 2, 3, 3, 4, 4, 4, 5, 5, 5, 5, 6, 6, 7, 8, 9, 10, 11];

// 0 for a symbol that is no binary operator. Each arm reads the table at a literal, so that it is a constant: at a variable the whole
// table would be copied at every use.
#[tactic(auto, unfolding(crate::specs::Symbols::group_number))]
pub fn group_of(symbol: u8) -> u8
    ensures { result ≡ group_number symbol }
{
    match symbol {
        0 => GROUPS[0],
        1 => GROUPS[1],
        2 => GROUPS[2],
        3 => GROUPS[3],
        4 => GROUPS[4],
        5 => GROUPS[5],
        6 => GROUPS[6],
        7 => GROUPS[7],
        8 => GROUPS[8],
        9 => GROUPS[9],
        10 => GROUPS[10],
        11 => GROUPS[11],
        12 => GROUPS[12],
        13 => GROUPS[13],
        14 => GROUPS[14],
        15 => GROUPS[15],
        16 => GROUPS[16],
        17 => GROUPS[17],
        18 => GROUPS[18],
        19 => GROUPS[19],
        _ => 0,
    }
}
