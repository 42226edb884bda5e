// What a token's word says, asked of the word itself.
ghost use Rattle.std.specs.Prelude.{◌≡◌, ◌≤◌, ◌<◌, length};
ghost use Rattle.token_table.specs.private.Table.{word_at};
ghost use Rattle.draft.specs.private.Words.{is_leaf, is_mark, prefix_number, group_in, is_alone, place_at, Signs};

use operators::tables;
use token_table::classes;
use tokens::symbols;

// What `sign_of` gives for what is no unary operator of the text.
const NO_SIGN: u8 = 3;

// A number or a cell: their classes are those before LETTER.
pub fn is_leaf(w: u64) -> bool
    ensures { result ≡ is_leaf w }
{
    let class = token_table::class_of(w);
    class != classes::NONE && class < classes::LETTER
}

fn is_symbol(w: u64, n: u8) -> bool
    ensures { result ≡ is_mark n w }
{
    w % 65536 == (classes::SYMBOL as u64) + 256 * (n as u64)
}

// Whether the symbol n comes next.
pub fn expected(table: &[u64], at: usize, n: u8) -> bool
    ensures { result ≡ is_mark n (word_at table.now at) }
{
    is_symbol(token_table::word_at(table, at), n)
}

// The number of a unary operator of the text, or NO_SIGN.
pub fn sign_of(w: u64) -> u8
    ensures { result ≡ prefix_number w }
{
    if is_symbol(w, symbols::MINUS) {
        return tables::NEG;
    }
    if is_symbol(w, symbols::COMPLEMENT) {
        return tables::COMPLEMENT;
    }
    if is_symbol(w, symbols::NOT) {
        tables::NOT
    } else {
        NO_SIGN
    }
}

// The group of a binary operator, or 0.
pub fn group_in(w: u64) -> u8
    ensures { result ≡ group_in w }
{
    if token_table::class_of(w) == classes::SYMBOL {
        grammar::group_of(token_table::operand_of(w))
    } else {
        0
    }
}

// Whether a number or a cell at a position is the whole right side of an operator of the group g: no operator of a tighter group comes
// behind it.
pub fn is_alone(table: &[u64], at: usize, g: u8) -> bool
    requires { at < 65536 }
    ensures { result ≡ is_alone table.now at g }
{
    if !is_leaf(token_table::word_at(table, at)) {
        return false;
    }
    let behind = group_in(token_table::word_at(table, at + 1));
    behind == 0 || g <= behind
}

// The place of a token, or the text's size behind the last.
pub fn place_at(table: &[u64], at: usize, size: usize) -> usize
    ensures { result ≡ place_at size (word_at table.now at) }
{
    let w = token_table::word_at(table, at);
    if token_table::class_of(w) == classes::NONE {
        size
    } else {
        token_table::place_of(w)
    }
}

// Where the unary operators from a position on end.
pub fn signs_end(table: &[u64], at: usize) -> usize
    requires { at ≤ length table.now }
    ensures { Signs table.now at result }
{
    for i in at..table.len() {
        if NO_SIGN <= sign_of(table[i]) {
            return i;
        }
    }
    table.len()
}
