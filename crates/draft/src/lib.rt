// Instructions as words, written into a draft: what follows the parts of a formula. A jump is filled in when what it skips has been written; nothing is
// written behind the draft's end.
#![tactic(auto)]

ghost use Rattle.std.specs.Prelude.{◌≡◌, false, ◌+◌, ◌-◌, ◌<◌, ◌≤◌, eqb, length, set};
ghost use Rattle.values.specs.declared.Kind.TheVariants.{Int};
ghost use Rattle.operators.specs.Kinds.{is_int, join, number_kind, unary_kind, unary_takes, binary_kind};
ghost use Rattle.memory.specs.Cells.{bank_kind};
ghost use Rattle.token_table.specs.private.Table.{word_class, word_operand, word_number, word_place};
ghost use Rattle.grammar.specs.Functions.{function_form};
ghost use Rattle.grammar.specs.Tree.{clear, earlier, unless, wrong_kind_at};
ghost use Rattle.code.specs.declared.Instr.TheVariants.{LoadIndexed, Unary, Binary, JumpIf, Tick, Since};
ghost use Rattle.code.specs.Encode.{join_word};
ghost use Rattle.tree_code.specs.Code.{branch_tail, branch_tail_skip};
ghost use Rattle.draft.specs.private.Results.{Done, diagnosed, read_next, read_end, read_kind, read_wrong, read_of};
ghost use Rattle.draft.specs.private.Words.{unary_at, bank_at, function_op, function_pair, leaf_kind, leaf_opcode, prefix_number};
ghost use Rattle.draft.specs.private.Draft.{put_instr, put_code, reserved, settled_code, joined_code, joined_end, infix_kind, infix_wrong, chosen_code};

use code::{
    BINARY, JUMP, JUMP_IF_FALSE, LOAD, LOAD_INDEXED, PUSH_INT, PUSH_REAL, SINCE, TICK, UNARY,
};
use diagnostics::CLEAR;
use grammar::functions;
use memory::numbers;
use operators::kinds::NOT_TAKEN;
use operators::{kinds, tables};
use token_table::classes;
use tokens::symbols::AND;

pub mod ahead;
pub mod diagnostics;
pub mod ranges;
pub mod results;

// One instruction.
pub fn put(draft: &mut [u64], place: usize, opcode: u32, word: u32)
    ensures { draft.new ≡ set draft.old place (join_word opcode word) }
{
    if place < draft.len() {
        draft[place] = code::join(opcode, word);
    }
}

// One instruction behind what was read, and what it makes of that.
fn added(draft: &mut [u64], before: u64, opcode: u32, kind: u8, wrong: u64) -> u64
    requires { (read_end before < 65535) × (kind < 2) × (wrong < 536870912) }
    ensures result_value { read_of result ≡ Done (read_next before) (read_end before + 1) (number_kind kind) (diagnosed wrong) }
    ensures draft_after { draft.new ≡ set draft.old (read_end before) (join_word opcode 0) }
{
    let end = results::end_of(before);
    put(draft, end, opcode, 0);
    results::done(results::next_of(before), end + 1, kind, wrong)
}

// A number or a cell by its opcode, and its kind.
fn pushed(draft: &mut [u64], w: u64, at: usize, pc: usize, opcode: u32, kind: u8) -> u64
    requires { (at < 65535) × (pc < 65535) × (kind < 2) }
    ensures result_value { read_of result ≡ Done (at + 1) (pc + 1) (number_kind kind) clear }
    ensures draft_after { draft.new ≡ set draft.old pc (join_word opcode (word_number w)) }
{
    put(draft, pc, opcode, token_table::number_of(w));
    results::done(at + 1, pc + 1, kind, CLEAR)
}

// A number or a cell. Its class is asked for once, for opcode and kind.
pub fn leaf(draft: &mut [u64], w: u64, at: usize, pc: usize) -> u64
    requires { (word_operand w < 6) × (at < 65535) × (pc < 65535) }
    ensures result_value { read_of result ≡ Done (at + 1) (pc + 1) (leaf_kind w) clear }
    ensures draft_after { draft.new ≡ set draft.old pc (join_word (leaf_opcode (word_class w) (word_operand w)) (word_number w)) }
{
    let class = token_table::class_of(w);
    if class == classes::INTEGER {
        return pushed(draft, w, at, pc, PUSH_INT, kinds::INT);
    }
    if class == classes::REAL {
        return pushed(draft, w, at, pc, PUSH_REAL, kinds::REAL);
    }
    let bank = token_table::operand_of(w) as u32;
    pushed(draft, w, at, pc, LOAD + bank, numbers::bank_kind(bank))
}

// An element of a bank, behind its index.
pub fn loaded(draft: &mut [u64], bank: u8, index: u64) -> u64
    requires { (bank < 6) × (read_end index < 65535) }
    ensures result_value { read_of result ≡ Done (read_next index) (read_end index + 1) (bank_kind (bank_at bank)) (read_wrong index) }
    ensures draft_after { draft.new ≡ put_instr draft.old (read_end index) (LoadIndexed (bank_at bank)) }
{
    let b = bank as u32;
    added(
        draft,
        index,
        LOAD_INDEXED + b,
        numbers::bank_kind(b),
        results::wrong_of(index),
    )
}

// The tick, of a call that ends before the token `next`.
pub fn ticked(draft: &mut [u64], next: usize, pc: usize) -> u64
    requires { (next < 65536) × (pc < 65535) }
    ensures result_value { read_of result ≡ Done next (pc + 1) Int clear }
    ensures draft_after { draft.new ≡ put_instr draft.old pc Tick }
{
    put(draft, pc, TICK, 0);
    results::done(next, pc + 1, kinds::INT, CLEAR)
}

// A unary operator before an operand. Most are a minus, which takes either kind and keeps it.
pub fn prefixed(draft: &mut [u64], w: u64, inner: u64) -> u64
    requires { (prefix_number w < 3) × (read_end inner < 65535) }
    ensures result_value { read_of result ≡ Done (read_next inner) (read_end inner + 1) (unary_kind (unary_at (prefix_number w)) (read_kind inner))
        (earlier (unless (unary_takes (unary_at (prefix_number w)) (read_kind inner)) (wrong_kind_at (word_place w))) (read_wrong inner)) }
    ensures draft_after { draft.new ≡ put_instr draft.old (read_end inner) (Unary (unary_at (prefix_number w))) }
{
    let sign = ahead::sign_of(w);
    let op = sign as u32;
    if sign == tables::NEG {
        return added(
            draft,
            inner,
            UNARY + op,
            results::kind_of(inner),
            results::wrong_of(inner),
        );
    }
    let kind = kinds::unary_kind(op, results::kind_of(inner));
    let here = diagnostics::wrong_at(kind < NOT_TAKEN, w);
    let wrong = diagnostics::earlier(here, results::wrong_of(inner));
    added(draft, inner, UNARY + op, kind % NOT_TAKEN, wrong)
}

// A function of one argument.
pub fn applied(draft: &mut [u64], f: u8, first: u64) -> u64
    requires { (function_form f ≡ 1) × (read_end first < 65535) }
    ensures result_value { read_of result ≡ Done (read_next first) (read_end first + 1) (unary_kind (function_op f) (read_kind first)) (read_wrong first) }
    ensures draft_after { draft.new ≡ put_instr draft.old (read_end first) (Unary (function_op f)) }
{
    let op = functions::operator(f) as u32;
    let kind = kinds::unary_kind(op, results::kind_of(first));
    added(
        draft,
        first,
        UNARY + op,
        kind % NOT_TAKEN,
        results::wrong_of(first),
    )
}

// SINCE, whose word is w, of its argument.
pub fn since(draft: &mut [u64], w: u64, first: u64) -> u64
    requires { read_end first < 65535 }
    ensures result_value { read_of result ≡ Done (read_next first) (read_end first + 1) Int
        (earlier (unless (is_int (read_kind first)) (wrong_kind_at (word_place w))) (read_wrong first)) }
    ensures draft_after { draft.new ≡ put_instr draft.old (read_end first) Since }
{
    let kind = kinds::of_integer(results::kind_of(first));
    let here = diagnostics::wrong_at(kind < NOT_TAKEN, w);
    let wrong = diagnostics::earlier(here, results::wrong_of(first));
    added(draft, first, SINCE, kinds::INT, wrong)
}

// A function of two arguments.
pub fn paired(draft: &mut [u64], f: u8, first: u64, second: u64) -> u64
    requires { (function_form f ≡ 2) × (read_end second < 65535) }
    ensures result_value { read_of result ≡ Done (read_next second) (read_end second + 1) (binary_kind (function_pair f) (read_kind first) (read_kind second))
        (earlier (read_wrong first) (read_wrong second)) }
    ensures draft_after { draft.new ≡ put_instr draft.old (read_end second) (Binary (function_pair f)) }
{
    let op = functions::operator(f) as u32;
    let kind = kinds::binary_kind(op, results::kind_of(first), results::kind_of(second));
    let wrong = diagnostics::earlier(results::wrong_of(first), results::wrong_of(second));
    added(draft, second, BINARY + op, kind % NOT_TAKEN, wrong)
}

// The place that a binary operator needs before its right side: && and ||, the last binary operators of the text, jump over that.
pub fn reserve(n: u8) -> usize
    ensures { result ≡ reserved n }
{
    if n < AND { 0 } else { 1 }
}

// After both sides of && (d is 0) or || (d is 1): the jump at j over the right side, which ends at k, and what makes 0 or 1 of it.
fn settle(draft: &mut [u64], j: usize, k: usize, d: u32)
    requires { (d < 2) × (j < k) × (k < 65000) }
    ensures { draft.new ≡ settled_code draft.old j k (eqb d 1) }
{
    put(draft, j, JUMP_IF_FALSE + d, (k - j + 2) as u32);
    put(draft, k, JUMP_IF_FALSE + d, 2);
    put(draft, k + 1, PUSH_INT, 1 - d);
    put(draft, k + 2, JUMP, 1);
    put(draft, k + 3, PUSH_INT, d);
}

// What follows the sides of a binary operator, whose word is w.
pub fn joined(draft: &mut [u64], w: u64, left: u64, right: u64) -> u64
    requires { (word_operand w < 20) × (read_end left + reserved (word_operand w) ≤ read_end right) × (read_end right < 65000) }
    ensures result_value { read_of result ≡ Done (read_next right) (joined_end (word_operand w) (read_end right))
        (infix_kind (word_operand w) (read_kind left) (read_kind right)) (earlier (infix_wrong (word_operand w) (word_place w) (read_kind left) (read_kind right))
        (earlier (read_wrong left) (read_wrong right))) }
    ensures draft_after { draft.new ≡ joined_code draft.old (word_operand w) (read_end left) (read_end right) }
{
    let n = token_table::operand_of(w);
    let inner = diagnostics::earlier(results::wrong_of(left), results::wrong_of(right));
    if AND <= n {
        let end = results::end_of(right);
        settle(draft, results::end_of(left), end, (n - AND) as u32);
        return results::done(results::next_of(right), end + 4, kinds::INT, inner);
    }
    let op = n as u32;
    let kind = kinds::binary_kind(op, results::kind_of(left), results::kind_of(right));
    let here = diagnostics::wrong_at(kind < NOT_TAKEN, w);
    added(
        draft,
        right,
        BINARY + op,
        kind % NOT_TAKEN,
        diagnostics::earlier(here, inner),
    )
}

// How many instructions of what follows the branches of IF the first branch skips.
fn skipped(first: u8, second: u8) -> usize
    requires { (first < 2) × (second < 2) }
    ensures { result ≡ branch_tail_skip (number_kind first) (number_kind second) }
{
    if first == second { 0 } else { 1 }
}

// What promotes an integer branch of IF beside a real one, and where it ends.
fn promoted(draft: &mut [u64], k: usize, first: u8, second: u8) -> usize
    requires { (k < 65000) × (first < 2) × (second < 2) }
    ensures value { result ≡ k + length (branch_tail (number_kind first) (number_kind second)) }
    ensures draft_after { draft.new ≡ put_code draft.old k (branch_tail (number_kind first) (number_kind second)) }
{
    if first == second {
        return k;
    }
    let to_real = UNARY + (tables::TO_REAL as u32);
    if first == kinds::INT {
        put(draft, k, JUMP, 1);
        put(draft, k + 1, to_real, 0);
        return k + 2;
    }
    put(draft, k, to_real, 0);
    k + 1
}

// After the condition of IF, at whose end a place was kept: the jump over the first branch.
pub fn decided(draft: &mut [u64], condition: u64, first: u64)
    requires { read_end condition < read_end first }
    ensures { draft.new ≡ put_instr draft.old (read_end condition) (JumpIf false (read_end first - read_end condition)) }
{
    let j = results::end_of(condition);
    put(draft, j, JUMP_IF_FALSE, (results::end_of(first) - j) as u32);
}

// After the branches of IF: the jump from the first over the second.
pub fn chosen(draft: &mut [u64], condition: u64, first: u64, second: u64) -> u64
    requires { (read_end first < read_end second) × (read_end second < 65000) }
    ensures result_value { read_of result ≡ Done (read_next second) (read_end second + length (branch_tail (read_kind first) (read_kind second)))
        (join (read_kind first) (read_kind second)) (earlier (read_wrong condition) (earlier (read_wrong first) (read_wrong second))) }
    ensures draft_after { draft.new ≡ chosen_code draft.old (read_end first) (read_end second) (read_kind first) (read_kind second) }
{
    let j = results::end_of(first);
    let k = results::end_of(second);
    let a = results::kind_of(first);
    let b = results::kind_of(second);
    put(draft, j, JUMP, (k - j - 1 + skipped(a, b)) as u32);
    let end = promoted(draft, k, a, b);
    let branches = diagnostics::earlier(results::wrong_of(first), results::wrong_of(second));
    let wrong = diagnostics::earlier(results::wrong_of(condition), branches);
    results::done(results::next_of(second), end, kinds::joined(a, b), wrong)
}
