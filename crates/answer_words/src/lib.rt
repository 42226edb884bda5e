// What an answer means, in a few words (specs/Words.antt).
#![tactic(auto)]

ghost use Rattle.std.specs.Prelude.{◌≡◌, ◌+◌, ◌≤◌, length};
ghost use Rattle.std.proofs.lemmas.List.Edits.{sets};
ghost use Rattle.lines.specs.private.Steps.{Puts};
ghost use Rattle.answer_words.specs.Words.{answer_table, words_of, most_words};

// The row of each answer, from 0 on.
const TABLE: [u8; 594] = *b"done
the memory has not its size, 3,092 bytes
no C, V, N, D or R cell, nor indexed bank
the expression is empty or has over 1,024 bytes
bytes that form no token
a number out of range
no such name, cell or run of cells
not in the grammar
more than eight open ( and [
a real where an integer is needed
a lent buffer is too small
divided by zero
overflow
out of range
an index below zero or beyond its bank
the check does not accept the code
a line out of form or order
the check differs
the number is not above the one before
a real in the profile without reals
more than forty formulas in a list";

// The words of an answer put into a slice: the place behind them.
pub fn put(out: &mut [u8], at: usize, answer: u32) -> usize
    requires { at + most_words ≤ length out.old }
    ensures puts { Puts out.old at out.new result (words_of answer) }
    ensures upper_bound { result ≤ at + most_words }
{
    text_tables::put_row(out, at, &TABLE, answer as usize)
}

// At the front of a slice, as many as fit: the length of all.
pub fn words(answer: u32, out: &mut [u8]) -> usize
    ensures { (result ≡ length (words_of answer)) × (out.new ≡ sets out.old 0 (words_of answer)) }
{
    text_tables::fit_row(out, &TABLE, answer as usize)
}
