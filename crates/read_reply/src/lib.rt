// What the program `cells` prints (specs/Listing.antt): the cells that a formula and its target's index read, or a refusal.
#![tactic(auto)]

ghost use Rattle.std.specs.Prelude.{◌≡◌, ◌+◌, ◌*◌, ◌≤◌, ◌<◌, length};
ghost use Rattle.lines.specs.private.Steps.{Puts};
ghost use Rattle.read_set.specs.Cells.{cell_count, read_by};
ghost use Rattle.read_reply.specs.Listing.{cell_lines, listing};
ghost use Rattle.read_reply.specs.private.Numbers.{numbered_bank, number_text, number_lines, CellNumbers};

use lines::printing;
use memory::Bank;
use program::{codes, reply, stream};
use read_set::CELLS;

pub mod respond;

// The longest line, `D255`, for each cell.
pub const MOST_BYTES: usize = 5760;

// Room for every reply. The ensures gives only the length: the list of zeros would be written out in every step of a proof.
pub fn blank_reply() -> [u8; MOST_BYTES]
    ensures { 5760 ≡ length result }
{
    program::zeros()
}

// The bank whose cells have the number: each begins at its `first_number`.
fn bank_of(number: usize) -> Bank
    ensures { result ≡ numbered_bank number }
{
    match number {
        0..=63 => Bank::X,
        64..=127 => Bank::C,
        128..=383 => Bank::V,
        384..=639 => Bank::N,
        640..=895 => Bank::D,
        _ => Bank::R,
    }
}

// A cell's name on a line of its own.
fn put_line(out: &mut [u8], at: usize, number: usize) -> usize
    requires number_lt_cell_count { number < cell_count }
    requires at_in_bounds { at + 5 ≤ length out.old }
    ensures puts { Puts out.old at out.new result (number_text number) }
    ensures upper_bound { result ≤ at + 5 }
{
    let bank = bank_of(number);
    let element = number - read_set::first_number(bank);
    let end = printing::put_name(out, at, bank, element as u32);
    printing::put_all(out, end, b"\n")
}

fn put_lines(out: &mut [u8], list: &[u16]) -> usize
    requires cell_numbers { CellNumbers list.now }
    requires list_in_bounds { 5 * length list.now ≤ length out.old }
    ensures puts { Puts out.old 0 out.new result (number_lines list.now) }
    ensures upper_bound { result ≤ 5 * length list.now }
{
    let mut at = 0;
    for number in list {
        at = put_line(out, at, usize::from(*number));
    }
    at
}

// The same of the list, whose elements are no bytes.
fn no_cells() -> [u16; CELLS]
    ensures { 1152 ≡ length result }
{
    [0; CELLS]
}

fn put_cells(out: &mut [u8], code: &[u8], n: usize, index: &[u8], k: usize) -> usize
    requires { 5760 ≤ length out.old }
    ensures puts { Puts out.old 0 out.new result (cell_lines (read_by code.now n index.now k)) }
    ensures upper_bound { result ≤ 5760 }
{
    let mut list = no_cells();
    let found = read_set::cells(code, n, index, k, &mut list);
    put_lines(out, &list[..found])
}

pub fn reply(target: &[u8], text: &[u8], out: &mut [u8]) -> usize
    requires { 5760 ≤ length out.old }
    ensures puts { Puts out.old 0 out.new result (listing target.now text.now) }
    ensures upper_bound { result ≤ 5760 }
{
    let mut code = stream::blank_code();
    let mut index = stream::blank_code();
    match codes::compile_both(target, text, &mut code, &mut index) {
        Ok(n) => put_cells(out, &code, n.code, &index, n.index),
        Err(answer) => reply::put_report(out, operations::reported(answer)),
    }
}
