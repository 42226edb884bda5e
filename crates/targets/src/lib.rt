// The target of a formula (paper 02, request 1): a cell, or a bank and the index between its brackets, which is a formula of its own.
#![tactic(auto)]

ghost use Rattle.std.specs.Prelude.{◌≡◌, ◌≤◌, length};
ghost use Rattle.memory.specs.Names.{letter_bank};
ghost use Rattle.text.specs.Targets.{stored_bank, indexed_target, target_of};
ghost use Rattle.profile_text.specs.Targets.{taken_target, target_in, bank_in};
ghost use Rattle.targets.specs.declared.Element.TheVariants.{Is};
ghost use Rattle.targets.specs.Found.{enclosed_bank, found_of, taken_found, run_target_in, index_bytes};

use memory::{Bank, names};

// Which element of a bank: its number, or how many instructions of index code give it.
#[derive(Clone, Copy)]
pub enum Element {
    Is(u32),
    By(usize),
}

// "its bank C, V, N, D or R": X is read only.
fn stored_bank(letter: u8) -> Option<Bank>
    ensures { result ≡ stored_bank (letter_bank letter) }
{
    let bank = names::bank_of(letter)?;
    match bank {
        Bank::X => None,
        _ => Some(bank),
    }
}

// "an R target .. is 2" where reals are not taken.
fn taken_bank(l: Option<Bank>, reals: bool) -> Option<Bank>
    ensures { result ≡ bank_in reals l }
{
    if reals {
        return l;
    }
    let bank = l?;
    match bank {
        Bank::R => None,
        _ => Some(bank),
    }
}

fn to_cell(bank: Bank, element: u32, reals: bool) -> Option<(Bank, Element)>
    ensures { result ≡ taken_found reals (Some (bank, Is element)) }
{
    let b = taken_bank(Some(bank), reals)?;
    Some((b, Element::Is(element)))
}

// The bank before a bracket that is closed at the end.
fn enclosed_bank(target: &[u8]) -> Option<Bank>
    ensures { result ≡ enclosed_bank target.now }
{
    let n = target.len();
    if 1024 < n {
        return None;
    }
    if n < 3 {
        return None;
    }
    if target[1] != b'[' {
        return None;
    }
    if target[n - 1] != b']' {
        return None;
    }
    stored_bank(target[0])
}

// What a target's text is, and how many instructions its index has; no code is written.
pub fn judge(target: &[u8]) -> Option<(Bank, Element)>
    ensures { result ≡ found_of (target_of target.now) }
{
    judge_in(target, true)
}

// The same where reals are taken or not; `judge`, a call with a constant, has the contract of the full box.
pub fn judge_in(target: &[u8], reals: bool) -> Option<(Bank, Element)>
    ensures { result ≡ found_of (target_in reals target.now) }
{
    match names::target_of(target) {
        Some((bank, element)) => to_cell(bank, element, reals),
        None => judge_indexed(target, reals),
    }
}

fn judge_indexed(target: &[u8], reals: bool) -> Option<(Bank, Element)>
    ensures { result ≡ found_of (taken_target reals (indexed_target target.now)) }
{
    let bank = taken_bank(enclosed_bank(target), reals)?;
    let end = target.len() - 1;
    match compiler::judge_in(&target[2..end], 1, reals) {
        Ok(n) => Some((bank, Element::By(n))),
        Err(_) => None,
    }
}

// The same, and the index's code goes into the buffer; that of a plain cell keeps what it held.
pub fn compile_in(target: &[u8], code: &mut [u8], reals: bool) -> Option<(Bank, Element)>
    requires { 16384 ≤ length code.old }
    ensures value { result ≡ found_of (target_in reals target.now) }
    ensures code_after { code.new ≡ index_bytes code.old (target_in reals target.now) }
{
    match names::target_of(target) {
        Some((bank, element)) => to_cell(bank, element, reals),
        None => compile_indexed(target, code, reals),
    }
}

fn compile_indexed(target: &[u8], code: &mut [u8], reals: bool) -> Option<(Bank, Element)>
    requires { 16384 ≤ length code.old }
    ensures value { result ≡ found_of (taken_target reals (indexed_target target.now)) }
    ensures code_after { code.new ≡ index_bytes code.old (taken_target reals (indexed_target target.now)) }
{
    let bank = taken_bank(enclosed_bank(target), reals)?;
    let end = target.len() - 1;
    match compiler::compile_in(&target[2..end], 1, code, reals) {
        Ok(n) => Some((bank, Element::By(n))),
        Err(_) => None,
    }
}

// The target of a run, which is given the index as code: a cell, or a bank letter alone whose element k instructions give.
pub fn to_run_in(target: &[u8], k: usize, reals: bool) -> Option<(Bank, Element)>
    ensures { result ≡ run_target_in reals k target.now }
{
    if target.len() != 1 {
        let (bank, element) = names::target_of(target)?;
        return to_cell(bank, element, reals);
    }
    let bank = taken_bank(stored_bank(target[0]), reals)?;
    Some((bank, Element::By(k)))
}
