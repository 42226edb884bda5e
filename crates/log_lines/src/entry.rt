// What a line of a log says.
ghost use Rattle.std.specs.Prelude.{◌≡◌};
ghost use Rattle.lines.specs.Forms.{cell_pattern, hex_form};
ghost use Rattle.card_laws.specs.Cards.{card_number};
ghost use Rattle.log_laws.specs.Log.{tick_entry, run_entry, change_entry, text_entry};
ghost use Rattle.log_lines.specs.private.Steps.{entry_in, EntryInside};

use lines::{forms, printing};
use memory::Bank;
use tokens::identifiers;

// What a good line says: a cell and its pattern, the tick, the card that is run.
#[derive(Clone, Copy)]
pub enum Entry {
    Change(Bank, u32, u32),
    Tick(u32),
    Run(u32),
}

// The tick has the form of an R cell's pattern, of either case.
fn tick_entry(value: &[u8]) -> Option<Entry>
    ensures { result ≡ entry_in (tick_entry (hex_form value.now)) }
{
    match forms::pattern_of(Bank::R, value) {
        Some(n) => Some(Entry::Tick(n)),
        None => None,
    }
}

fn run_entry(value: &[u8]) -> Option<Entry>
    ensures { result ≡ entry_in (run_entry (card_number value.now)) }
{
    let k = card_file::form::card_number(value);
    if k == 0 {
        return None;
    }
    Some(Entry::Run(k))
}

// A value is good only as it is printed again.
fn change_entry(bank: Bank, element: u32, value: &[u8]) -> Option<Entry>
    ensures { result ≡ entry_in (change_entry bank element value.now (cell_pattern bank value.now)) }
{
    let Some(n) = forms::pattern_of(bank, value) else {
        return None;
    };
    let mut printed = [0u8; 11];
    let end = printing::put_value(&mut printed, 0, bank, n as u64);
    if identifiers::same_bytes(value, &printed[..end]) {
        return Some(Entry::Change(bank, element, n));
    }
    None
}

// Of a line without its end.
pub fn entry_of(line: &[u8]) -> Option<Entry>
    ensures value { result ≡ entry_in (text_entry line.now) }
    ensures entry_inside { EntryInside result }
{
    let k = lines::until(line, b'=');
    if k == line.len() {
        return None;
    }
    let key = &line[..k];
    let from = k + 1;
    let value = &line[from..];
    if identifiers::same_bytes(key, b"tick") {
        return tick_entry(value);
    }
    if identifiers::same_bytes(key, b"run") {
        return run_entry(value);
    }
    match memory::names::cell_named(key) {
        Some((bank, element)) => change_entry(bank, element, value),
        None => None,
    }
}
