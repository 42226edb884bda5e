// A table of texts, a line each, and its rows by number (specs/Tables.antt).
#![tactic(auto)]

ghost use Rattle.std.specs.Prelude.{◌≡◌, ◌+◌, ◌≤◌, length};
ghost use Rattle.std.proofs.lemmas.List.Edits.{sets};
ghost use Rattle.lines.specs.private.Steps.{Puts};
ghost use Rattle.text_tables.specs.Tables.{row_at};

use lines::printing;

// A row; nothing where the table has none.
fn row(table: &[u8], k: usize) -> &[u8]
    ensures { result.now ≡ row_at k table.now }
{
    match table.split(|b| *b == b'\n').nth(k) {
        Some(row) => row,
        None => &[],
    }
}

// A row put into a slice: the place behind it.
pub fn put_row(out: &mut [u8], at: usize, table: &[u8], k: usize) -> usize
    requires { at + length (row_at k table.now) ≤ length out.old }
    ensures { Puts out.old at out.new result (row_at k table.now) }
{
    printing::put_all(out, at, row(table, k))
}

// A row at the front of a slice, as much of it as fits: the length of the whole.
pub fn fit_row(out: &mut [u8], table: &[u8], k: usize) -> usize
    ensures { (result ≡ length (row_at k table.now)) × (out.new ≡ sets out.old 0 (row_at k table.now)) }
{
    let row = row(table, k);
    let n = row.len().min(out.len());
    printing::put_all(out, 0, &row[..n]);
    row.len()
}
