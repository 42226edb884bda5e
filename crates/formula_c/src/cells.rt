// Which cells code reads, for C.
ghost use Rattle.std.specs.Prelude.{◌≡◌, ◌%◌, ◌^◌, length};
ghost use Rattle.std.proofs.lemmas.List.Edits.{sets};
ghost use Rattle.read_set.specs.Cells.{cell_numbers, read_by};

// The list for a formula that is not stored: no instructions of an index.
#[unsafe(no_mangle)]
pub extern "C" fn formula_cells(
    code: &[u8],
    n: usize,
    index: &[u8],
    k: usize,
    list: &mut [u16],
) -> u32
    ensures value { result ≡ length (read_by code.now n index.now k) % 2 ^ 32 }
    ensures list_after { list.new ≡ sets list.old 0 (cell_numbers (read_by code.now n index.now k)) }
{
    c_report::low(read_set::cells(code, n, index, k, list))
}
