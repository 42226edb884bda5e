// The compiler: the judgement of a text, and the code of a formula, written into a lent buffer.
#![tactic(auto)]

ghost use Rattle.std.specs.Prelude.{◌≡◌, ◌&&◌, ◌*◌, ◌<◌, ◌≤◌, leb, length};
ghost use Rattle.token_table.specs.private.Table.{TokenWords};
ghost use Rattle.text.specs.Judge.{judge};
ghost use Rattle.text.specs.Theorems.{Sized};
ghost use Rattle.profile_text.specs.Judge.{judge_in};
ghost use Rattle.compiler.specs.Compile.{compiling, compiling_in, coded_answer, coded_bytes};
ghost use Rattle.compiler.specs.private.Reading.{Judged, fitted_bytes, is_longer};

use token_table::Refusal;

mod copying;
mod reader;

// "10: compiling, with a code buffer under 16,384 bytes"
pub const LEAST_CODE: usize = 16384;

// "3: expression empty or over 1,024 bytes"
const LONGEST: usize = 1024;

fn is_sized(text: &[u8]) -> bool
    ensures { result ≡ (leb 1 (length text.now) && leb (length text.now) 1024) }
{
    (1..=LONGEST).contains(&text.len())
}

// "19, at the first real token"
const REAL_TOKEN: u32 = 19;

// A text of one to 1,024 bytes behind so many open brackets, read with a table lent for its tokens and a draft for its code. Where reals are not
// taken, a real token is looked for before the grammar.
fn read(
    text: &[u8],
    opened: u8,
    table: &mut [u64],
    draft: &mut [u64],
    reals: bool,
) -> Result<usize, Refusal>
    requires sized { Sized text.now × (length text.now < length table.old) × (length table.old ≤ 1025) }
    requires token_words { TokenWords table.old }
    ensures { Judged (judge_in reals opened text.now) draft.old draft.new result }
{
    token_table::fill(&text[..], table)?;
    let w = real_tokens::first_real(table, reals);
    if w != 0 {
        return Err(Refusal {
            answer: REAL_TOKEN,
            place: token_table::place_of(w),
        });
    }
    reader::formula(table, draft, text.len(), opened)
}

// `judge` and `compile`, each a call of its `.._in` with constants, have the contracts of the full box, of which `CompileTheorems` and `Promises` speak.
pub fn judge(text: &[u8]) -> Result<usize, Refusal>
    ensures { result ≡ coded_answer (judge text.now) }
{
    judge_in(text, 0, true)
}

// The answer alone, of a text below N bytes, with a word of table for each: nothing is written behind a draft's end, so that of a judgement
// has no room. Each size has an instance of its own, so that they share the stack, here and below.
fn judge_within<const N: usize>(text: &[u8], opened: u8, reals: bool) -> Result<usize, Refusal>
    requires { Sized text.now × (length text.now < N) × (N ≤ 1025) }
    ensures { result ≡ coded_answer (judge_in reals opened text.now) }
{
    let mut draft = [0u64; 0];
    let mut table = [0u64; N];
    read(text, opened, &mut table, &mut draft, reals)
}

pub fn judge_in(text: &[u8], opened: u8, reals: bool) -> Result<usize, Refusal>
    ensures { result ≡ coded_answer (judge_in reals opened text.now) }
{
    if !is_sized(text) {
        return Err(Refusal {
            answer: 3,
            place: 0,
        });
    }
    if text.len() < 64 {
        return judge_within::<64>(text, opened, reals);
    }
    judge_within::<1025>(text, opened, reals)
}

// The code of a formula of at most so many instructions; where it has more, nothing is written.
fn compile_with(
    text: &[u8],
    opened: u8,
    table: &mut [u64],
    draft: &mut [u64],
    code: &mut [u8],
    reals: bool,
    most: usize,
) -> Result<usize, Refusal>
    requires sized { Sized text.now × (length text.now < length table.old) × (length table.old ≤ 1025) }
    requires token_words { TokenWords table.old }
    requires most_in_bounds { (most ≤ length draft.old) × (most ≤ 2048) × (16384 ≤ length code.old) }
    ensures value { result ≡ coded_answer (judge_in reals opened text.now) }
    ensures code_after { code.new ≡ fitted_bytes most code.old (judge_in reals opened text.now) }
{
    let n = read(text, opened, table, draft, reals)?;
    if n <= most {
        copying::copy(draft, n, code);
    }
    Ok(n)
}

// The same for a text below N bytes, with a word of table for each, and a draft of so much room: the smaller the arrays, the quicker they are cleared.
fn compile_within<const N: usize, const ROOM: usize>(
    text: &[u8],
    opened: u8,
    code: &mut [u8],
    reals: bool,
    most: usize,
) -> Result<usize, Refusal>
    requires sized { Sized text.now × (length text.now < N) × (N ≤ 1025) }
    requires most_in_bounds { (most ≤ ROOM) × (ROOM ≤ 2048) × (16384 ≤ length code.old) }
    ensures value { result ≡ coded_answer (judge_in reals opened text.now) }
    ensures code_after { code.new ≡ fitted_bytes most code.old (judge_in reals opened text.now) }
{
    let mut table = [0u64; N];
    let mut draft = [0u64; ROOM];
    compile_with(text, opened, &mut table, &mut draft, code, reals, most)
}

// The code of a formula with at most an instruction a byte, of a text that is not long. A formula seldom has more instructions than bytes.
fn compile_short(text: &[u8], opened: u8, code: &mut [u8], reals: bool) -> Result<usize, Refusal>
    requires { Sized text.now × (length text.now < 512) × (16384 ≤ length code.old) }
    ensures value { result ≡ coded_answer (judge_in reals opened text.now) }
    ensures code_after { code.new ≡ fitted_bytes (length text.now) code.old (judge_in reals opened text.now) }
{
    let most = text.len();
    match most {
        0..=31 => compile_within::<32, 32>(text, opened, code, reals, most),
        32..=63 => compile_within::<64, 64>(text, opened, code, reals, most),
        64..=127 => compile_within::<128, 128>(text, opened, code, reals, most),
        128..=255 => compile_within::<256, 256>(text, opened, code, reals, most),
        _ => compile_within::<512, 512>(text, opened, code, reals, most),
    }
}

// Whether a text was accepted whose code has more than so many instructions.
fn is_longer(coded: Result<usize, Refusal>, most: usize) -> bool
    ensures { result ≡ is_longer coded most }
{
    match coded {
        Ok(n) => most < n,
        Err(_) => false,
    }
}

// What has more instructions than bytes is compiled a second time. For every text: a formula has at most two instructions a byte.
fn compile_sized(text: &[u8], opened: u8, code: &mut [u8], reals: bool) -> Result<usize, Refusal>
    requires { Sized text.now × (16384 ≤ length code.old) }
    ensures value { result ≡ coded_answer (judge_in reals opened text.now) }
    ensures code_after { code.new ≡ coded_bytes code.old (judge_in reals opened text.now) }
{
    if text.len() < 512 {
        let first = compile_short(text, opened, code, reals);
        if !is_longer(first, text.len()) {
            return first;
        }
    }
    compile_within::<1025, 2048>(text, opened, code, reals, 2048)
}

pub fn compile(text: &[u8], code: &mut [u8]) -> Result<usize, Refusal>
    ensures value { result ≡ coded_answer (compiling (length code.old) text.now) }
    ensures code_after { code.new ≡ coded_bytes code.old (compiling (length code.old) text.now) }
{
    compile_in(text, 0, code, true)
}

pub fn compile_in(text: &[u8], opened: u8, code: &mut [u8], reals: bool) -> Result<usize, Refusal>
    ensures value { result ≡ coded_answer (compiling_in reals opened (length code.old) text.now) }
    ensures code_after { code.new ≡ coded_bytes code.old (compiling_in reals opened (length code.old) text.now) }
{
    if code.len() < LEAST_CODE {
        return Err(Refusal {
            answer: 10,
            place: 0,
        });
    }
    if !is_sized(text) {
        return Err(Refusal {
            answer: 3,
            place: 0,
        });
    }
    compile_sized(text, opened, code, reals)
}
