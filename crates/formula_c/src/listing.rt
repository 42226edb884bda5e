// The listing of code, and the words of an answer, for C.
ghost use Rattle.std.specs.Prelude.{◌≡◌, ◌%◌, ◌^◌, length};
ghost use Rattle.std.proofs.lemmas.List.Edits.{sets};
ghost use Rattle.code.specs.Instructions.{instructions};
ghost use Rattle.answer_words.specs.Words.{words_of};
ghost use Rattle.code_listing.specs.Listing.{listed};
ghost use Rattle.formula_c.specs.Listing.{listed_words};

#[unsafe(no_mangle)]
pub extern "C" fn formula_listing(code: &[u8], n: usize, text: &mut [u8], res: &mut [u32; 2])
    ensures res_after { res.new ≡ listed_words (listed (length text.old) (instructions code.now n)) }
    ensures text_after { text.new ≡ sets text.old 0 (listed (length text.old) (instructions code.now n)).text }
{
    let r = code_listing::listing(code, n, text);
    let length = c_report::low(r.length);
    *res = [r.answer, length];
}

#[unsafe(no_mangle)]
pub extern "C" fn formula_words(answer: u32, text: &mut [u8]) -> u32
    ensures { (result ≡ length (words_of answer) % 2 ^ 32) × (text.new ≡ sets text.old 0 (words_of answer)) }
{
    c_report::low(answer_words::words(answer, text))
}
