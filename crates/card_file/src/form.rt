// The form of a card: four lines, with what stands where.
ghost use Rattle.std.specs.Prelude.{◌≡◌, ◌≤◌, length, drop};
ghost use Rattle.card_laws.specs.Lines.{field_of};
ghost use Rattle.card_laws.specs.Cards.{card_number, is_check, card_form};
ghost use Rattle.card_file.specs.Spans.{length_in, line_number, spans};

// Of four lines at the front of a text: the card's number, where target, expression and check begin, and where the fourth line ends. They are places and
// no slices, since reading hands out places in the file.
#[derive(Clone, Copy)]
pub struct FourLines {
    pub number: u32,
    pub target: usize,
    pub expr: usize,
    pub check: usize,
    pub end: usize,
}

// What stands between a target and its expression, and between that and the check: a line end and a key.
pub const TO_EXPR: usize = 6;

pub const TO_CHECK: usize = 7;

// The length of the value of the line at a place, if it has its key and its end.
fn field_at(s: &[u8], at: usize, key: &[u8]) -> Option<usize>
    requires { at ≤ length s.now }
    ensures { result ≡ length_in (field_of key.now (drop at s.now)) }
{
    let k = key.len();
    if s.len() - at < k {
        return None;
    }
    let from = at + k;
    if !tokens::identifiers::same_bytes(key, &s[at..from]) {
        return None;
    }
    let n = lines::until(&s[from..], b'\n');
    if n == s.len() - from {
        return None;
    }
    Some(n)
}

// 0 for a text that is that of no number from 1 to 64.
pub fn card_number(text: &[u8]) -> u32
    ensures { result ≡ card_number text.now }
{
    match memory::names::number_below(text, 65) {
        Some(n) => n,
        None => 0,
    }
}

// The number in a card's first line, 0 where that line has not its form.
pub fn line_number(s: &[u8]) -> u32
    ensures { result ≡ line_number s.now }
{
    let Some(digits) = field_at(s, 0, b"card=") else {
        return 0;
    };
    let end = 5 + digits;
    card_number(&s[5..end])
}

fn is_check(text: &[u8]) -> bool
    ensures { result ≡ is_check text.now }
{
    if text.len() != 5 {
        return false;
    }
    memory::names::digits(text, 0, 0).end == 5
}

pub fn card_form(s: &[u8]) -> Option<FourLines>
    ensures { result ≡ spans (card_form s.now) }
{
    let digits = field_at(s, 0, b"card=")?;
    let number_end = 5 + digits;
    let number = card_number(&s[5..number_end]);
    let target_size = field_at(s, number_end + 1, b"target=")?;
    let target = number_end + 8;
    let target_end = target + target_size;
    let expr_size = field_at(s, target_end + 1, b"expr=")?;
    let expr = target_end + TO_EXPR;
    let expr_end = expr + expr_size;
    let check_size = field_at(s, expr_end + 1, b"check=")?;
    let check = expr_end + TO_CHECK;
    let check_end = check + check_size;
    if number == 0 {
        return None;
    }
    if !is_check(&s[check..check_end]) {
        return None;
    }
    Some(FourLines {
        number,
        target,
        expr,
        check,
        end: check_end + 1,
    })
}
