// The check of a card's two lines, and its five digits.
ghost use Rattle.std.specs.Prelude.{◌≡◌, ◌+◌, ◌<◌};
ghost use Rattle.lines.specs.Printing.{low_digits};
ghost use Rattle.card_laws.specs.Cards.{check_of};

const MODULUS: u32 = 65521;

// The lines lie one behind the other in the file. Sum and position are both reduced at every byte: lines of any length are safe.
pub fn sum_of(lines: &[u8]) -> u32
    ensures { result ≡ check_of lines.now }
{
    let mut sum: u32 = 0;
    let mut position: u32 = 1;
    for &b in lines {
        sum = (sum + position * u32::from(b)) % MODULUS;
        position = (position + 1) % MODULUS;
    }
    sum
}

fn digit(d: u32) -> u8
    requires { d < 10 }
    ensures { result ≡ 48 + d }
{
    48 + (d as u8)
}

// The five lowest digits, the highest first.
pub fn digits_of(n: u32) -> [u8; 5]
    ensures { result ≡ low_digits 10 5 n }
{
    let tens = n / 10;
    let hundreds = tens / 10;
    let thousands = hundreds / 10;
    let first = digit(thousands / 10 % 10);
    [
        first,
        digit(thousands % 10),
        digit(hundreds % 10),
        digit(tens % 10),
        digit(n % 10),
    ]
}
