// A mixed number over a denominator of two parts, which stay as they are under multiplication.
ghost use Rattle.std.specs.Prelude.{◌*◌, ◌^◌, ◌≤◌, ◌<◌};

// whole + (high * a + low) / (b * a).
#[derive(Clone, Copy)]
pub struct Mixed {
    pub whole: u64,
    pub high: u64,
    pub low: u64,
    pub b: u64,
    pub a: u64,
    pub ghost low_below: { low < a },
    pub ghost high_below: { high < b },
    pub ghost a_small: { a ≤ 2 ^ 47 },
    pub ghost b_small: { b ≤ 2 ^ 47 },
}

impl Mixed {
    ghost use Rattle.literals.specs.private.MixedNumbers.{numerator, Represents};

    // n / (b * a).
    pub fn split(n: u64, b: u64, a: u64) -> Mixed
        requires { (0 < b) × (0 < a) × (b ≤ 2 ^ 47) × (a ≤ 2 ^ 47) }
        ensures { Represents b a n result }
    {
        let rest = n / a;
        Mixed {
            whole: rest / b,
            high: rest % b,
            low: n % a,
            b,
            a,
        }
    }

    // Times f, with the carries of low and high.
    pub fn times(self, f: u64) -> Mixed
        requires { (self.a * f ≤ 2 ^ 63) × (self.b * f ≤ 2 ^ 63) × (self.whole * f < 2 ^ 63) }
        ensures { Represents self.b self.a (numerator self.b self.a self * f) result }
    {
        let low = self.low * f;
        let high = self.high * f + low / self.a;
        Mixed {
            whole: self.whole * f + high / self.b,
            high: high % self.b,
            low: low % self.a,
            b: self.b,
            a: self.a,
        }
    }
}
