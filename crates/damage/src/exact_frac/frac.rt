ghost use Rattle.std.specs.Prelude.{◌≡◌, ◌+◌, ◌-◌, ◌*◌, ◌<◌, ◌≤◌, ◌^◌};
ghost use Rattle.damage.specs.declared.exact_frac.frac.TheConstants.{MAX_DEN};

/// How many billionths a whole has.
pub const BILLION: u64 = 1_000_000_000;

/// The greatest denominator, 10^37.
pub const MAX_DEN: u128 = 10_000_000_000_000_000_000_000_000_000_000_000_000;

/// The number `whole + num / den`, exactly.
#[derive(Clone, Copy, Debug, PartialEq, Eq)]
pub struct Frac {
    /// The wholes.
    pub whole: u64,
    /// The rest, in parts of `1 / den`.
    pub num: u128,
    /// The denominator.
    pub den: u128,
    ghost below_one: { num < den },
    ghost fits: { den ≤ MAX_DEN },
}

impl Frac {
    ghost use Rattle.damage.specs.exact_frac.Frac.{parts, IsCeilingInBillionths};

    /// Nothing, in parts of `1 / den`.
    pub fn zero(den: u128) -> Frac
        requires positive { 1 ≤ den }
        requires fits { den ≤ MAX_DEN }
        ensures whole { result.whole ≡ 0 }
        ensures num { result.num ≡ 0 }
        ensures den { result.den ≡ den }
    {
        Frac {
            whole: 0,
            num: 0,
            den,
        }
    }

    /// Adds `n * num / den`, exactly: by doubling, in 64 steps, the highest bit of `n` first.
    pub fn add_times(&mut self, num: u128, n: u64)
        requires below_one { num < self.old.den }
        requires fits { self.old.whole + n < 2 ^ 64 }
        ensures sum { parts self.new ≡ parts self.old + n * num }
        ensures den { self.new.den ≡ self.old.den }
    {
        let mut times = Frac::zero(self.den);
        for bit in 0..64u32 {
            let half = times;
            times.add(half.whole, half.num);
            let last = (n >> (63 - bit)) % 2;
            times.add(0, last as u128 * num);
        }
        self.add(times.whole, times.num);
    }

    /// The number rounded up at the ninth decimal: the least number of billionths that is not below
    /// it, as wholes and billionths.
    pub fn ceil_decimals(&self) -> (u64, u32)
        requires { self.now.whole < 2 ^ 64 - 1 }
        ensures least { IsCeilingInBillionths self.now (result.0 * BILLION + result.1) }
        ensures billionths { result.1 < BILLION }
    {
        let mut billionths = Frac::zero(self.den);
        billionths.add_times(self.num, BILLION);
        let rounded = billionths.whole + (billionths.num > 0) as u64;
        if rounded == BILLION {
            (self.whole + 1, 0)
        } else {
            (self.whole, rounded as u32)
        }
    }

    // Adds `whole + num / den`. Both numerators are below `den`, so one carry is enough.
    #[tactic(auto, using(lemmas::proofs::Naturals::wholes_fit, lemmas::proofs::Naturals::carry_fits))]
    fn add(&mut self, whole: u64, num: u128)
        requires below_one { num < self.old.den }
        requires fits { parts self.old + (whole * self.old.den + num) < 2 ^ 64 * self.old.den }
        ensures sum { parts self.new ≡ parts self.old + (whole * self.old.den + num) }
        ensures den { self.new.den ≡ self.old.den }
    {
        let sum = self.num + num;
        if sum < self.den {
            self.whole += whole;
            self.num = sum;
        } else {
            self.whole += whole + 1;
            self.num = sum - self.den;
        }
    }
}
