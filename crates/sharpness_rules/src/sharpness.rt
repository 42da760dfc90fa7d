ghost use Rattle.std.specs.Prelude.{◌≡◌, ◌*◌, ◌^◌, ◌<◌, ◌≤◌};
ghost use Rattle.std.specs.Int.{IsGcd};
ghost use Rattle.subdiv_model.specs.Fractions.{gcd_of};

use ratio128::gcd;

/// The sharpness of an edge or a vertex. Source: DeRose, Kass and Truong 1998; the bound 10 for infinite sharpness is this profile's.
#[derive(Clone, Copy, Debug, PartialEq, Eq)]
pub enum Sharpness {
    /// Sharpness 0.
    Smooth,
    /// Above 0 and below 10: sharp for some levels.
    Semi(Semi),
    /// Sharp at every level.
    Infinite,
}

/// A fraction in lowest terms, above 0 and below 10, with a denominator of at most 2^60.
#[derive(Clone, Copy, Debug, PartialEq, Eq)]
pub struct Semi {
    num: u64,
    den: u64,
    pub ghost above: { 0 < num },
    pub ghost below: { num < 10 * den },
    pub ghost short: { den ≤ 2 ^ 60 },
    pub ghost lowest: { gcd_of num den ≡ 1 },
}

impl Semi {
    /// Returns the numerator.
    pub fn num(&self) -> u64
        ensures { result ≡ self.now.num }
    {
        self.num
    }

    /// Returns the denominator.
    pub fn den(&self) -> u64
        ensures { result ≡ self.now.den }
    {
        self.den
    }
}

// Returns the greatest common divisor of a numerator and a denominator. A whole number needs no search.
fn common_divisor(num: u64, den: u64) -> u64
    requires { 0 < den }
    ensures { IsGcd num den result }
{
    if num % den == 0 {
        return den;
    }
    gcd(num as u128, den as u128) as u64
}

impl Sharpness {
    ghost use Rattle.subdiv_model.specs.Sharpness.{sharpness_of_fraction, is_sharp};
    ghost use Rattle.sharpness_rules.specs.View.{sharpness_of};

    /// Returns the sharpness `num / den`: smooth for 0, infinite from 10 on. `den` is from 1 to 2^60.
    pub fn new(num: u64, den: u64) -> Sharpness
        requires positive { 0 < den }
        requires short { den ≤ 2 ^ 60 }
        ensures { sharpness_of result ≡ sharpness_of_fraction (num, den) }
    {
        if num == 0 {
            return Sharpness::Smooth;
        }
        if num >= 10 * den {
            return Sharpness::Infinite;
        }
        let common = common_divisor(num, den);
        Sharpness::Semi(Semi {
            num: num / common,
            den: den / common,
        })
    }

    /// Returns whether the sharpness is above 0.
    pub fn is_sharp(&self) -> bool
        ensures { result ≡ is_sharp (sharpness_of self.now) }
    {
        !matches!(self, Sharpness::Smooth)
    }
}
