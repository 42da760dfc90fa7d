ghost use Rattle.std.specs.Prelude.{◌≡◌, ℕ, ◌<◌, ◌^◌, ℤ, pos, ◌*ℤ◌, unsigned_abs};
ghost use Rattle.std.specs.Int.{IsGcd};
ghost use Rattle.ratio128.specs.Ratio.{signed_like};

use crate::euclid::{gcd_of_odds, odd_part};
use crate::quotient;

/// Returns the greatest common divisor of two numbers, and 0 for two zeros.
pub fn gcd(a: u128, b: u128) -> u128
    ensures { IsGcd a b result }
{
    if a == 0 {
        return b;
    }
    if b == 0 {
        return a;
    }
    let twos = a.trailing_zeros().min(b.trailing_zeros());
    gcd_of_odds(odd_part(a), odd_part(b)) << twos
}

/// A fraction: a whole numerator over a whole denominator, not reduced. `lowest` returns one in lowest terms.
#[derive(Clone, Copy, Debug, PartialEq, Eq)]
pub struct Frac {
    pub num: i128,
    pub den: u128,
}

/// Returns the same fraction in lowest terms, with a denominator of at least 1; zero becomes 0/1.
///
/// `den` is at least 1. `num` is any number but the least `i128`, whose amount no `i128` holds.
pub fn lowest(num: i128, den: u128) -> Frac
    requires positive { 0 < den }
    requires kept { unsigned_abs num < 2 ^ 127 }
    ensures lowest { IsGcd (unsigned_abs result.num) result.den 1 }
    ensures positive { 0 < result.den }
    ensures same { num *ℤ pos result.den ≡ result.num *ℤ pos den }
{
    let amount = num.unsigned_abs();
    let common = gcd(amount, den);
    Frac {
        num: with_sign_of(num, quotient(amount, common)),
        den: quotient(den, common),
    }
}

// Returns the amount with the sign of the number.
fn with_sign_of(number: i128, amount: u128) -> i128
    requires { amount < 2 ^ 127 }
    ensures { result ≡ signed_like number amount }
{
    let size = amount as i128;
    if number < 0 { -size } else { size }
}
