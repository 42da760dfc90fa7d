//! Fractions in lowest terms.

ghost use Rattle.std.specs.Prelude.{◌≡◌, ◌/◌, ◌<◌, ◌^◌};
ghost use Rattle.std.specs.Int.{trailing_zeros, w128};
ghost use Rattle.subdiv_model.specs.Fractions.{lowest};

use ratio128::{gcd, quotient};

// Returns the numerator and the denominator in lowest terms. Most denominators are powers of two, which need no division.
pub(crate) fn lowest_terms(num: u128, den: u128) -> (u128, u128)
    requires { 0 < den }
    ensures { result ≡ lowest (num, den) }
{
    let twos = den.trailing_zeros();
    if den >> twos == 1 {
        return shifted_terms(num, den);
    }
    let common = gcd(num, den);
    (quotient(num, common), quotient(den, common))
}

// Returns the numerator and the denominator in lowest terms; the denominator is a power of two.
fn shifted_terms(num: u128, den: u128) -> (u128, u128)
    requires positive { 0 < den }
    requires power { den / 2 ^ trailing_zeros w128 den ≡ 1 }
    ensures { result ≡ lowest (num, den) }
{
    let twos = den.trailing_zeros().min(num.trailing_zeros());
    (num >> twos, den >> twos)
}
