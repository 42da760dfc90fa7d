ghost use Rattle.std.specs.Prelude.{◌≡◌, ◌^◌, ◌<◌};
ghost use Rattle.std.specs.List.{position_or_len, before_first, after_first};
ghost use Rattle.obj_text.specs.NumeralTerms.{IsFractionRead, AreLowestTerms};
ghost use Rattle.subdiv_model.specs.Numeral.{is_slash};

use crate::NumeralFault;
use crate::digits::digits_up_to;
use crate::sign::split_sign;
use crate::terms::Terms;
use ratio128::gcd;
use ratio128::limits::NUMERAL_BOUND;

/// The terms of a fraction: an optional sign, digits, `/`, and digits that are not all zero. Each part has at most 37 digits after its
/// leading zeros.
pub(crate) fn read_fraction(word: &[u8]) -> Result<Terms, NumeralFault>
    ensures { IsFractionRead result word.now }
{
    let (_, unsigned) = split_sign(word);
    let (numerator, denominator) = split_slash(unsigned);
    let num = digits_up_to(numerator, NUMERAL_BOUND).ok_or(NumeralFault::BadNumeral)?;
    let den = digits_up_to(denominator, NUMERAL_BOUND).ok_or(NumeralFault::BadNumeral)?;
    if den == 0 {
        return Err(NumeralFault::BadNumeral);
    }
    if num == NUMERAL_BOUND || den == NUMERAL_BOUND {
        return Err(NumeralFault::NumberRange);
    }
    Ok(lowest_terms(num, den))
}

// How many bytes precede the slash.
fn numerator_len(unsigned: &[u8]) -> usize
    ensures { result ≡ position_or_len is_slash unsigned.now }
{
    for (i, b) in unsigned.iter().enumerate() {
        if *b == b'/' {
            return i;
        }
    }
    unsigned.len()
}

// The bytes before the slash and those after it.
fn split_slash(unsigned: &[u8]) -> (&[u8], &[u8])
    ensures numerator { result.0.now ≡ before_first is_slash unsigned.now }
    ensures denominator { result.1.now ≡ after_first is_slash unsigned.now }
{
    let (numerator, others) = unsigned.split_at(numerator_len(unsigned));
    match others {
        [_, denominator @ ..] => (numerator, denominator),
        [] => (numerator, others),
    }
}

// A fraction in lowest terms.
fn lowest_terms(num: u128, den: u128) -> Terms
    requires num { num < 10 ^ 37 }
    requires den { den < 10 ^ 37 }
    requires positive { 0 < den }
    ensures { AreLowestTerms result num den 0 }
{
    let common = gcd(num, den);
    Terms {
        num: num / common,
        den: den / common,
        decimals: 0,
    }
}
