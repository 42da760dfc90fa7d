//! Numbers over their least common denominator.

ghost use Rattle.std.specs.Prelude.{◌≡◌, ◌+◌, ◌*◌, ◌^◌, ◌<◌, ◌≤◌, ℤ, length, map, take, drop, pos, neg_ℤ, int_lt, if◌then◌else◌, MatchResult, MatchOption};
ghost use Rattle.nearest_float.specs.Binary.{binary32, binary64};
ghost use Rattle.flat_arrays.specs.Words.{integer_of};
ghost use Rattle.row_arrays.specs.Floats.{bits_at, bits_of, format_of};
ghost use Rattle.row_arrays.specs.Answers.{AreFloatsPut, AreFloatsScaled};
ghost use Rattle.row_arrays.specs.Scale.{IsScaleWith, IsLeastScale, IsNumerator, HasFraction, HasNumerator, AreScaled};
ghost use Rattle.row_arrays.specs.ScaleFaults.{IsFirstRefused, IsRefusedHere, IsLarge, IsScaleFault};

use crate::NumberFault;
use crate::floats::Floats;
use flat_arrays::{Wide, put_item};
use nearest_float::FloatFault;
use ratio128::times_within;

const MOST: u128 = (1 << 127) - 1;

// Returns the greater of a scale and the denominator of the number at a place.
fn scale_with(numbers: &Floats, place: usize, scale: u128) -> Result<u128, NumberFault>
    requires { place < length (bits_of numbers.now) }
    ensures { MatchResult result (IsScaleWith (format_of numbers.now) (bits_at numbers.now place) scale) (IsRefusedHere (format_of numbers.now) (bits_at numbers.now place) place) }
{
    match numbers.exact(place) {
        Ok(fraction) => Ok(scale.max(fraction.den)),
        Err(fault) => Err(NumberFault { place, fault }),
    }
}

// Returns the least common denominator.
fn least_scale(numbers: &Floats) -> Result<u128, NumberFault>
    ensures { MatchResult result (λ scale. IsLeastScale (format_of numbers.now) (bits_of numbers.now) scale) (λ x. IsFirstRefused (format_of numbers.now) (bits_of numbers.now) x.place x.fault) }
{
    let mut scale = 1;
    for place in 0..numbers.len() {
        scale = scale_with(numbers, place, scale)?;
    }
    Ok(scale)
}

// Returns the amount, negative if `negative` is true.
fn signed(negative: bool, amount: u128) -> i128
    requires { amount < 2 ^ 127 }
    ensures { result ≡ (if negative then (neg_ℤ (pos amount)) else (pos amount)) }
{
    let size = amount as i128;
    if negative { -size } else { size }
}

// Returns the numerator over the scale of the number at a place, if it is below 2^127 in amount.
fn numerator_at(numbers: &Floats, place: usize, scale: u128) -> Option<i128>
    requires inside { place < length (bits_of numbers.now) }
    requires positive { 0 < scale }
    requires exact { HasFraction (format_of numbers.now) (bits_at numbers.now place) }
    requires common { HasNumerator (format_of numbers.now) scale (bits_at numbers.now place) }
    ensures { MatchOption result (IsLarge (format_of numbers.now) scale (bits_at numbers.now place)) (λ n. IsNumerator (format_of numbers.now) scale (bits_at numbers.now place) n) }
{
    match numbers.exact(place) {
        Ok(fraction) => {
            match times_within(fraction.num.unsigned_abs(), scale / fraction.den, MOST) {
                Some(amount) => Some(signed(fraction.num < 0, amount)),
                None => None,
            }
        }
        Err(_) => None,
    }
}

// Writes the numerators over the scale.
fn put_numerators(numbers: &Floats, scale: u128, out: &mut [Wide]) -> Result<(), NumberFault>
    requires equal { length out.old ≡ length (bits_of numbers.now) }
    requires least { IsLeastScale (format_of numbers.now) (bits_of numbers.now) scale }
    ensures put { AreFloatsPut numbers.now scale out.new result }
    ensures len { length out.new ≡ length out.old }
{
    for place in 0..numbers.len() {
        match numerator_at(numbers, place, scale) {
            Some(numerator) => put_item(out, place, Wide::of_integer(numerator)),
            None => {
                return Err(NumberFault {
                    place,
                    fault: FloatFault::TooWide,
                });
            }
        }
    }
    Ok(())
}

// Writes the numerators over the least common denominator. Returns that denominator.
fn scale_all(numbers: &Floats, out: &mut [Wide]) -> Result<u128, NumberFault>
    requires equal { length out.old ≡ length (bits_of numbers.now) }
    ensures scaled { AreFloatsScaled numbers.now out.new result }
    ensures len { length out.new ≡ length out.old }
{
    let scale = least_scale(numbers)?;
    put_numerators(numbers, scale, out)?;
    Ok(scale)
}

/// Writes the exact numerators of binary64 numbers over their least common denominator, the scale, to the start of `out`.
///
/// Returns the scale: the greatest denominator of the exact fractions, a power of two up to 2^126. It is 1 for an empty list. `out` has a
/// place for each number.
///
/// # Errors
///
/// The place, counted from 0, of the first number at fault. `NotFinite` and `TooWide`: the number has no exact fraction. If every number
/// has one, `TooWide`: the first numerator over the scale that is 2^127 or more in amount. The places for the numbers then have no defined
/// contents.
pub fn scale_binary64s(bits: &[u64], out: &mut [Wide]) -> Result<u128, NumberFault>
    requires fits { length bits.now ≤ length out.old }
    ensures scaled { MatchResult result (λ scale. AreScaled binary64 bits.now scale (map integer_of (take (length bits.now) out.new))) (IsScaleFault binary64 bits.now) }
    ensures rest { drop (length bits.now) out.new ≡ drop (length bits.now) out.old }
    ensures len { length out.new ≡ length out.old }
{
    scale_all(&Floats::Doubles(bits), &mut out[..bits.len()])
}

/// Writes the exact numerators of binary32 numbers over their least common denominator, the scale, to the start of `out`.
///
/// Returns the scale: the greatest denominator of the exact fractions, a power of two up to 2^126. It is 1 for an empty list. `out` has a
/// place for each number.
///
/// # Errors
///
/// The place, counted from 0, of the first number at fault. `NotFinite` and `TooWide`: the number has no exact fraction. If every number
/// has one, `TooWide`: the first numerator over the scale that is 2^127 or more in amount. The places for the numbers then have no defined
/// contents.
pub fn scale_binary32s(bits: &[u32], out: &mut [Wide]) -> Result<u128, NumberFault>
    requires fits { length bits.now ≤ length out.old }
    ensures scaled { MatchResult result (λ scale. AreScaled binary32 bits.now scale (map integer_of (take (length bits.now) out.new))) (IsScaleFault binary32 bits.now) }
    ensures rest { drop (length bits.now) out.new ≡ drop (length bits.now) out.old }
    ensures len { length out.new ≡ length out.old }
{
    scale_all(&Floats::Singles(bits), &mut out[..bits.len()])
}
