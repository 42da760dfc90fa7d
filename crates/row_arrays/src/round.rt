//! Writes the doubles or floats nearest to fractions into an array.

ghost use Rattle.std.specs.Prelude.{◌≡◌, ◌*◌, ◌/◌, ◌^◌, ◌<◌, ◌≤◌, length, take, drop, MatchResult, None, unsigned_abs};
ghost use Rattle.flat_arrays.specs.Words.{integer_of, natural_of};
ghost use Rattle.nearest_float.specs.Binary.{binary32, binary64};
ghost use Rattle.nearest_float.specs.NearestArrays.{AreNearest};
ghost use Rattle.row_arrays.specs.Reports.{Reports};
ghost use Rattle.row_arrays.specs.Fractions as spec;

use crate::FractionFault;
use crate::fractions::{FractionArrays, fraction_fault};
use nearest_float::{put_binary32, put_binary64};
use ratio128::Frac;

// Returns a number as a fraction. Its denominator is that of its group times the scale.
fn fraction_at(fractions: &FractionArrays, place: usize) -> Frac
    requires inside { place < length fractions.now.numerators.now }
    requires shared { 0 < fractions.now.per }
    requires enough { spec.needed fractions.now ≤ length fractions.now.denominators.now }
    requires denominators { spec.bad_denominator fractions.now ≡ None }
    requires numerators { spec.bad_numerator fractions.now ≡ None }
    ensures num { result.num ≡ (spec.fraction_at fractions.now place).0 }
    ensures num_fits { unsigned_abs result.num < 2 ^ 127 }
    ensures den { result.den ≡ (spec.fraction_at fractions.now place).1 }
    ensures positive { 0 < result.den }
    ensures den_fits { result.den < 2 ^ 127 }
{
    let denominator = fractions.denominators[place / fractions.per as usize].natural();
    Frac {
        num: fractions.numerators[place].integer(),
        den: denominator * fractions.scale.natural(),
    }
}

// Writes the nearest doubles.
fn put_doubles(fractions: &FractionArrays, out: &mut [u64])
    requires { spec.fraction_fault fractions.now (length out.old) ≡ None }
    ensures nearest { AreNearest binary64 (spec.fractions_of fractions.now) (take (length fractions.now.numerators.now) out.new) }
    ensures rest { drop (length fractions.now.numerators.now) out.new ≡ drop (length fractions.now.numerators.now) out.old }
    ensures len { length out.new ≡ length out.old }
{
    for place in 0..fractions.numerators.len() {
        let fraction = fraction_at(fractions, place);
        put_binary64(out, place, fraction.num, fraction.den);
    }
}

// Writes the nearest floats.
fn put_floats(fractions: &FractionArrays, out: &mut [u32])
    requires { spec.fraction_fault fractions.now (length out.old) ≡ None }
    ensures nearest { AreNearest binary32 (spec.fractions_of fractions.now) (take (length fractions.now.numerators.now) out.new) }
    ensures rest { drop (length fractions.now.numerators.now) out.new ≡ drop (length fractions.now.numerators.now) out.old }
    ensures len { length out.new ≡ length out.old }
{
    for place in 0..fractions.numerators.len() {
        let fraction = fraction_at(fractions, place);
        put_binary32(out, place, fraction.num, fraction.den);
    }
}

/// Writes the bits of the binary64 numbers nearest to the fractions to the start of `out`, one for each numerator.
///
/// # Errors
///
/// The first fault in this order; nothing is then written:
///
/// - `Short`: `per` is 0, `out` has fewer places than there are numerators, or denominators are missing.
/// - `Denominator`: the first needed denominator that, times the scale, is 0, or 2^127 or more.
/// - `Numerator`: the first numerator that is -2^127.
pub fn round_fractions64(fractions: &FractionArrays, out: &mut [u64]) -> Result<(), FractionFault>
    ensures fault { Reports (spec.fraction_fault fractions.now (length out.old)) result }
    ensures put { MatchResult result (λ _. AreNearest binary64 (spec.fractions_of fractions.now) (take (length fractions.now.numerators.now) out.new)) (λ _. out.new ≡ out.old) }
    ensures rest { drop (length fractions.now.numerators.now) out.new ≡ drop (length fractions.now.numerators.now) out.old }
    ensures len { length out.new ≡ length out.old }
{
    match fraction_fault(fractions, out.len()) {
        Some(fault) => Err(fault),
        None => {
            put_doubles(fractions, out);
            Ok(())
        }
    }
}

/// Writes the bits of the binary32 numbers nearest to the fractions to the start of `out`, one for each numerator.
///
/// # Errors
///
/// The first fault in this order; nothing is then written:
///
/// - `Short`: `per` is 0, `out` has fewer places than there are numerators, or denominators are missing.
/// - `Denominator`: the first needed denominator that, times the scale, is 0, or 2^127 or more.
/// - `Numerator`: the first numerator that is -2^127.
pub fn round_fractions32(fractions: &FractionArrays, out: &mut [u32]) -> Result<(), FractionFault>
    ensures fault { Reports (spec.fraction_fault fractions.now (length out.old)) result }
    ensures put { MatchResult result (λ _. AreNearest binary32 (spec.fractions_of fractions.now) (take (length fractions.now.numerators.now) out.new)) (λ _. out.new ≡ out.old) }
    ensures rest { drop (length fractions.now.numerators.now) out.new ≡ drop (length fractions.now.numerators.now) out.old }
    ensures len { length out.new ≡ length out.old }
{
    match fraction_fault(fractions, out.len()) {
        Some(fault) => Err(fault),
        None => {
            put_floats(fractions, out);
            Ok(())
        }
    }
}
