//! Fractions in arrays of a caller, and their first fault.

ghost use Rattle.std.specs.Prelude.{◌≡◌, ◌<◌, length, take};
ghost use Rattle.std.specs.List.{position};
ghost use Rattle.flat_arrays.specs.Words.{natural_of};
ghost use Rattle.row_arrays.specs.Fractions as spec;

use crate::FractionFault;
use flat_arrays::Wide;
use ratio128::times_within;

const MOST: u128 = (1 << 127) - 1;

/// Fractions in flat arrays. Number i, counted from 0, is `numerators[i] / (denominators[i / per] * scale)`.
#[repr(C)]
#[derive(Clone, Copy)]
pub struct FractionArrays<'a> {
    /// The numerators: integers in two's complement.
    pub numerators: &'a [Wide],
    /// The denominators, natural numbers, before the factor `scale`.
    pub denominators: &'a [Wide],
    /// How many consecutive numbers share one denominator.
    pub per: u32,
    /// A factor of every denominator, a natural number.
    pub scale: Wide,
}

// Returns whether a denominator times the scale is 0, or 2^127 or more.
fn is_bad_denominator(denominator: &Wide, scale: u128) -> bool
    ensures { result ≡ spec.is_bad_denominator scale denominator.now }
{
    match times_within(denominator.natural(), scale, MOST) {
        Some(product) => product == 0,
        None => true,
    }
}

// Returns whether a numerator is -2^127.
fn is_bad_numerator(numerator: &Wide) -> bool
    ensures { result ≡ spec.is_bad_numerator numerator.now }
{
    numerator.integer() == i128::MIN
}

// Returns the place of the first denominator out of range.
fn bad_denominator(denominators: &[Wide], scale: u128) -> Option<usize>
    ensures { result ≡ position (spec.is_bad_denominator scale) denominators.now }
{
    denominators
        .iter()
        .position(|denominator| is_bad_denominator(denominator, scale))
}

// Returns the place of the first numerator out of range.
fn bad_numerator(numerators: &[Wide]) -> Option<usize>
    ensures { result ≡ position spec.is_bad_numerator numerators.now }
{
    numerators
        .iter()
        .position(|numerator| is_bad_numerator(numerator))
}

// Returns whether `per` is 0, the output has too few places, or denominators are missing.
fn is_short(fractions: &FractionArrays, places: usize) -> bool
    ensures { result ≡ spec.is_short fractions.now places }
{
    fractions.per == 0
        || places < fractions.numerators.len()
        || fractions.denominators.len()
            < fractions.numerators.len().div_ceil(fractions.per as usize)
}

// Returns the first fault, given the number of places of the output.
pub(crate) fn fraction_fault(fractions: &FractionArrays, places: usize) -> Option<FractionFault>
    ensures { result ≡ spec.fraction_fault fractions.now places }
{
    if is_short(fractions, places) {
        return Some(FractionFault::Short);
    }
    let needed = fractions.numerators.len().div_ceil(fractions.per as usize);
    if let Some(place) = bad_denominator(
        &fractions.denominators[..needed],
        fractions.scale.natural(),
    ) {
        return Some(FractionFault::Denominator(place));
    }
    match bad_numerator(fractions.numerators) {
        Some(place) => Some(FractionFault::Numerator(place)),
        None => None,
    }
}
