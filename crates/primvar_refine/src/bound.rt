//! The greatest denominator, and a bound of all values.

ghost use Rattle.std.specs.Prelude.{◌≡◌, ℕ, ◌<◌, ◌≤◌, ◌^◌, List, [], ◌∷◌, ◌++◌, length};
ghost use Rattle.subdiv_model.specs.Channel.{number_bound};
ghost use Rattle.primvar_refine.specs.Rows.{AreGood, rounded_up, least_bound};
ghost use Rattle.primvar_refine.specs.View.{rows_of};
ghost use Rattle.primvar_refine.specs.Greatest.{IsGreatestAt};
ghost use Rattle.primvar_refine.specs.Width.{sum_width};

use crate::Valued;
use number_width::Width;
use ratio128::{Primvar, quotient, times_within};
use std::sync::ledger::Ledger;

/// The greatest of some denominators, with the first place that has it. For an empty list the denominator is 1.
#[derive(Clone, Copy)]
pub(crate) struct Greatest {
    pub(crate) den: u128,
    pub(crate) place: u32,
}

impl Greatest {
    // Returns the greatest with one more denominator, at the next place.
    fn with(self, den: u128, place: u32) -> Greatest
        ensures { (dens : List ℕ) → place ≡ length dens → IsGreatestAt dens self.den self.place → IsGreatestAt (dens ++ den ∷ []) result.den result.place }
    {
        if den > self.den {
            Greatest { den, place }
        } else {
            self
        }
    }
}

/// Returns the greatest denominator.
pub(crate) fn greatest_of(dens: &Vec<u128>) -> Greatest
    requires { length dens.now.items < 2 ^ 32 }
    ensures { IsGreatestAt dens.now.items result.den result.place }
{
    let mut greatest = Greatest { den: 1, place: 0 };
    for p in 0..dens.len() as u32 {
        greatest = greatest.with(dens[p as usize], p);
    }
    greatest
}

// Returns the least whole number that is at least a fraction.
fn rounded_up(num: u128, den: u128) -> u128
    requires positive { 0 < den }
    requires num { num ≤ number_bound }
    requires den { den ≤ number_bound }
    ensures { result ≡ rounded_up num den }
{
    quotient(num + (den - 1), den)
}

/// Returns the least whole number that no value exceeds in amount.
pub(crate) fn least_bound<P: Primvar<L>, L: Ledger>(values: &[Valued<P>]) -> u128
    requires { AreGood (rows_of P.numbers values.now) }
    ensures exact { result ≡ least_bound (rows_of P.numbers values.now) }
    ensures short { result ≤ number_bound }
{
    let mut bound = 0;
    for value in values {
        bound = bound.max(rounded_up(value.value.greatest(), value.den));
    }
    bound
}

/// Returns the width of sums over denominators up to the greatest, of values that do not exceed the bound in amount. It is 64
/// bits where the greatest denominator and its product with the bound are at most 2^63 - 1.
pub(crate) fn sum_width(greatest: u128, bound: u128) -> Width
    ensures { result ≡ sum_width greatest bound }
{
    match times_within(greatest, bound.max(1), i64::MAX as u128) {
        Some(_) => Width::Narrow,
        None => Width::Wide,
    }
}
