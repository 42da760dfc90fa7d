//! Lists of whole numbers that are refined together.

ghost use Rattle.std.specs.Prelude.{◌≡◌, ℕ, ◌+◌, ◌*◌, ◌^◌, ◌<◌, ℤ, pos, ◌+ℤ◌, ◌*ℤ◌, unsigned_abs, List, [], ◌∷◌, length};
ghost use Rattle.ratio128.specs.Numbers.{plus_times, CanAdd, CanAddNarrow, IsKept, zeros, greatest_amount};

use crate::{Point2, Point3, Steps};
use std::sync::ledger::Ledger;

/// A list of whole numbers that is refined as one value, such as the coordinates of a point.
///
/// Code that is generic in it can change the numbers only by the calls below: each addition counts as one step in the ledger `L`.
pub trait Primvar<L: Ledger>: Drop {
    /// The numbers, for contracts.
    ghost numbers: { Self → List ℤ };

    /// Returns as many zeros as there are numbers.
    fn cleared(&self) -> Self
        ensures { numbers result ≡ zeros (numbers self.now) };

    /// Sets all numbers to zero.
    fn clear(&mut self)
        ensures { numbers self.new ≡ zeros (numbers self.old) };

    /// Returns the greatest amount of the numbers, and 0 for an empty list.
    fn greatest(&self) -> u128
        ensures { result ≡ greatest_amount (numbers self.now) };

    /// Adds `weight` times each number of the source, as one step.
    ///
    /// Both lists have the same length, and the amount of each product and each sum is less than 2^127.
    fn add_with_weight(&mut self, weight: i128, source: &Self, steps: &mut Steps<L>)
        requires same_length { length (numbers self.old) ≡ length (numbers source.now) }
        requires fits { CanAdd weight (numbers self.old) (numbers source.now) }
        ensures added { numbers self.new ≡ plus_times weight (numbers self.old) (numbers source.now) }
        ensures step { steps.new ≡ steps.old + 1 };

    /// Adds `weight` times each number of the source in arithmetic of 64 bits, as one step. The default body calls
    /// `add_with_weight`.
    ///
    /// Both lists have the same length. The weight is from 1 to 2^63 - 1. For each number, its amount plus the weight times the
    /// source's amount is at most 2^63 - 1.
    fn add_narrow(&mut self, weight: u64, source: &Self, steps: &mut Steps<L>)
        requires same_length { length (numbers self.old) ≡ length (numbers source.now) }
        requires some { 0 < weight }
        requires short { weight < 2 ^ 63 }
        requires fits { CanAddNarrow weight (numbers self.old) (numbers source.now) }
        ensures added { numbers self.new ≡ plus_times (pos weight) (numbers self.old) (numbers source.now) }
        ensures step { steps.new ≡ steps.old + 1 }
    {
        self.add_with_weight(weight as i128, source, steps);
    }
}

// Returns the number plus `weight` times the other.
fn plus(number: i128, weight: i128, other: i128) -> i128
    requires product { IsKept (weight *ℤ other) }
    requires sum { IsKept (number +ℤ weight *ℤ other) }
    ensures { result ≡ number +ℤ weight *ℤ other }
{
    number + weight * other
}

// Returns the number as a word of 64 bits.
fn word_of(number: i128) -> i64
    requires { unsigned_abs number < 2 ^ 63 }
    ensures { result ≡ number }
{
    number as i64
}

// Returns the number plus `weight` times the other, in 64 bits.
fn plus_in_word(number: i64, weight: i64, other: i64) -> i64
    requires product { unsigned_abs (weight *ℤ other) < 2 ^ 63 }
    requires sum { unsigned_abs (number +ℤ weight *ℤ other) < 2 ^ 63 }
    ensures { result ≡ number +ℤ weight *ℤ other }
{
    number + weight * other
}

// Returns the number plus `weight` times the other, where each factor fits 64 bits.
fn plus_narrow(number: i128, weight: u64, other: i128) -> i128
    requires some { 0 < weight }
    requires short { weight < 2 ^ 63 }
    requires fits { unsigned_abs number + weight * unsigned_abs other < 2 ^ 63 }
    ensures { result ≡ number +ℤ pos weight *ℤ other }
{
    plus_in_word(word_of(number), weight as i64, word_of(other)) as i128
}

impl<L: Ledger> Primvar<L> for Point2 {
    ghost numbers = { λ p. p.u ∷ p.v ∷ [] };

    fn cleared(&self) -> Point2 {
        Point2 { u: 0, v: 0 }
    }

    fn clear(&mut self) {
        self.u = 0;
        self.v = 0;
    }

    fn greatest(&self) -> u128 {
        self.u.unsigned_abs().max(self.v.unsigned_abs())
    }

    fn add_with_weight(&mut self, weight: i128, source: &Point2, steps: &mut Steps<L>) {
        self.u = plus(self.u, weight, source.u);
        self.v = plus(self.v, weight, source.v);
        steps.tick();
    }

    fn add_narrow(&mut self, weight: u64, source: &Point2, steps: &mut Steps<L>) {
        self.u = plus_narrow(self.u, weight, source.u);
        self.v = plus_narrow(self.v, weight, source.v);
        steps.tick();
    }
}

impl<L: Ledger> Primvar<L> for Point3 {
    ghost numbers = { λ p. p.x ∷ p.y ∷ p.z ∷ [] };

    fn cleared(&self) -> Point3 {
        Point3 { x: 0, y: 0, z: 0 }
    }

    fn clear(&mut self) {
        self.x = 0;
        self.y = 0;
        self.z = 0;
    }

    fn greatest(&self) -> u128 {
        self.x
            .unsigned_abs()
            .max(self.y.unsigned_abs())
            .max(self.z.unsigned_abs())
    }

    fn add_with_weight(&mut self, weight: i128, source: &Point3, steps: &mut Steps<L>) {
        self.x = plus(self.x, weight, source.x);
        self.y = plus(self.y, weight, source.y);
        self.z = plus(self.z, weight, source.z);
        steps.tick();
    }

    fn add_narrow(&mut self, weight: u64, source: &Point3, steps: &mut Steps<L>) {
        self.x = plus_narrow(self.x, weight, source.x);
        self.y = plus_narrow(self.y, weight, source.y);
        self.z = plus_narrow(self.z, weight, source.z);
        steps.tick();
    }
}
