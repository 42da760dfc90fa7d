//! A sum for each place. Clearing the sums visits only the places that changed.

ghost use Rattle.std.specs.Prelude.{◌≡◌, ◌+◌, ◌*◌, ◌<◌, ◌≤◌, length, map, replicate, take, IfOk, OnErr, OnOk};
ghost use Rattle.std.specs.List.{All, zip};
ghost use Rattle.std.specs.List.Sorted.{IsPermutation, IsNonDecreasing};
ghost use Rattle.stencil_apply.specs.Table.{total_of, sum_of_shares};
ghost use Rattle.stencil_apply.specs.Means.{CanSum, word_bound};
ghost use Rattle.ratio128.specs.Numbers.{zeros};
ghost use Rattle.place_sums.specs.Sums.{added_at, added_shares, sum_of, shares_from, AreSharesOf};
ghost use Rattle.place_sums.specs.Touched.{StartWithTouched, touched_with, moved, cleared};

use crate::entries::{Entries, take_sum};
use number_width::Natural;
use ratio128::{Memory, Primvar, Steps};
use std::alloc::Global;
use std::marker::Model;
use std::sync::ledger::Ledger;

/// A sum for each place. An addition takes no memory.
#[derive(Drop)]
pub struct PlaceSums<T: Natural> {
    sums: Vec<T>,
    // The first `count` numbers are the places whose sum is not 0. There is one number more than there are places. So a place can be
    // written behind the first `count` numbers before its sum is tested.
    touched: Vec<u32>,
    count: usize,
}

impl<T: Natural> Model for PlaceSums<T> {
    ghost use Rattle.std.specs.Prelude.{ℕ, List, map};
    ghost use Rattle.place_sums.specs.Touched.{StartWithTouched};

    ghost Value = { List ℕ };

    ghost view = { λ s. map T.value s.sums.items };

    ghost invariant = { λ s. StartWithTouched s.touched.items s.count (map T.value s.sums.items) };
}

// Writes a place behind the first `count` numbers. Returns how many numbers count now: one more if the place's sum was 0.
#[inline(always)]
fn touch(touched: &mut [u32], count: usize, place: u32, sum: u128) -> usize
    requires { count < length touched.old }
    ensures len { length touched.new ≡ length touched.old }
    ensures noted { take result touched.new ≡ touched_with place sum (take count touched.old) }
{
    touched[count] = place;
    count + usize::from(sum == 0)
}

// Two numbers whose product is added.
struct Product<T: Natural> {
    factor: T,
    other: T,
}

// Adds a product above 0 at a place. All sums together stay within the width of `T`. The first `count` numbers of `touched` are the places
// whose sum is not 0. Returns how many numbers count now.
#[inline(always)]
fn add_product<T: Natural>(
    sums: &mut [T],
    touched: &mut [u32],
    count: usize,
    place: u32,
    product: Product<T>,
) -> usize
    requires touched { StartWithTouched touched.old count (map T.value sums.old) }
    requires inside { place < length sums.old }
    requires some { 0 < T.value product.factor * T.value product.other }
    requires fits { sum_of (map T.value sums.old) + T.value product.factor * T.value product.other ≤ T.most }
    ensures touched { StartWithTouched touched.new result (map T.value sums.new) }
    ensures sums { map T.value sums.new ≡ added_at place (T.value product.factor * T.value product.other) (map T.value sums.old) }
{
    let Product { factor, other } = product;
    let at = place as usize;
    let sum = sums[at];
    sums[at] = sum.plus_product(factor, other);
    touch(touched, count, place, sum.wide())
}

// Sorts the first `count` numbers.
fn sort_first(numbers: &mut [u32], count: usize)
    requires { count ≤ length numbers.old }
    ensures len { length numbers.new ≡ length numbers.old }
    ensures permutation { IsPermutation (take count numbers.old) (take count numbers.new) }
    ensures sorted { IsNonDecreasing (take count numbers.new) }
{
    numbers[..count].sort_unstable();
}

// Returns a list of `count` zeros.
fn zeros<T: Natural>(alloc: Global, count: u32) -> Result<Vec<T>, Memory>
    ensures { IfOk result (λ zeros. map T.value zeros.items ≡ replicate count 0) }
{
    let mut zeros = Vec::with_capacity(alloc, count as usize)?;
    for _ in 0..count {
        zeros.push_reserved(T::of(0));
    }
    Ok(zeros)
}

// Returns the sum of the numbers of the places' controls, each times the place's sum, in 64 bits. Each place is one step. The sums of
// these places become 0.
fn sum_places<T: Natural, P: Primvar<L>, L: Ledger>(
    places: &[u32],
    sums: &mut Vec<T>,
    controls: &[P],
    like: &P,
    steps: &mut Steps<L>,
) -> P
    requires inside { All (λ place. place < length sums.old.items) places.now }
    requires fits { CanSum word_bound (moved places.now (map T.value sums.old.items)) (map P.numbers controls.now) }
    requires same_length { All (λ control. length (P.numbers control) ≡ length (P.numbers like.now)) controls.now }
    ensures sum { P.numbers result ≡ sum_of_shares (zeros (P.numbers like.now)) (map P.numbers controls.now) (moved places.now (map T.value sums.old.items)) }
    ensures sums { map T.value sums.new.items ≡ cleared places.now (map T.value sums.old.items) }
    ensures steps { steps.new ≡ steps.old + length places.now }
{
    let mut sum = like.cleared();
    for at in 0..places.len() {
        let control = &controls[places[at] as usize];
        let number = take_sum(sums, places[at]);
        sum.add_narrow(number.wide() as u64, control, steps);
    }
    sum
}

impl<T: Natural> PlaceSums<T> {
    /// Returns the sums of `places` places, all 0.
    ///
    /// The error is `Memory`: memory ran out.
    pub fn new(alloc: Global, places: u32) -> Result<PlaceSums<T>, Memory>
        ensures { IfOk result (λ sums. sums ≡ replicate places 0) }
    {
        Ok(PlaceSums {
            sums: zeros(alloc, places)?,
            touched: vec![in alloc; 0; places as usize + 1]?,
            count: 0,
        })
    }

    /// Adds an amount above 0 at a place. All sums together stay within the width of `T`.
    pub fn add(&mut self, place: u32, amount: T)
        requires inside { place < length self.old }
        requires some { 0 < T.value amount }
        requires fits { sum_of self.old + T.value amount ≤ T.most }
        ensures { self.new ≡ added_at place (T.value amount) self.old }
    {
        let product = Product {
            factor: amount,
            other: T::of(1),
        };
        self.count = add_product(
            &mut self.sums,
            &mut self.touched,
            self.count,
            place,
            product,
        );
    }

    /// Adds `factor` times each numerator at the place of its index. All sums together stay within the width of `T`.
    pub fn add_shares<S: Natural>(&mut self, factor: T, indices: &[u32], numerators: &[S])
        requires equal { length numerators.now ≡ length indices.now }
        requires inside { All (λ index. index < length self.old) indices.now }
        requires factor { 0 < T.value factor }
        requires some { All (λ numerator. 0 < S.value numerator) numerators.now }
        requires fits { sum_of self.old + T.value factor * total_of (zip indices.now (map S.value numerators.now)) ≤ T.most }
        ensures { self.new ≡ added_shares (T.value factor) (zip indices.now (map S.value numerators.now)) self.old }
    {
        // The loop works on values of its own. A write into a list would make it read the fields of `self` anew.
        let sums: &mut [T] = &mut self.sums;
        let touched: &mut [u32] = &mut self.touched;
        let mut count = self.count;
        for i in 0..indices.len() {
            let other = T::of(numerators[i].wide());
            count = add_product(sums, touched, count, indices[i], Product { factor, other });
        }
        self.count = count;
    }

    /// Replaces the entries by the sums that are not 0, in any order. All sums become 0.
    ///
    /// The error is `Memory`: memory ran out, and the sums are unchanged.
    pub fn take_unsorted(&mut self, entries: &mut Entries<T>) -> Result<(), Memory>
        ensures zeros { OnOk result (self.new ≡ replicate (length self.old) 0) }
        ensures entries { OnOk result (AreSharesOf self.old entries.new) }
        ensures unchanged { OnErr result (self.new ≡ self.old) }
    {
        entries.replace(&self.touched[..self.count], &mut self.sums)?;
        self.count = 0;
        Ok(())
    }

    /// Replaces the entries by the sums that are not 0, ascending by place. All sums become 0.
    ///
    /// The error is `Memory`: memory ran out, and the sums are unchanged.
    pub fn take(&mut self, entries: &mut Entries<T>) -> Result<(), Memory>
        ensures zeros { OnOk result (self.new ≡ replicate (length self.old) 0) }
        ensures entries { OnOk result (entries.new ≡ shares_from 0 self.old) }
        ensures unchanged { OnErr result (self.new ≡ self.old) }
    {
        sort_first(&mut self.touched, self.count);
        entries.replace(&self.touched[..self.count], &mut self.sums)?;
        self.count = 0;
        Ok(())
    }

    /// Returns the number of sums that are not 0.
    pub fn count(&self) -> usize
        ensures { result ≡ length (shares_from 0 self.now) }
    {
        self.count
    }

    /// Returns the sum of the numbers of the controls at places whose sum is not 0, each times that sum, in 64 bits. Each such place is
    /// one step. All sums become 0.
    pub fn take_sum<P: Primvar<L>, L: Ledger>(
        &mut self,
        controls: &[P],
        like: &P,
        steps: &mut Steps<L>,
    ) -> P
        requires fits { CanSum word_bound (shares_from 0 self.old) (map P.numbers controls.now) }
        requires same_length { All (λ control. length (P.numbers control) ≡ length (P.numbers like.now)) controls.now }
        ensures sum { P.numbers result ≡ sum_of_shares (zeros (P.numbers like.now)) (map P.numbers controls.now) (shares_from 0 self.old) }
        ensures zeros { self.new ≡ replicate (length self.old) 0 }
        ensures steps { steps.new ≡ steps.old + length (shares_from 0 self.old) }
    {
        let places = &self.touched[..self.count];
        let sum = sum_places(places, &mut self.sums, controls, like, steps);
        self.count = 0;
        sum
    }
}
