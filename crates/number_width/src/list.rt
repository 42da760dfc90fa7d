//! A list of numbers of one width.

ghost use Rattle.std.specs.Prelude.{◌≡◌, ◌+◌, ◌<◌, ◌≤◌, ℕ, [], ◌∷◌, ◌++◌, List, length, get_or, map, replicate, set, slice_range, IfOk, OnOk, OnErr, IsOk};
ghost use Rattle.std.specs.List.{All};
ghost use Rattle.std.specs.Vec.{vec_capacity};
ghost use Rattle.number_width.specs.Numbers.{most_of, numbers_in};
ghost use Rattle.number_width.specs.declared.width.Width.TheVariants as width;

use crate::natural::Natural;
use crate::slice::NumberSlice;
use crate::width::Width;
use ratio128::Memory;
use std::alloc::Global;
use std::marker::Model;

// The numbers, in their width.
#[derive(Drop)]
pub(crate) enum Items {
    Narrow(Vec<u64>),
    Wide(Vec<u128>),
}

/// A list of numbers of one width, 64 or 128 bits.
#[derive(Drop)]
pub struct NumberList {
    items: Items,
}

impl Model for NumberList {
    ghost use Rattle.number_width.specs.Numbers.{Numbers};
    ghost use Rattle.number_width.specs.Items.{numbers_of};

    ghost Value = { Numbers };

    ghost view = { λ n. numbers_of n.items };
}

// Returns the numbers in 128 bits, in a list with at least this capacity.
fn widened(alloc: Global, narrow: &Vec<u64>, capacity: usize) -> Result<Vec<u128>, Memory>
    requires { length narrow.now.items ≤ capacity }
    ensures items { IfOk result (λ wide. wide.items ≡ narrow.now.items) }
    ensures capacity { IfOk result (λ wide. capacity ≤ vec_capacity wide) }
{
    let mut wide = Vec::with_capacity(alloc, capacity)?;
    for number in narrow {
        wide.push_reserved(*number as u128);
    }
    Ok(wide)
}

// Appends numbers to a list that has capacity for them.
fn append<S: Natural, T: Natural>(items: &mut Vec<T>, numbers: &[S])
    requires capacity { length items.old.items + length numbers.now ≤ vec_capacity items.old }
    requires small { All (λ number. S.value number ≤ T.most) numbers.now }
    ensures items { map T.value items.new.items ≡ map T.value items.old.items ++ map S.value numbers.now }
    ensures capacity { vec_capacity items.new ≡ vec_capacity items.old }
{
    for number in numbers {
        items.push_reserved(T::of(number.wide()));
    }
}

impl NumberList {
    /// Returns an empty list of 64-bit numbers. The call takes no memory.
    pub fn new(alloc: Global) -> NumberList
        ensures items { result.items ≡ [] }
        ensures width { result.width ≡ width.Narrow }
    {
        NumberList {
            items: Items::Narrow(Vec::new(alloc)),
        }
    }

    /// Returns an empty list of a width, with capacity for at least `capacity` numbers. `Memory`: memory ran out.
    pub fn with_capacity(alloc: Global, width: Width, capacity: usize) -> Result<NumberList, Memory>
        ensures items { IfOk result (λ list. list.items ≡ []) }
        ensures width { IfOk result (λ list. list.width ≡ width) }
        ensures capacity { IfOk result (λ list. capacity ≤ list.capacity) }
    {
        let items = match width {
            Width::Narrow => Items::Narrow(Vec::with_capacity(alloc, capacity)?),
            Width::Wide => Items::Wide(Vec::with_capacity(alloc, capacity)?),
        };
        Ok(NumberList { items })
    }

    /// Returns a list of `len` zeros of a width. `Memory`: memory ran out.
    pub fn zeros(alloc: Global, width: Width, len: usize) -> Result<NumberList, Memory>
        ensures items { IfOk result (λ list. list.items ≡ replicate len 0) }
        ensures width { IfOk result (λ list. list.width ≡ width) }
        ensures capacity { IfOk result (λ list. len ≤ list.capacity) }
    {
        let items = match width {
            Width::Narrow => Items::Narrow(vec![in alloc; 0; len]?),
            Width::Wide => Items::Wide(vec![in alloc; 0; len]?),
        };
        Ok(NumberList { items })
    }

    /// Returns how many numbers the list has.
    pub fn len(&self) -> usize
        ensures { result ≡ length self.now.items }
    {
        match &self.items {
            Items::Narrow(items) => items.len(),
            Items::Wide(items) => items.len(),
        }
    }

    /// Returns the width of the numbers.
    pub fn width(&self) -> Width
        ensures { result ≡ self.now.width }
    {
        match &self.items {
            Items::Narrow(_) => Width::Narrow,
            Items::Wide(_) => Width::Wide,
        }
    }

    /// Returns the numbers from place `from` up to place `to`, counted from 0; `to` is not included.
    pub fn range(&self, from: usize, to: usize) -> NumberSlice<'_>
        requires forward { from ≤ to }
        requires inside { to ≤ length self.now.items }
        ensures { numbers_in result ≡ slice_range self.now.items from to }
    {
        match &self.items {
            Items::Narrow(items) => NumberSlice::Narrow(&items[from..to]),
            Items::Wide(items) => NumberSlice::Wide(&items[from..to]),
        }
    }

    /// Takes memory for `more` further numbers. The list keeps its numbers. `Memory`: memory ran out.
    pub fn reserve(&mut self, more: usize) -> Result<(), Memory>
        ensures items { self.new.items ≡ self.old.items }
        ensures width { self.new.width ≡ self.old.width }
        ensures capacity { self.old.capacity ≤ self.new.capacity }
        ensures enough { OnOk result (length self.old.items + more ≤ self.new.capacity) }
        ensures sure { length self.old.items + more ≤ self.old.capacity → IsOk result }
    {
        match &mut self.items {
            Items::Narrow(items) => items.reserve(more)?,
            Items::Wide(items) => items.reserve(more)?,
        }
        Ok(())
    }

    /// Turns the numbers into 128-bit numbers. The capacity does not shrink. Only a list of 64-bit numbers needs memory. `Memory`: memory
    /// ran out, and the list is unchanged.
    pub fn widen(&mut self, alloc: Global) -> Result<(), Memory>
        ensures items { self.new.items ≡ self.old.items }
        ensures width { OnOk result (self.new.width ≡ width.Wide) }
        ensures same { OnErr result (self.new ≡ self.old) }
        ensures capacity { self.old.capacity ≤ self.new.capacity }
        ensures sure { self.old.width ≡ width.Wide → IsOk result }
    {
        if let Items::Narrow(items) = &self.items {
            let wide = widened(alloc, items, items.capacity())?;
            self.items = Items::Wide(wide);
        }
        Ok(())
    }

    /// Appends numbers of any width. The list has capacity for them, and each fits its width.
    pub fn append<T: Natural>(&mut self, numbers: &[T])
        requires capacity { length self.old.items + length numbers.now ≤ self.old.capacity }
        requires small { All (λ number. T.value number ≤ most_of self.old.width) numbers.now }
        ensures items { self.new.items ≡ self.old.items ++ map T.value numbers.now }
        ensures width { self.new.width ≡ self.old.width }
        ensures capacity { self.new.capacity ≡ self.old.capacity }
    {
        match &mut self.items {
            Items::Narrow(items) => append(items, numbers),
            Items::Wide(items) => append(items, numbers),
        }
    }

    /// Replaces the number at place `at`. The new number fits the width of the list.
    pub fn set(&mut self, at: usize, number: u128)
        requires inside { at < length self.old.items }
        requires small { number ≤ most_of self.old.width }
        ensures items { self.new.items ≡ set self.old.items at number }
        ensures width { self.new.width ≡ self.old.width }
        ensures capacity { self.new.capacity ≡ self.old.capacity }
    {
        match &mut self.items {
            Items::Narrow(items) => items[at] = number as u64,
            Items::Wide(items) => items[at] = number,
        }
    }
}
