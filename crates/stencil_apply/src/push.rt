//! The addition of a row to the arrays of a table.

ghost use Rattle.std.specs.Prelude.{◌≡◌, ℕ, ◌+◌, ◌^◌, ◌<◌, ◌≤◌, [], ◌∷◌, ◌++◌, length, map, max, OnOk, OnErr, IsOk};
ghost use Rattle.std.specs.List.{All};
ghost use Rattle.std.specs.Vec.{vec_capacity};
ghost use Rattle.number_width.specs.Numbers.{most_of, width_for};
ghost use Rattle.stencil_apply.specs.Arrays.{row_of, row_of_parts};
ghost use Rattle.stencil_apply.specs.Built.{wider, IsGrown, HaveSpace, IsPushed};

use crate::arrays::Arrays;
use crate::entry::Entry;
use number_width::{Natural, NumberList, Width, width_of};
use ratio128::Memory;
use std::alloc::Global;

// Makes the list wide enough for a number.
fn widen_for(numbers: &mut NumberList, alloc: Global, most: u128) -> Result<(), Memory>
    ensures items { numbers.new.items ≡ numbers.old.items }
    ensures capacity { numbers.old.capacity ≤ numbers.new.capacity }
    ensures wide { OnOk result (numbers.new.width ≡ wider numbers.old.width (width_for most)) }
    ensures kept { OnErr result (numbers.new.width ≡ numbers.old.width) }
    ensures sure { most ≤ most_of numbers.old.width → IsOk result }
{
    match width_of(most) {
        Width::Narrow => Ok(()),
        Width::Wide => numbers.widen(alloc),
    }
}

// Reserves memory for a row with this many entries over a denominator.
pub(crate) fn reserve_row(
    arrays: &mut Arrays,
    alloc: Global,
    denominator: u128,
    entries: usize,
) -> Result<(), Memory>
    ensures grown { IsGrown arrays.old arrays.new }
    ensures space { OnOk result (HaveSpace arrays.new entries) }
    ensures wide { OnOk result (arrays.new.numerators.width ≡ wider arrays.old.numerators.width (width_for denominator)) }
    ensures kept { OnErr result (arrays.new.numerators.width ≡ arrays.old.numerators.width) }
    ensures sure { HaveSpace arrays.old entries → denominator ≤ most_of arrays.old.numerators.width → IsOk result }
{
    arrays.ends.reserve(1)?;
    arrays.denominators.reserve(1)?;
    arrays.indices.reserve(entries)?;
    arrays.numerators.reserve(entries)?;
    widen_for(&mut arrays.numerators, alloc, denominator)
}

// Adds the entries of a row, in reserved memory.
fn push_entries(indices: &mut Vec<u32>, numerators: &mut NumberList, row: &[Entry])
    requires index_space { length indices.old.items + length row.now ≤ vec_capacity indices.old }
    requires numerator_space { length numerators.old.items + length row.now ≤ numerators.old.capacity }
    requires small { All (λ e. e.numerator ≤ most_of numerators.old.width) row.now }
    ensures indices { indices.new.items ≡ indices.old.items ++ map (λ e. e.index) row.now }
    ensures numerators { numerators.new.items ≡ numerators.old.items ++ map (λ e. e.numerator) row.now }
    ensures index_capacity { vec_capacity indices.new ≡ vec_capacity indices.old }
    ensures numerator_capacity { numerators.new.capacity ≡ numerators.old.capacity }
    ensures width { numerators.new.width ≡ numerators.old.width }
{
    for entry in row {
        indices.push_reserved(entry.index);
        numerators.append(&[entry.numerator]);
    }
}

// Ends a row after its entries, in reserved memory.
fn end_row(arrays: &mut Arrays, denominator: u128)
    requires end_space { length arrays.old.ends.items < vec_capacity arrays.old.ends }
    requires denominator_space { length arrays.old.denominators.items < vec_capacity arrays.old.denominators }
    requires short { length arrays.old.indices.items < 2 ^ 32 }
    ensures controls { arrays.new.controls ≡ arrays.old.controls }
    ensures greatest { arrays.new.greatest ≡ max arrays.old.greatest denominator }
    ensures ends { arrays.new.ends.items ≡ arrays.old.ends.items ++ length arrays.old.indices.items ∷ [] }
    ensures denominators { arrays.new.denominators.items ≡ arrays.old.denominators.items ++ denominator ∷ [] }
    ensures indices { arrays.new.indices ≡ arrays.old.indices }
    ensures numerators { arrays.new.numerators ≡ arrays.old.numerators }
    ensures end_capacity { vec_capacity arrays.new.ends ≡ vec_capacity arrays.old.ends }
    ensures denominator_capacity { vec_capacity arrays.new.denominators ≡ vec_capacity arrays.old.denominators }
{
    arrays.ends.push_reserved(arrays.indices.len() as u32);
    arrays.denominators.push_reserved(denominator);
    arrays.greatest = arrays.greatest.max(denominator);
}

// Adds a row of entries, in reserved memory.
pub(crate) fn push_row(arrays: &mut Arrays, denominator: u128, row: &[Entry])
    requires space { HaveSpace arrays.old (length row.now) }
    requires short { length arrays.old.indices.items + length row.now < 2 ^ 32 }
    requires small { All (λ e. e.numerator ≤ most_of arrays.old.numerators.width) row.now }
    ensures { IsPushed arrays.old arrays.new (row_of denominator row.now) }
{
    push_entries(&mut arrays.indices, &mut arrays.numerators, row);
    end_row(arrays, denominator);
}

// Adds a row of control points and their numerators, in reserved memory.
pub(crate) fn push_parts<T: Natural>(
    arrays: &mut Arrays,
    denominator: u128,
    indices: &[u32],
    numerators: &[T],
)
    requires equal { length numerators.now ≡ length indices.now }
    requires space { HaveSpace arrays.old (length indices.now) }
    requires short { length arrays.old.indices.items + length indices.now < 2 ^ 32 }
    requires small { All (λ number. T.value number ≤ most_of arrays.old.numerators.width) numerators.now }
    ensures { IsPushed arrays.old arrays.new (row_of_parts denominator indices.now (map T.value numerators.now)) }
{
    arrays.indices.extend_from_slice(indices).unwrap();
    arrays.numerators.append(numerators);
    end_row(arrays, denominator);
}
