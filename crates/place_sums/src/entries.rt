//! The entries of a row: a list of places with a number for each.

ghost use Rattle.std.specs.Prelude.{◌≡◌, ◌+◌, ◌<◌, ◌≤◌, [], ◌++◌, length, map, get_or, set, OnOk, OnErr};
ghost use Rattle.std.specs.List.{All};
ghost use Rattle.std.specs.Vec.{vec_capacity};
ghost use Rattle.place_sums.specs.Touched.{moved, cleared};

use number_width::Natural;
use ratio128::Memory;
use std::alloc::Global;
use std::marker::Model;

/// A list of places with a number for each: points with weights, or control points with numerators.
#[derive(Drop)]
pub struct Entries<T: Natural> {
    indices: Vec<u32>,
    numerators: Vec<T>,
}

impl<T: Natural> Model for Entries<T> {
    ghost use Rattle.std.specs.Prelude.{◌≡◌, List, length, map};
    ghost use Rattle.std.specs.List.{zip};
    ghost use Rattle.stencil_apply.specs.Table.{Share};

    ghost Value = { List Share };

    ghost view = { λ e. zip e.indices.items (map T.value e.numerators.items) };

    ghost invariant = { λ e. length e.numerators.items ≡ length e.indices.items };
}

// Returns the sum at a place and writes 0 there.
pub(crate) fn take_sum<T: Natural>(sums: &mut Vec<T>, place: u32) -> T
    requires { place < length sums.old.items }
    ensures sum { T.value result ≡ get_or (map T.value sums.old.items) place 0 }
    ensures sums { map T.value sums.new.items ≡ set (map T.value sums.old.items) place 0 }
{
    let at = place as usize;
    let sum = sums[at];
    sums[at] = T::of(0);
    sum
}

// Appends the sum of each place to the numbers and writes 0 there. The numbers have the capacity, so this takes no memory.
fn move_sums<T: Natural>(sums: &mut Vec<T>, places: &[u32], numbers: &mut Vec<T>)
    requires inside { All (λ place. place < length sums.old.items) places.now }
    requires space { length numbers.old.items + length places.now ≤ vec_capacity numbers.old }
    ensures numbers { map T.value numbers.new.items ≡ map T.value numbers.old.items ++ map (λ share. share.1) (moved places.now (map T.value sums.old.items)) }
    ensures sums { map T.value sums.new.items ≡ cleared places.now (map T.value sums.old.items) }
{
    for place in places {
        numbers.push_reserved(take_sum(sums, *place));
    }
}

impl<T: Natural> Entries<T> {
    /// Returns an empty list.
    pub fn new(alloc: Global) -> Entries<T>
        ensures { result ≡ [] }
    {
        Entries {
            indices: Vec::new(alloc),
            numerators: Vec::new(alloc),
        }
    }

    /// Returns the places, in the order of the entries.
    pub fn indices(&self) -> &[u32]
        ensures { result.now ≡ map (λ share. share.0) self.now }
    {
        &self.indices
    }

    /// Returns the numbers, in the order of the entries.
    pub fn numerators(&self) -> &[T]
        ensures { map T.value result.now ≡ map (λ share. share.1) self.now }
    {
        &self.numerators
    }

    /// Replaces the entries by the places and their sums. The sums of these places become 0.
    ///
    /// The error is `Memory`. After an error the sums are unchanged.
    pub(crate) fn replace(&mut self, places: &[u32], sums: &mut Vec<T>) -> Result<(), Memory>
        requires inside { All (λ place. place < length sums.old.items) places.now }
        ensures entries { OnOk result (self.new ≡ moved places.now (map T.value sums.old.items)) }
        ensures sums { OnOk result (map T.value sums.new.items ≡ cleared places.now (map T.value sums.old.items)) }
        ensures same { OnErr result (sums.new.items ≡ sums.old.items) }
    {
        self.indices.clear();
        self.numerators.clear();
        self.numerators.reserve(places.len())?;
        self.indices.extend_from_slice(places)?;
        move_sums(sums, places, &mut self.numerators);
        Ok(())
    }
}
