//! A set of places that lists each of its members once and empties without clearing its marks.

ghost use Rattle.std.specs.Prelude.{◌≡◌, ◌+◌, ◌^◌, ◌<◌, [], length, IfOk, OnOk, OnErr};
ghost use Rattle.std.specs.List.{All};
ghost use Rattle.stencil_factory.specs.PlaceSet.{noted_with, with_place, with_places};

use ratio128::Memory;
use std::alloc::Global;
use std::marker::Model;

/// A set of places. A place is a member if its mark equals the current mark; `places` lists the members in the order they came.
#[derive(Drop)]
pub(crate) struct PlaceSet {
    marks: Vec<u32>,
    mark: u32,
    places: Vec<u32>,
}

impl Model for PlaceSet {
    ghost use Rattle.std.specs.Prelude.{length};
    ghost use Rattle.stencil_factory.specs.PlaceSet.{Places, AreMarked};

    ghost Value = { Places };

    ghost view = { λ m. record { count = length m.marks.items; mark = m.mark; members = m.places.items } };

    ghost invariant = { λ m. AreMarked m.mark m.places.items m.marks.items };
}

// Appends a place to the list, unless its mark `own` is the current mark.
fn note(places: &mut Vec<u32>, place: u32, own: u32, mark: u32) -> Result<(), Memory>
    ensures noted { OnOk result (places.new.items ≡ noted_with place own mark places.old.items) }
    ensures same { OnErr result (places.new.items ≡ places.old.items) }
{
    if own != mark {
        places.push(place)?;
    }
    Ok(())
}

impl PlaceSet {
    /// Returns an empty set of places below `count`.
    pub(crate) fn new(alloc: Global, count: u32) -> Result<PlaceSet, Memory>
        ensures { IfOk result (λ members. members ≡ record { count = count; mark = 1; members = [] }) }
    {
        Ok(PlaceSet {
            marks: vec![in alloc; 0; count as usize]?,
            mark: 1,
            places: Vec::with_capacity(alloc, count as usize)?,
        })
    }

    /// Empties the set, with a new mark.
    pub(crate) fn start(&mut self)
        requires { self.old.mark + 1 < 2 ^ 32 }
        ensures { self.new ≡ record { count = self.old.count; mark = self.old.mark + 1; members = [] } }
    {
        self.mark += 1;
        self.places.clear();
    }

    /// Adds a place to the set. The error is `Memory`.
    pub(crate) fn add(&mut self, place: u32) -> Result<(), Memory>
        requires { place < self.old.count }
        ensures { OnOk result (self.new ≡ with_place place self.old) }
    {
        let at = place as usize;
        let own = self.marks[at];
        note(&mut self.places, place, own, self.mark)?;
        self.marks[at] = self.mark;
        Ok(())
    }

    /// Adds several places to the set. The error is `Memory`.
    pub(crate) fn add_all(&mut self, places: &[u32]) -> Result<(), Memory>
        requires { All (λ place. place < self.old.count) places.now }
        ensures { OnOk result (self.new ≡ with_places places.now self.old) }
    {
        let mut rest = places;
        while let [place, others @ ..] = rest {
            self.add(*place)?;
            rest = others;
        }
        Ok(())
    }

    /// Returns the members, each once, in the order they came.
    pub(crate) fn places(&self) -> &[u32]
        ensures places { result.now ≡ self.now.members }
        ensures inside { All (λ place. place < self.now.count) result.now }
    {
        &self.places
    }
}
