//! A level of a map.

ghost use Rattle.std.specs.Prelude.{◌≡◌, None, get_or};
ghost use Rattle.patch_map.specs.Map.{map_level};

use std::marker::Model;

/// A level after level 0: the numbers of its faces in the uniform level, and the places of the first children of the faces before.
#[derive(Drop)]
pub(crate) struct MapLevel {
    depth: u32,
    firsts: Vec<Option<u32>>,
    numbers: Vec<u64>,
}

impl Model for MapLevel {
    ghost use Rattle.patch_map.specs.Map.{MapLevel, map_level};

    ghost Value = { MapLevel };

    ghost view = { λ l. map_level l.depth l.firsts.items l.numbers.items };
}

impl MapLevel {
    /// A level from its parts.
    pub(crate) fn of(depth: u32, firsts: Vec<Option<u32>>, numbers: Vec<u64>) -> MapLevel
        ensures { result ≡ map_level depth firsts.items numbers.items }
    {
        MapLevel {
            depth,
            firsts,
            numbers,
        }
    }

    /// The number of steps from level 0.
    pub(crate) fn depth(&self) -> u32
        ensures { result ≡ self.now.depth }
    {
        self.depth
    }

    /// The place of the first child of a face of the level before, by the face's place there. It is `None` for a face that has no
    /// children.
    pub(crate) fn first(&self, place: u64) -> Option<u32>
        ensures { result ≡ get_or self.now.firsts place None }
    {
        if place < self.firsts.len() as u64 {
            self.firsts[place as usize]
        } else {
            None
        }
    }

    /// The number of the face at a place, or 0 if the level has no such place.
    pub(crate) fn number(&self, place: u64) -> u64
        ensures { result ≡ get_or self.now.numbers place 0 }
    {
        if place < self.numbers.len() as u64 {
            self.numbers[place as usize]
        } else {
            0
        }
    }
}
