//! Origins written into the arrays of a caller.

ghost use Rattle.std.specs.Prelude.{◌≡◌, ◌≤◌, true, false, length, map, take, drop};
ghost use Rattle.flat_arrays.specs.Places.{IsSameArray};
ghost use Rattle.level_walk.specs.Origins.{number_of};
ghost use Rattle.level_walk.specs.ChildOrigins.{AreFew};
ghost use Rattle.level_walk.specs.OriginPlaces as spec;
ghost use Rattle.level_walk.specs.OriginsView.{seen_origin, seen_origins};

use crate::origin::{Origin, Origins, number_of};
use flat_arrays::put_items;

/// The number of points and faces with origins. They give a caller the lengths of the arrays of `OriginPlaces`.
#[repr(C)]
#[derive(Clone, Copy, Debug, PartialEq, Eq)]
pub struct OriginCounts {
    /// The number of points.
    pub points: u32,
    /// The number of faces.
    pub faces: u32,
}

/// The arrays of a caller for the origins of a level.
#[repr(C)]
#[derive(Drop)]
pub struct OriginPlaces<'a> {
    /// For each point its kind: 0 for a point of level 0, 1 inside an edge, 2 inside a face.
    pub kinds: &'a mut [u8],
    /// For each point the number of that point, edge or face of level 0, counted from 0.
    pub numbers: &'a mut [u32],
    /// For each face the number of the face of level 0 that it is part of, counted from 0.
    pub faces: &'a mut [u32],
}

// Returns the kind of a part of level 0.
fn kind_of(origin: Origin) -> u8
    ensures { result ≡ spec.kind_of (seen_origin origin) }
{
    match origin {
        Origin::Point(_) => 0,
        Origin::Edge(_) => 1,
        Origin::Face(_) => 2,
    }
}

// Writes the kinds of the first places.
fn put_kinds(origins: &[Origin], out: &mut [u8])
    requires fits { length origins.now ≤ length out.old }
    ensures written { take (length origins.now) out.new ≡ map spec.kind_of (map seen_origin origins.now) }
    ensures rest { drop (length origins.now) out.new ≡ drop (length origins.now) out.old }
    ensures len { length out.new ≡ length out.old }
{
    for (i, origin) in origins.iter().enumerate() {
        out[i] = kind_of(*origin);
    }
}

// Writes the numbers into the first places.
fn put_numbers(origins: &[Origin], out: &mut [u32])
    requires fits { length origins.now ≤ length out.old }
    ensures written { take (length origins.now) out.new ≡ map number_of (map seen_origin origins.now) }
    ensures rest { drop (length origins.now) out.new ≡ drop (length origins.now) out.old }
    ensures len { length out.new ≡ length out.old }
{
    for (i, origin) in origins.iter().enumerate() {
        out[i] = number_of(*origin);
    }
}

// Returns whether each array has a place for each item.
fn are_long_enough(origins: &Origins, places: &OriginPlaces) -> bool
    ensures { result ≡ spec.are_long_enough (seen_origins origins.now) places.now }
{
    origins.points.len() <= places.kinds.len()
        && origins.points.len() <= places.numbers.len()
        && origins.faces.len() <= places.faces.len()
}

/// Returns the number of points and faces with origins, of a level with at most 2^30 points and 2^22 faces.
pub fn origin_counts_of(origins: &Origins) -> OriginCounts
    requires few { AreFew (seen_origins origins.now) }
    ensures { result ≡ spec.counts_of (seen_origins origins.now) }
{
    OriginCounts {
        points: origins.points.len() as u32,
        faces: origins.faces.len() as u32,
    }
}

/// Writes the origins of a level to the front of the arrays, and returns whether it did. It returns `false` and writes
/// nothing if some array is too short. The call leaves later places unchanged.
pub fn put_origins(origins: &Origins, places: &mut OriginPlaces) -> bool
    ensures long_enough { result ≡ spec.are_long_enough (seen_origins origins.now) places.old }
    ensures written { result ≡ true → spec.IsWritten (seen_origins origins.now) places.new }
    ensures rest { spec.IsRestKept (seen_origins origins.now) places.old places.new }
    ensures kept { result ≡ false → places.new ≡ places.old }
    ensures kinds { IsSameArray places.old.kinds places.new.kinds }
    ensures numbers { IsSameArray places.old.numbers places.new.numbers }
    ensures faces { IsSameArray places.old.faces places.new.faces }
{
    if !are_long_enough(origins, places) {
        return false;
    }
    put_kinds(&origins.points, places.kinds);
    put_numbers(&origins.points, places.numbers);
    put_items(places.faces, 0, &origins.faces);
    true
}
