//! A level written into all arrays of a caller at once.

ghost use Rattle.std.specs.Prelude.{◌≡◌, true, false};
ghost use Rattle.flat_arrays.specs.Places.{IsSameArray};
ghost use Rattle.mesh_arrays.specs.Places as spec;

use crate::level_counts::{LevelCounts, level_counts_of};
use crate::level_edges::put_edges;
use crate::level_faces::{put_corners, put_face_sizes, put_holes};
use level_topology::Level;

/// Arrays of a caller for a level.
#[repr(C)]
#[derive(Drop)]
pub struct LevelPlaces<'a> {
    /// How many corners each face has.
    pub face_sizes: &'a mut [u32],
    /// The points at the corners of all faces, face by face.
    pub corners: &'a mut [u32],
    /// Both ends of each edge, edge by edge.
    pub edges: &'a mut [u32],
    /// For each face 1 if it is a hole, and 0 otherwise.
    pub holes: &'a mut [u8],
}

// Returns whether each array has a place for each item.
fn are_long_enough(counts: &LevelCounts, places: &LevelPlaces) -> bool
    ensures { result ≡ spec.are_long_enough counts.now places.now }
{
    counts.faces as u64 <= places.face_sizes.len() as u64
        && counts.corners as u64 <= places.corners.len() as u64
        && 2 * counts.edges as u64 <= places.edges.len() as u64
        && counts.faces as u64 <= places.holes.len() as u64
}

/// Writes a level to the start of the arrays if each of them is long enough. Returns whether it did. Further places keep their contents.
pub fn put_level(level: &Level, places: &mut LevelPlaces) -> bool
    ensures long_enough { result ≡ spec.are_long_enough (spec.counts_of level.now) places.old }
    ensures written { result ≡ true → spec.IsWritten level.now.level places.new }
    ensures rest { spec.IsRestKept (spec.counts_of level.now) places.old places.new }
    ensures kept { result ≡ false → places.new ≡ places.old }
    ensures face_sizes { IsSameArray places.old.face_sizes places.new.face_sizes }
    ensures corners { IsSameArray places.old.corners places.new.corners }
    ensures edges { IsSameArray places.old.edges places.new.edges }
    ensures holes { IsSameArray places.old.holes places.new.holes }
{
    if !are_long_enough(&level_counts_of(level), places) {
        return false;
    }
    put_face_sizes(level, places.face_sizes);
    put_corners(level, places.corners);
    put_edges(level, places.edges);
    put_holes(level, places.holes);
    true
}
