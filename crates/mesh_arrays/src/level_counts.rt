//! The numbers of points, edges, faces and corners of a level.

ghost use Rattle.std.specs.Prelude.{◌≡◌, length};
ghost use Rattle.std.specs.List.{sum_by};
ghost use Rattle.mesh_arrays.specs.Places as spec;

use level_topology::Level;

/// The counts of a level. A caller sizes its arrays by them.
#[repr(C)]
#[derive(Clone, Copy, Debug, PartialEq, Eq)]
pub struct LevelCounts {
    /// How many points there are.
    pub points: u32,
    /// How many edges there are.
    pub edges: u32,
    /// How many faces there are.
    pub faces: u32,
    /// How many corners all faces have.
    pub corners: u32,
}

// Returns how many corners all faces have.
fn corners(level: &Level) -> u32
    ensures { result ≡ sum_by length level.now.level.polygons }
{
    let starts = level.corner_starts();
    starts[starts.len() - 1]
}

/// Returns the numbers of points, edges, faces and corners of a level.
pub fn level_counts_of(level: &Level) -> LevelCounts
    ensures { result ≡ spec.counts_of level.now }
{
    LevelCounts {
        points: level.points(),
        edges: level.edges(),
        faces: level.faces(),
        corners: corners(level),
    }
}
