ghost use Rattle.std.specs.Prelude.{◌≡◌, ◌+◌, pos, ◌-ℤ◌};
ghost use Rattle.level_walk.specs.Counts.{counts_of};
ghost use Rattle.level_walk.specs.CountsView.{seen_counts};

use crate::edges::{boundary_edges, sharp_edges};
use crate::faces::hole_count;
use crate::points::{extraordinary_points, used_points};
use level_topology::Level;

/// The counts of a level.
#[derive(Clone, Copy, Debug, PartialEq, Eq)]
pub struct LevelCounts {
    /// All points, including those without a face.
    pub points: u32,
    /// All edges.
    pub edges: u32,
    /// All faces, including holes.
    pub faces: u32,
    /// Euler's number: the points with a face, minus the edges, plus the faces.
    pub euler: i64,
    /// The edges with one face.
    pub boundary: u32,
    /// The faces that are holes.
    pub holes: u32,
    /// The sharp edges with two faces.
    pub sharp: u32,
    /// The points inside the mesh that have a face and a number of edges other than four.
    pub extraordinary: u32,
}

// Returns the points with a face, minus the edges, plus the faces.
fn euler_number(used: u32, edges: u32, faces: u32) -> i64
    ensures { result ≡ pos (used + faces) -ℤ pos edges }
{
    used as i64 + faces as i64 - edges as i64
}

impl LevelCounts {
    /// Returns the counts of a level, in time linear in its tables. The call takes no memory.
    pub fn of(level: &Level) -> LevelCounts
        ensures { seen_counts result ≡ counts_of level.now.level }
    {
        LevelCounts {
            points: level.points(),
            edges: level.edges(),
            faces: level.faces(),
            euler: euler_number(used_points(level), level.edges(), level.faces()),
            boundary: boundary_edges(level),
            holes: hole_count(level),
            sharp: sharp_edges(level),
            extraordinary: extraordinary_points(level),
        }
    }
}
