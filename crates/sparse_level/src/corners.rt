//! The corners of all faces, as numbers of points.

ghost use Rattle.std.specs.Prelude.{◌≡◌, ◌+◌, ◌<◌, [], length, get_or, IfOk};
ghost use Rattle.std.specs.List.{sum_by};
ghost use Rattle.subdiv_model.specs.Sparse.{corners_of};
ghost use Rattle.level_topology.specs.Packed.{pieces, Ascend};
ghost use Rattle.sparse_level.specs.Numbers.{numbered_faces};

use crate::numbering::number_points;
use level_topology::Level;
use ratio128::Memory;
use std::alloc::Global;
use std::marker::Model;

/// The corners of each face, with the points numbered by first appearance, and the number of points.
#[derive(Drop)]
pub(crate) struct NumberedCorners {
    points: u32,
    // The start of each face in the list of corners, and then the end of the last face.
    starts: Vec<u32>,
    corners: Vec<u32>,
}

impl Model for NumberedCorners {
    ghost use Rattle.std.specs.Prelude.{length};
    ghost use Rattle.level_topology.specs.Packed.{pieces, Ascend};
    ghost use Rattle.sparse_level.specs.Numbers.{NumberedFaces, numbered};

    ghost Value = { NumberedFaces };

    ghost view = { λ n. numbered n.points (pieces n.starts.items n.corners.items) };

    ghost invariant = { λ n. Ascend n.starts.items (length n.corners.items) };
}

// Returns the vertices of all `count` corners, face by face.
fn copy_corners(alloc: Global, level: &Level, count: u32) -> Result<Vec<u32>, Memory>
    ensures { IfOk result (λ corners. corners.items ≡ corners_of level.now.level.polygons) }
{
    let mut corners = Vec::with_capacity(alloc, count as usize)?;
    for f in 0..level.faces() {
        corners.extend_from_slice(level.face_vertices(f))?;
    }
    Ok(corners)
}

// Returns the corners of face `f`.
fn piece<'a>(starts: &[u32], corners: &'a [u32], f: usize) -> &'a [u32]
    requires ascend { Ascend starts.now (length corners.now) }
    requires inside { f + 1 < length starts.now }
    ensures { result.now ≡ get_or (pieces starts.now corners.now) f [] }
{
    let from = starts[f] as usize;
    let to = starts[f + 1] as usize;
    &corners[from..to]
}

impl NumberedCorners {
    // Returns the corners of the faces of a level.
    pub(crate) fn of(alloc: Global, level: &Level) -> Result<NumberedCorners, Memory>
        ensures { IfOk result (λ corners. corners ≡ numbered_faces level.now.level) }
    {
        level.facts();
        let starts = Vec::from_slice(alloc, level.corner_starts())?;
        let mut corners = copy_corners(alloc, level, starts[level.faces() as usize])?;
        let points = number_points(alloc, level.points(), &mut corners)?;
        Ok(NumberedCorners {
            points,
            starts,
            corners,
        })
    }

    // Returns the number of points that have a number.
    pub(crate) fn points(&self) -> u32
        ensures { result ≡ self.now.points }
    {
        self.points
    }

    // Returns the number of corners of all faces together.
    pub(crate) fn count(&self) -> u32
        ensures { result ≡ sum_by length self.now.faces }
    {
        self.starts[self.starts.len() - 1] - self.starts[0]
    }

    // Returns the corners of a face.
    pub(crate) fn list(&self, f: u32) -> &[u32]
        requires { f < length self.now.faces }
        ensures { result.now ≡ get_or self.now.faces f [] }
    {
        piece(&self.starts, &self.corners, f as usize)
    }
}
