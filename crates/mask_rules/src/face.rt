//! The mask of the new point of a face.

ghost use Rattle.std.specs.Prelude.{◌≡◌, ◌<◌, length};
ghost use Rattle.subdiv_model.specs.Polygons.{polygon_at};
ghost use Rattle.subdiv_model.specs.Mask.{face_mask};
ghost use Rattle.mask_rules.specs.Masks.{IsMask, corners_over};

use level_topology::Level;

/// The mask of a face: each corner has the weight 1, and the denominator is the number of corners.
#[derive(Clone, Copy, Debug, PartialEq, Eq)]
pub struct FaceMask {
    size: u32,
}

impl FaceMask {
    /// Returns the number of corners of the face, which is also the denominator.
    pub fn size(&self) -> u32
        ensures { result ≡ self.now.size }
    {
        self.size
    }
}

/// Returns the mask of face `f`, counted from 0. The call cannot fail and takes no memory.
pub fn face_mask(level: &Level, f: u32) -> FaceMask
    requires { f < length level.now.level.polygons }
    ensures size { result.size ≡ length (polygon_at level.now.level.polygons f) }
    ensures mask { IsMask (corners_over (polygon_at level.now.level.polygons f) result.size) (face_mask level.now.level f) }
{
    level.facts();
    FaceMask {
        size: level.face_vertices(f).len() as u32,
    }
}
