ghost use Rattle.std.specs.Prelude.{◌≡◌, ◌+◌, ◌≤◌, ◌<◌, ◌^◌, List, length, IfOk};
ghost use Rattle.obj_tags.specs.Draft.{IsDraftOf};
ghost use Rattle.obj_tags.specs.Line.{Line};

use crate::channel::{Positions, TextureValues};
use crate::face::Counts;
use crate::survey::Survey;
use raw_mesh::{Boundary, Faces, Tags};
use sharpness_rules::Method;
use std::alloc::{AllocError, Global};

/// What the reader kept of the lines so far.
#[derive(Drop)]
pub(crate) struct Draft {
    pub(crate) positions: Positions,
    pub(crate) texture: TextureValues,
    pub(crate) faces: Faces,
    pub(crate) tags: Tags,
}

// The count of lines, at most the number of good lines of a kind that a text can have.
fn capacity_for(count: u32, most: usize) -> usize
    ensures { result ≤ most }
{
    most.min(count as usize)
}

impl Draft {
    /// An empty draft, with capacity for the lines of each kind that `all` counts. A text of `len` bytes limits the capacity to the good
    /// lines that it can have.
    pub(crate) fn new(alloc: Global, all: Survey, len: usize) -> Result<Draft, AllocError>
        requires { len ≤ 2 ^ 28 }
        ensures { (lines : List Line) → IfOk result (λ draft. IsDraftOf all draft lines 0) }
    {
        let mut starts = Vec::with_capacity(
            alloc,
            capacity_for(all.counts.face_count, len / 4) + 1,
        )?;
        starts.push(0)?;
        Ok(Draft {
            positions: Positions {
                points: Vec::with_capacity(
                    alloc,
                    capacity_for(all.counts.point_count, len / 8 + 1),
                )?,
                long: None,
            },
            texture: TextureValues {
                points: Vec::with_capacity(
                    alloc,
                    capacity_for(all.counts.texture_count, len / 5 + 1),
                )?,
                long: None,
            },
            faces: Faces {
                starts,
                corners: Vec::new(alloc),
                texture_corners: Vec::new(alloc),
            },
            tags: Tags {
                creases: Vec::new(alloc),
                corners: Vec::new(alloc),
                holes: Vec::new(alloc),
                boundary: Boundary::EdgeOnly,
                method: Method::Normal,
            },
        })
    }

    /// How many lines of each kind the draft has.
    pub(crate) fn counts(&self) -> Counts
        requires points { length self.now.positions.points.items < 2 ^ 32 }
        requires textures { length self.now.texture.points.items < 2 ^ 32 }
        requires some { 1 ≤ length self.now.faces.starts.items }
        requires faces { length self.now.faces.starts.items ≤ 2 ^ 32 }
        ensures points { result.point_count ≡ length self.now.positions.points.items }
        ensures textures { result.texture_count ≡ length self.now.texture.points.items }
        ensures faces { result.face_count + 1 ≡ length self.now.faces.starts.items }
    {
        Counts {
            point_count: self.positions.points.len() as u32,
            texture_count: self.texture.points.len() as u32,
            face_count: (self.faces.starts.len() - 1) as u32,
        }
    }
}
