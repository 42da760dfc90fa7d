//! The 16 points that control the patch of a face.

ghost use Rattle.std.specs.Prelude.{◌≡◌, ◌+◌, ◌%◌, ◌<◌, true, nat_eq, get_or, length, replicate};
ghost use Rattle.std.specs.List.{position_or_len};
ghost use Rattle.subdiv_model.specs.Polygons.{polygon_at};
ghost use Rattle.subdiv_model.specs.Patch.{patch_points};
ghost use Rattle.patch_bspline.specs.Around.{AreAroundCorner, rows_around, turned_corner};
ghost use Rattle.patch_bspline.specs.Patches.{HasPatch};

use level_topology::Level;
use std::marker::Model;

/// A corner of a face with the three points of the patch beside it, which lie outside the face.
#[derive(Clone, Copy)]
pub(crate) struct CornerPoints {
    /// The corner.
    pub(crate) corner: u32,
    /// The point next to the corner, across the side that leads to the next corner.
    pub(crate) ahead: u32,
    /// The corner opposite to this one in the quad that touches the face in this corner only.
    pub(crate) across: u32,
    /// The point next to the corner, across the side that comes from the previous corner.
    pub(crate) behind: u32,
}

/// The 16 points of a patch, in four rows of four.
#[derive(Drop)]
pub(crate) struct PatchPoints {
    rows: [[u32; 4]; 4],
}

impl Model for PatchPoints {
    ghost use Rattle.std.specs.Prelude.{ℕ, List};

    ghost Value = { List (List ℕ) };

    ghost view = { λ p. p.rows };
}

impl PatchPoints {
    ghost use Rattle.std.specs.Prelude.{◌≡◌, ◌<◌, [], get_or};

    /// Row j.
    pub(crate) fn row(&self, j: usize) -> &[u32; 4]
        requires { j < 4 }
        ensures { result.now ≡ get_or self.now j [] }
    {
        &self.rows[j]
    }
}

// Returns the place that follows `place` by `turns` in a cycle of four.
fn turned(place: usize, turns: usize) -> usize
    requires place { place < 4 }
    requires turns { turns < 4 }
    ensures { result ≡ (place + turns) % 4 }
{
    (place + turns) % 4
}

// Returns the first place of a face in a list.
fn place_of(faces: &[u32], face: u32) -> usize
    ensures { result ≡ position_or_len (nat_eq face) faces.now }
{
    for (i, f) in faces.iter().enumerate() {
        if face == *f {
            return i;
        }
    }
    faces.len()
}

// Goes `turns` quads on from the face around its corner, and returns the corner that lies `turns` places after `v` in that quad.
fn turned_corner(level: &Level, face: u32, c: usize, v: u32, turns: usize) -> u32
    requires has { HasPatch level.now.level face }
    requires complete { level.now.complete ≡ replicate level.now.level.point_count true }
    requires corner { c < 4 }
    requires is { v ≡ get_or (polygon_at level.now.level.polygons face) c 0 }
    requires turns { turns < 4 }
    ensures { result ≡ turned_corner level.now v face turns }
{
    level.facts();
    let faces = level.vertex_faces(v);
    let i = turned(place_of(faces, face), turns);
    let place = turned(usize::from(level.vertex_faces_at(v)[i]), turns);
    level.face_vertices(faces[i])[place]
}

// Returns a corner of a face with the three points around it.
fn corner_points(level: &Level, face: u32, c: usize) -> CornerPoints
    requires has { HasPatch level.now.level face }
    requires complete { level.now.complete ≡ replicate level.now.level.point_count true }
    requires corner { c < 4 }
    ensures { AreAroundCorner level.now.level.polygons face c result }
{
    level.facts();
    let corner = level.face_vertices(face)[c];
    let ahead = turned_corner(level, face, c, corner, 1);
    let across = turned_corner(level, face, c, corner, 2);
    let behind = turned_corner(level, face, c, corner, 3);
    CornerPoints {
        corner,
        ahead,
        across,
        behind,
    }
}

// Arranges four corners and the points around them into the rows of a patch.
fn rows_around(a: CornerPoints, b: CornerPoints, c: CornerPoints, d: CornerPoints) -> PatchPoints
    ensures { result ≡ rows_around a b c d }
{
    PatchPoints {
        rows: [
            [a.across, a.ahead, b.behind, b.across],
            [a.behind, a.corner, b.corner, b.ahead],
            [d.ahead, d.corner, c.corner, c.behind],
            [d.across, d.behind, c.ahead, c.across],
        ],
    }
}

/// Returns the 16 points of the patch of a face.
pub(crate) fn patch_points(level: &Level, face: u32) -> PatchPoints
    requires has { HasPatch level.now.level face }
    requires complete { level.now.complete ≡ replicate level.now.level.point_count true }
    ensures { result ≡ patch_points level.now.level face }
{
    let a = corner_points(level, face, 0);
    let b = corner_points(level, face, 1);
    let c = corner_points(level, face, 2);
    let d = corner_points(level, face, 3);
    rows_around(a, b, c, d)
}
