//! The lines of sparse levels: for each level a line with its counts, a line for each point, and a line for each present face.

ghost use Rattle.std.specs.Prelude.{◌≡◌, ◌∷◌, ◌++◌, ◌<◌, ◌≤◌, false, length, codes, IfSome};
ghost use Rattle.std.specs.List.{All, flat_map};
ghost use Rattle.subdiv_model.specs.SparseText.{kind_text, sparse_face_line, sparse_level_line, sparse_level_text};
ghost use Rattle.sparse_level.specs.Faces.{kind_of, face_at};
ghost use Rattle.obj_out.specs.Puts.{Puts};
ghost use Rattle.far_text.specs.Points.{CanBeWritten, points_of};
ghost use Rattle.far_text.specs.SparseLines.{CanSparseBePut, sparse_mesh_text};

use crate::faces::put_corners;
use crate::points::put_points;
use far_io::{Sink, WriteFailed};
use obj_out::Out;
use ratio128::Point3;
use sparse_level::{FaceKind, SparseFaces, SparseValues};

/// The sparse levels of a mesh, from level 0 on, with their points.
///
/// The points are numerators over their own denominators, all over `common`. Their text has `decimals` decimals, at most 18, or is in
/// lowest terms.
#[derive(Drop)]
pub struct SparseMesh {
    /// The levels with the points that each writes.
    pub levels: Vec<SparseValues<Point3>>,
    /// The common denominator of all points.
    pub common: u128,
    /// The number of decimals, or `None` for lowest terms.
    pub decimals: Option<u32>,
}

// Puts the start of the line of a face of this kind.
pub(crate) fn put_kind<K: Sink>(out: &mut Out<'_, K>, kind: FaceKind) -> Result<(), WriteFailed>
    ensures { Puts K.Sink out.old out.new (codes "f" ++ (32 ∷ kind_text (kind_of kind))) result }
{
    match kind {
        FaceKind::Hole => out.put_bytes(b"f h"),
        FaceKind::Outer => out.put_bytes(b"f r"),
        FaceKind::Selected => out.put_bytes(b"f s"),
        FaceKind::Leaf => out.put_bytes(b"f l"),
    }
}

// Puts the line of a face: its kind, its number in the uniform level, and its corners.
fn put_face<K: Sink>(out: &mut Out<'_, K>, level: &SparseFaces, f: u32) -> Result<(), WriteFailed>
    requires { f < length level.now.faces }
    ensures { Puts K.Sink out.old out.new (sparse_face_line (face_at level.now f)) result }
{
    put_kind(out, level.kind(f))?;
    out.put_number_after(b' ', level.number(f))?;
    put_corners(out, level.corners(f))?;
    out.put_byte(b'\n')
}

// Puts a line for each face.
fn put_faces<K: Sink>(out: &mut Out<'_, K>, level: &SparseFaces) -> Result<(), WriteFailed>
    requires fine { out.old.failed ≡ false }
    ensures { Puts K.Sink out.old out.new (flat_map sparse_face_line level.now.faces) result }
{
    for f in 0..level.len() {
        put_face(out, level, f)?;
    }
    Ok(())
}

// Puts the line with the counts of a level.
fn put_counts<K: Sink>(
    out: &mut Out<'_, K>,
    number: u64,
    level: &SparseFaces,
) -> Result<(), WriteFailed>
    ensures { Puts K.Sink out.old out.new (sparse_level_line number level.now) result }
{
    out.put_count(b"level", number)?;
    out.put_count(b" points", level.points() as u64)?;
    out.put_count(b" faces", level.len() as u64)?;
    out.put_byte(b'\n')
}

// Puts the lines of a level: its counts, its points and its faces.
fn put_sparse_level<K: Sink>(
    out: &mut Out<'_, K>,
    number: u64,
    level: &SparseValues<Point3>,
    common: u128,
    decimals: Option<u32>,
) -> Result<(), WriteFailed>
    requires fine { out.old.failed ≡ false }
    requires written { All (CanBeWritten common) level.now.values.items }
    requires decimals { IfSome decimals (λ digits. digits ≤ 18) }
    ensures { Puts K.Sink out.old out.new (sparse_level_text decimals number level.now.faces (points_of common level.now.values.items)) result }
{
    put_counts(out, number, &level.faces)?;
    put_points(out, &level.values, common, decimals)?;
    put_faces(out, &level.faces)
}

/// Puts the lines of sparse levels, numbered from 0.
pub fn put_sparse<K: Sink>(out: &mut Out<'_, K>, mesh: &SparseMesh) -> Result<(), WriteFailed>
    requires fine { out.old.failed ≡ false }
    requires written { CanSparseBePut mesh.now }
    ensures { Puts K.Sink out.old out.new (sparse_mesh_text mesh.now) result }
{
    for k in 0..mesh.levels.len() {
        put_sparse_level(out, k as u64, &mesh.levels[k], mesh.common, mesh.decimals)?;
    }
    Ok(())
}
