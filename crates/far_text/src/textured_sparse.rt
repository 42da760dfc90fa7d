//! The lines of sparse levels with texture: for each level a line with its counts, then lines for its points, texture points and present
//! faces.

ghost use Rattle.std.specs.Prelude.{◌≡◌, ◌<◌, ◌≤◌, false, length, IfSome};
ghost use Rattle.std.specs.Option.{option_map};
ghost use Rattle.std.specs.List.{flat_map};
ghost use Rattle.subdiv_model.specs.SparseTexture.{textured_level_line, textured_level_text, textured_sparse_line};
ghost use Rattle.sparse_level.specs.Faces.{face_at};
ghost use Rattle.obj_out.specs.Puts.{Puts};
ghost use Rattle.far_text.specs.TexturedLines.{AreFacesAlike, CanLevelBePut, CanTexturedBePut, points_part_over, sparse_line_with, texture_part_over, textured_text};

use crate::points::put_points;
use crate::sparse::{SparseMesh, put_kind};
use crate::sparse_corners::{corners_at, place_from, put_sparse_corners};
use crate::texture::put_texture;
use far_io::{Sink, WriteFailed};
use obj_out::Out;
use ratio128::{Point2, Point3};
use sparse_level::{SparseFaces, SparseValues};

/// The texture of sparse levels, from level 0 on. The corners of its faces are texture points, counted from 0 in each level.
///
/// The texture points are numerators over their own denominators, all over `common`.
#[derive(Drop)]
pub struct SparseTexture {
    /// The levels with the texture points that each writes.
    pub levels: Vec<SparseValues<Point2>>,
    /// The common denominator of all texture points.
    pub common: u128,
}

/// The sparse levels of a mesh, and its texture at the same levels. Both have the decimals of the mesh.
#[derive(Drop)]
pub struct TexturedSparse {
    /// The levels of the mesh.
    pub mesh: SparseMesh,
    /// The levels of the texture.
    pub texture: SparseTexture,
}

// The form of a level: the common denominators of its points and texture points, and the number of decimals.
#[derive(Clone, Copy)]
struct LevelForm {
    common: u128,
    texture_common: u128,
    decimals: Option<u32>,
}

// Puts the line with the counts of a level and of its texture.
fn put_counts<K: Sink>(
    out: &mut Out<'_, K>,
    number: u64,
    level: &SparseFaces,
    texture: &SparseFaces,
) -> Result<(), WriteFailed>
    ensures { Puts K.Sink out.old out.new (textured_level_line number level.now texture.now) result }
{
    out.put_count(b"level", number)?;
    out.put_count(b" points", level.points() as u64)?;
    out.put_count(b" faces", level.len() as u64)?;
    out.put_count(b" texture", texture.points() as u64)?;
    out.put_byte(b'\n')
}

// Puts the line of a face: its kind, its number in the uniform level, and its corners, with their texture points if there are any.
fn put_face<K: Sink>(
    out: &mut Out<'_, K>,
    level: &SparseFaces,
    f: u32,
    texture: Option<&[u32]>,
) -> Result<(), WriteFailed>
    requires there { f < length level.now.faces }
    requires alike { IfSome (option_map (λ points. points.now) texture) (λ points. length points ≡ length (face_at level.now f).corners) }
    ensures { Puts K.Sink out.old out.new (sparse_line_with (face_at level.now f) (option_map (λ points. points.now) texture.entry)) result }
{
    put_kind(out, level.kind(f))?;
    out.put_number_after(b' ', level.number(f))?;
    put_sparse_corners(out, level.corners(f), texture)?;
    out.put_byte(b'\n')
}

// Puts a line for each face, with the texture points of its corners if the texture has the face. It goes through each list of faces once.
fn put_faces<K: Sink>(
    out: &mut Out<'_, K>,
    level: &SparseFaces,
    texture: &SparseFaces,
) -> Result<(), WriteFailed>
    requires fine { out.old.failed ≡ false }
    requires alike { AreFacesAlike level.now texture.now }
    ensures { Puts K.Sink out.old out.new (flat_map (textured_sparse_line texture.now) level.now.faces) result }
{
    let mut place = 0;
    for f in 0..level.len() {
        let number = level.number(f);
        place = place_from(texture, place, number);
        put_face(out, level, f, corners_at(texture, place, number))?;
    }
    Ok(())
}

// Puts the lines of a level: its counts, its points, its texture points and its faces.
fn put_level<K: Sink>(
    out: &mut Out<'_, K>,
    number: u64,
    level: &SparseValues<Point3>,
    texture: &SparseValues<Point2>,
    form: LevelForm,
) -> Result<(), WriteFailed>
    requires fine { out.old.failed ≡ false }
    requires written { CanLevelBePut form.common form.texture_common level.now texture.now }
    requires decimals { IfSome form.decimals (λ digits. digits ≤ 18) }
    ensures { Puts K.Sink out.old out.new (textured_level_text form.decimals number
        (points_part_over form.common level.now) (texture_part_over form.texture_common texture.now)) result }
{
    put_counts(out, number, &level.faces, &texture.faces)?;
    put_points(out, &level.values, form.common, form.decimals)?;
    put_texture(out, &texture.values, form.texture_common, form.decimals)?;
    put_faces(out, &level.faces, &texture.faces)
}

/// Puts the lines of sparse levels with their texture, numbered from 0. It takes no memory.
pub fn put_textured_sparse<K: Sink>(
    out: &mut Out<'_, K>,
    sparse: &TexturedSparse,
) -> Result<(), WriteFailed>
    requires fine { out.old.failed ≡ false }
    requires written { CanTexturedBePut sparse.now }
    ensures { Puts K.Sink out.old out.new (textured_text sparse.now) result }
{
    let form = LevelForm {
        common: sparse.mesh.common,
        texture_common: sparse.texture.common,
        decimals: sparse.mesh.decimals,
    };
    for k in 0..sparse.mesh.levels.len() {
        let level = &sparse.mesh.levels[k];
        put_level(out, k as u64, level, &sparse.texture.levels[k], form)?;
    }
    Ok(())
}
