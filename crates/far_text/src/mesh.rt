//! The text of a refined mesh.

ghost use Rattle.std.specs.Prelude.{◌≡◌, ◌≤◌, false, IfSome};
ghost use Rattle.std.specs.List.{All};
ghost use Rattle.obj_out.specs.Puts.{Puts};
ghost use Rattle.far_text.specs.Points.{CanBeWritten};
ghost use Rattle.far_text.specs.Mesh.{CanBePut, CanTextureBePut, lines_of, plain_lines, refined_text, tag_lines, textured_lines};

use crate::faces::put_faces;
use crate::points::put_points;
use crate::tags::put_tags;
use crate::texture::put_texture;
use crate::textured_faces::put_textured_faces;
use far_io::{Sink, WriteFailed};
use level_topology::Level;
use obj_out::Out;
use ratio128::{Point2, Point3, Valued};

/// The texture of a refined mesh: the last level of its cut mesh, and the texture points of that level.
///
/// The faces of this level are those of the mesh, corner by corner, but each corner is a texture point. The texture points are numerators
/// over their own denominators, all over `common`.
#[derive(Drop)]
pub struct RefinedTexture {
    /// The last level of the cut mesh.
    pub level: Level,
    /// The texture points of that level.
    pub values: Vec<Valued<Point2>>,
    /// The common denominator of all texture points.
    pub common: u128,
}

/// A refined mesh: its last level, the points of that level, and its texture if it has one.
///
/// The points are numerators over their own denominators, all over `common`.
#[derive(Drop)]
pub struct RefinedMesh {
    /// The last level.
    pub level: Level,
    /// The points of that level.
    pub values: Vec<Valued<Point3>>,
    /// The common denominator of all points.
    pub common: u128,
    /// The texture, or `None`.
    pub texture: Option<RefinedTexture>,
}

/// The form of a refined mesh: the number of decimals, or `None` for lowest terms, and whether it has its tags and holes.
#[derive(Clone, Copy, Debug, PartialEq, Eq)]
pub struct MeshForm {
    /// The number of decimals, at most 18, or `None` for lowest terms.
    pub decimals: Option<u32>,
    /// Whether the text has tags and holes.
    pub tags: bool,
}

// Puts the lines of the points and of the faces.
fn put_plain<K: Sink>(
    out: &mut Out<'_, K>,
    mesh: &RefinedMesh,
    form: MeshForm,
) -> Result<(), WriteFailed>
    requires fine { out.old.failed ≡ false }
    requires written { CanBePut mesh.now form }
    ensures { Puts K.Sink out.old out.new (plain_lines mesh.now form) result }
{
    mesh.level.facts();
    put_points(out, &mesh.values, mesh.common, form.decimals)?;
    put_faces(out, &mesh.level, form.tags)
}

// Puts the lines of the points, of the texture points, and of the faces with their texture points.
fn put_textured<K: Sink>(
    out: &mut Out<'_, K>,
    mesh: &RefinedMesh,
    texture: &RefinedTexture,
    form: MeshForm,
) -> Result<(), WriteFailed>
    requires fine { out.old.failed ≡ false }
    requires written { CanBePut mesh.now form }
    requires texture { CanTextureBePut mesh.now.level.level texture.now }
    ensures { Puts K.Sink out.old out.new (textured_lines mesh.now texture.now form) result }
{
    mesh.level.facts();
    put_points(out, &mesh.values, mesh.common, form.decimals)?;
    put_texture(out, &texture.values, texture.common, form.decimals)?;
    put_textured_faces(out, &mesh.level, &texture.level, form.tags)
}

// Puts the lines of the points, of the texture if there is one, and of the faces.
fn put_lines<K: Sink>(
    out: &mut Out<'_, K>,
    mesh: &RefinedMesh,
    form: MeshForm,
) -> Result<(), WriteFailed>
    requires fine { out.old.failed ≡ false }
    requires written { CanBePut mesh.now form }
    ensures { Puts K.Sink out.old out.new (lines_of mesh.now.texture mesh.now form) result }
{
    match &mesh.texture {
        None => put_plain(out, mesh, form),
        Some(texture) => put_textured(out, mesh, texture, form),
    }
}

// Puts the tags of a level if `tags` is true.
fn put_tags_of<K: Sink>(out: &mut Out<'_, K>, level: &Level, tags: bool) -> Result<(), WriteFailed>
    requires fine { out.old.failed ≡ false }
    ensures { Puts K.Sink out.old out.new (tag_lines tags level.now.level) result }
{
    if tags {
        return put_tags(out, level);
    }
    Ok(())
}

/// Puts a line for each point, one for each texture point and one for each face; then the tags if `form` has them.
///
/// Coordinates are fractions in lowest terms, or rounded half to even to at most 18 decimals. Faces count points and texture points from
/// 1, tags count from 0. A hole has a line only if `form` has tags.
pub fn put_refined<K: Sink>(
    out: &mut Out<'_, K>,
    mesh: &RefinedMesh,
    form: MeshForm,
) -> Result<(), WriteFailed>
    requires written { CanBePut mesh.now form }
    ensures { Puts K.Sink out.old out.new (refined_text mesh.now form) result }
{
    // Putting the empty text fails if an earlier call has failed.
    out.put_bytes(b"")?;
    put_lines(out, mesh, form)?;
    put_tags_of(out, &mesh.level, form.tags)
}
