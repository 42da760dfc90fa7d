//! The results of commands, as values.

ghost use Rattle.std.specs.Prelude.{◌≡◌, false};
ghost use Rattle.far_io.specs.Writes.{Writes};
ghost use Rattle.obj_out.specs.Puts.{Puts};
ghost use Rattle.far_text.specs.Reply.{CanPut, reply_text};

use crate::levels::put_levels;
use crate::map::{MapLeaves, put_map};
use crate::mesh::{MeshForm, RefinedMesh, put_refined};
use crate::patch::{PatchPoints, put_patch};
use crate::sparse::{SparseMesh, put_sparse};
use crate::stored::{TablePoints, put_agreement, put_table_points};
use crate::summary::{Summary, put_summary};
use crate::textured_sparse::{TexturedSparse, put_textured_sparse};
use far_io::{Sink, WriteFailed};
use level_walk::LevelCounts;
use obj_out::Out;
use stencil_apply::StencilTable;
use table_file::put_table;

/// The result of a command. It is complete before the program writes its first byte.
#[derive(Drop)]
pub enum Reply {
    /// A refined mesh and the form of its text.
    Refined(RefinedMesh, MeshForm),
    /// The table of stencils of a mesh at a depth.
    Table(StencilTable),
    /// The counts of the levels from 0 on.
    Counts(Vec<LevelCounts>),
    /// The summary of a sheet of the command `gen`.
    Sheet(Summary),
    /// The sparse levels of a mesh.
    Sparse(SparseMesh),
    /// The sparse levels of a mesh, with their texture.
    TexturedSparse(TexturedSparse),
    /// The points of the patch of a face.
    Patch(PatchPoints),
    /// The leaves of the sparse levels that contain the places of a face.
    Map(MapLeaves),
    /// A stored table agrees with the table of a mesh. Both have `rows` rows.
    Agreement { rows: u32 },
    /// The points of a stored table.
    Points(TablePoints),
}

/// Puts the text of a reply. It takes no memory.
pub fn put_reply<K: Sink>(out: &mut Out<'_, K>, reply: &Reply) -> Result<(), WriteFailed>
    requires fine { out.old.failed ≡ false }
    requires written { CanPut reply.now }
    ensures { Puts K.Sink out.old out.new (reply_text reply.now) result }
{
    match reply {
        Reply::Refined(mesh, form) => put_refined(out, mesh, *form),
        Reply::Table(table) => put_table(table, out),
        Reply::Counts(counts) => put_levels(out, counts),
        Reply::Sheet(summary) => put_summary(out, summary),
        Reply::Sparse(mesh) => put_sparse(out, mesh),
        Reply::TexturedSparse(sparse) => put_textured_sparse(out, sparse),
        Reply::Patch(patch) => put_patch(out, patch),
        Reply::Map(map) => put_map(out, map),
        Reply::Agreement { rows } => put_agreement(out, *rows),
        Reply::Points(points) => put_table_points(out, points),
    }
}

/// Writes the text of a reply to a sink and flushes it. It takes no memory.
///
/// Error `WriteFailed`: the sink holds a prefix of the text.
pub fn write_reply<K: Sink>(sink: &mut K, reply: &Reply) -> Result<(), WriteFailed>
    requires { CanPut reply.now }
    ensures { Writes K.Sink sink.old sink.new (reply_text reply.now) result }
{
    let mut out = Out::new(sink);
    put_reply(&mut out, reply)?;
    out.end()
}
