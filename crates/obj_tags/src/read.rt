ghost use Rattle.std.specs.Prelude.{◌≡◌, ◌<◌, ◌≤◌, ◌^◌, ℕ, List, length, map, None, MatchResult, OnOk, IfOk, false};
ghost use Rattle.subdiv_model.specs.ObjLine.{lines_of, line_words};
ghost use Rattle.subdiv_model.specs.ReadObj as model;
ghost use Rattle.subdiv_model.specs.ReadObj.{read_obj_fault, read_obj_mesh};
ghost use Rattle.obj_tags.specs.Channel as spec;
ghost use Rattle.obj_tags.specs.Draft.{HasShortNumbers, IsDraftOf};
ghost use Rattle.obj_tags.specs.Kept.{IsReadFault, IsMeshRead, TextKeptUnless};
ghost use Rattle.obj_tags.specs.Line.{Line};
ghost use Rattle.raw_mesh.specs.Mesh.{IsWhole};
ghost use Rattle.obj_tags.specs.Survey.{AreCommon};
ghost use Rattle.obj_tags.specs.View.{counts_of};

use crate::draft::Draft;
use crate::fault::LineFault;
use crate::line::keep_line;
use crate::survey::{Survey, survey_of};
use crate::words::{first_line, skip_mark};
use crate::{ObjCause, ObjFault, ReadFault};
use raw_mesh::{Coordinates, RawMesh};
use std::alloc::Global;

// Keeps the contents of all lines, given their survey. The error is that of the first bad line.
fn keep_lines(alloc: Global, text: &[u8], all: Survey) -> Result<Draft, ReadFault>
    requires short { length text.now ≤ 2 ^ 28 }
    requires counted { counts_of all.counts ≡ model.counts_of (map line_words (lines_of text.now)) }
    requires positions { all.positions.value ≤ 10 ^ 37 }
    requires texture { all.texture.value ≤ 10 ^ 37 }
    ensures { let lines = map line_words (lines_of text.now) in
        TextKeptUnless result (model.first_bad_line lines) (λ draft. IsDraftOf all draft lines (length lines)) }
{
    let mut draft = Draft::new(alloc, all, text.len())?;
    let mut number = 0;
    let mut rest = text;
    while let Some((line, others)) = first_line(rest) {
        number += 1;
        match keep_line(alloc, &mut draft, all, number, line) {
            Ok(()) => {}
            Err(LineFault::Cause(cause)) => {
                return Err(ReadFault::Obj(ObjFault {
                    line: number,
                    cause,
                }));
            }
            Err(LineFault::Memory) => return Err(ReadFault::Memory),
        }
        rest = others;
    }
    Ok(draft)
}

// The lesser of two lines, or the only one.
fn least_line(a: Option<u32>, b: Option<u32>) -> Option<u32>
    ensures { result ≡ spec.lesser_line a b }
{
    match (a, b) {
        (Some(a), Some(b)) => Some(a.min(b)),
        (Some(a), None) => Some(a),
        (None, b) => b,
    }
}

// Makes a mesh of the draft. The error is at the least line where a channel is too wide or a number too long.
fn finish(draft: Draft, all: Survey) -> Result<RawMesh, ReadFault>
    requires short { HasShortNumbers all draft }
    requires whole { IsWhole (length draft.positions.points.items) (length draft.texture.points.items) false draft.faces draft.tags }
    ensures { (lines : List Line) (least : ℕ) → AreCommon all least lines → IsDraftOf all draft lines (length lines)
        → IsMeshRead lines least result }
{
    let Draft {
        positions,
        texture,
        faces,
        tags,
    } = draft;
    let late_position = all.positions.wide.or(positions.long);
    let late_texture = all.texture.wide.or(texture.long);
    if let Some(line) = least_line(late_position, late_texture) {
        return Err(ReadFault::Obj(ObjFault {
            line,
            cause: ObjCause::NumberRange,
        }));
    }
    let coordinates = Coordinates {
        points: positions.points,
        scale: all.positions.value,
        texture: texture.points,
        texture_scale: all.texture.value,
    };
    Ok(RawMesh::of(coordinates, faces, tags))
}

/// Reads the OBJ text of a mesh, of at most 2^28 bytes.
///
/// The common denominator of the positions is the least common multiple of their denominators in lowest terms and of 10^least_scale;
/// `least_scale` is at most 18. That of the texture values is the least common multiple of their own denominators. The format is this
/// profile's part of Wavefront OBJ, with tags on `t` lines.
///
/// - `Obj`: the least faulty line, counted from 1, and its cause. If every line is good by itself, the cause is `NumberRange`. Its line is
///   then the least where the common denominator of a channel exceeds 10^37, or where a number over it exceeds 37 digits.
/// - `Memory`: memory ran out.
pub fn read_obj(alloc: Global, bytes: &[u8], least_scale: u32) -> Result<RawMesh, ReadFault>
    requires short { length bytes.now ≤ 2 ^ 28 }
    requires scale { least_scale ≤ 18 }
    ensures refused { MatchResult result (λ _. Unit {0})
        (λ fault. IsReadFault fault (read_obj_fault bytes.now least_scale)) }
    ensures good { OnOk result (read_obj_fault bytes.now least_scale ≡ None) }
    ensures mesh { IfOk result (λ mesh. mesh ≡ read_obj_mesh bytes.now least_scale) }
{
    let text = skip_mark(bytes);
    let all = survey_of(text, least_scale);
    let draft = keep_lines(alloc, text, all)?;
    finish(draft, all)
}
