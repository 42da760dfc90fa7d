//! The cut mesh of a texture channel.

ghost use Rattle.std.specs.Prelude.{◌≡◌, ◌+◌, ◌≤◌, true, length, IfOk};
ghost use Rattle.mesh_check.specs.Checked.{IsAccepted};
ghost use Rattle.face_varying.specs.Corners.{apart_marks, corner_numbers};
ghost use Rattle.face_varying.specs.Cut.{IsCut, IsCuttable};
ghost use Rattle.face_varying.specs.View.{mode_of};

use crate::build::level_with;
use crate::channel::Channel;
use crate::fans::joined_corners;
use crate::mode::SeamMode;
use crate::numbers::number_corners;
use crate::points::channel_points;
use crate::seams::apart_edges;
use level_topology::Level;
use ratio128::{Memory, Steps};
use raw_mesh::RawMesh;
use std::alloc::Global;
use std::sync::ledger::Ledger;

// Returns the number of the channel point of each corner, from the edges whose faces are apart. Only the contract uses `raw`.
fn point_numbers(
    alloc: Global,
    raw: &RawMesh,
    level: &Level,
    apart: &[bool],
) -> Result<Vec<u32>, Memory>
    requires cuttable { IsCuttable raw.now level.now }
    requires apart { apart.now ≡ apart_marks raw.now }
    ensures { IfOk result (λ numbers. numbers.items ≡ corner_numbers raw.now) }
{
    let labels = joined_corners(alloc, level, apart)?;
    number_corners(alloc, &labels)
}

// Returns the cut mesh, from the edges whose faces are apart and the number of the channel point of each corner.
fn cut_numbered<L: Ledger>(
    alloc: Global,
    raw: &RawMesh,
    level: &Level,
    apart: &[bool],
    numbers: &[u32],
    mode: SeamMode,
    steps: &mut Steps<L>,
) -> Result<Channel, Memory>
    requires cuttable { IsCuttable raw.now level.now }
    requires apart { apart.now ≡ apart_marks raw.now }
    requires numbers { numbers.now ≡ corner_numbers raw.now }
    ensures cut { IfOk result (λ channel. IsCut (mode_of mode) raw.now channel) }
    ensures steps { steps.new ≤ steps.old + length raw.now.faces }
    ensures later { steps.old ≤ steps.new }
{
    let points = channel_points(alloc, raw, level, numbers)?;
    let level = level_with(
        alloc,
        raw,
        level,
        apart,
        numbers,
        &points.vertices,
        mode,
        steps,
    )?;
    Ok(Channel::new(level, points.values))
}

// Returns the cut mesh, from the edges whose faces are apart.
fn cut_apart<L: Ledger>(
    alloc: Global,
    raw: &RawMesh,
    level: &Level,
    apart: &[bool],
    mode: SeamMode,
    steps: &mut Steps<L>,
) -> Result<Channel, Memory>
    requires cuttable { IsCuttable raw.now level.now }
    requires apart { apart.now ≡ apart_marks raw.now }
    ensures cut { IfOk result (λ channel. IsCut (mode_of mode) raw.now channel) }
    ensures steps { steps.new ≤ steps.old + length raw.now.faces }
    ensures later { steps.old ≤ steps.new }
{
    let numbers = point_numbers(alloc, raw, level, apart)?;
    cut_numbered(alloc, raw, level, apart, &numbers, mode, steps)
}

/// Returns the cut mesh of a mesh with a texture channel, from the mesh and its level 0. The cut mesh has the same faces and
/// holes. An edge with two faces is a seam where their texture numbers differ at either end. Two corners at a vertex have one
/// point exactly where edges that are not seams join them. Points are numbered from 0 by first appearance over faces and
/// corners. Each has the texture value of its corners, over the channel's common denominator.
///
/// An edge of the cut mesh with one face is infinitely sharp; any other has the sharpness of its edge in the mesh. A point
/// has the sharpness of its vertex, unless `mode` makes it infinitely sharp. Every point is complete.
///
/// Reports `Memory` where memory runs out. Each face takes at most one step, and the time is linear in the number of corners.
/// Source: this library; the terms are those of OpenSubdiv's face-varying channels.
pub fn cut<L: Ledger>(
    alloc: Global,
    raw: &RawMesh,
    level: &Level,
    mode: SeamMode,
    steps: &mut Steps<L>,
) -> Result<Channel, Memory>
    requires textured { raw.now.has_texture ≡ true }
    requires accepted { IsAccepted raw.now level.now }
    ensures cut { IfOk result (λ channel. IsCut (mode_of mode) raw.now channel) }
    ensures steps { steps.new ≤ steps.old + length raw.now.faces }
    ensures later { steps.old ≤ steps.new }
{
    raw.facts();
    let apart = apart_edges(alloc, raw, level)?;
    cut_apart(alloc, raw, level, &apart, mode, steps)
}
