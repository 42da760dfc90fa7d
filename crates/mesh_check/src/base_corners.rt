//! The vertices that are a corner of exactly one face, at level 0.

ghost use Rattle.std.specs.Prelude.{◌≡◌, ℕ, ◌+◌, ◌^◌, ◌<◌, nat_eq, length, get_or, IfOk, OnOk, if◌then◌else◌};
ghost use Rattle.std.specs.List.{All, count_by, filter, range_with_len, sum_by};
ghost use Rattle.subdiv_model.specs.Base.{is_end_corner};
ghost use Rattle.subdiv_model.specs.Sharpness.{Infinite};
ghost use Rattle.level_builder.specs.Builder.{with_sharp_vertex};
ghost use Rattle.mesh_check.specs.Base.{IsFit, with_vertex_tags, infinite, single_corners};

use crate::marks::no_marks;
use level_builder::LevelBuilder;
use ratio128::Memory;
use raw_mesh::{Boundary, RawMesh};
use sharpness_rules::Sharpness;
use std::alloc::Global;

// Counts the corners of a face at their vertices.
pub(crate) fn count_face(counts: &mut Vec<u32>, face: &[u32])
    requires inside { All (λ v. v < length counts.old.items) face.now }
    requires countable { (v : ℕ) → get_or counts.old.items v 0 + length face.now < 2 ^ 32 }
    ensures counts { (v : ℕ) → get_or counts.new.items v 0 ≡ get_or counts.old.items v 0 + count_by (nat_eq v) face.now }
    ensures size { length counts.new.items ≡ length counts.old.items }
{
    for v in face {
        counts[*v as usize] += 1;
    }
}

// Returns the number of corners of faces at each vertex.
fn corner_counts(alloc: Global, raw: &RawMesh) -> Result<Vec<u32>, Memory>
    ensures size { IfOk result (λ counts. length counts.items ≡ length raw.now.points) }
    ensures counts { IfOk result (λ counts. (v : ℕ) → get_or counts.items v 0 ≡ sum_by (count_by (nat_eq v)) raw.now.faces) }
{
    raw.facts();
    let mut counts = no_marks(alloc, raw.points().len())?;
    for f in 0..raw.faces() {
        count_face(&mut counts, raw.face(f));
    }
    Ok(counts)
}

// Makes a vertex infinitely sharp, if it has one corner.
fn add_single(builder: &mut LevelBuilder, v: u32, count: u32)
    requires { v < builder.old.level.point_count }
    ensures { builder.new ≡ (if nat_eq count 1 then with_sharp_vertex v Infinite builder.old else builder.old) }
{
    if count == 1 {
        builder.add_sharp_vertex(v, Sharpness::Infinite);
    }
}

// Makes each vertex with one corner infinitely sharp.
fn add_singles(builder: &mut LevelBuilder, counts: &[u32])
    requires points { length counts.now ≡ builder.old.level.point_count }
    requires few { length counts.now < 2 ^ 32 }
    ensures { builder.new ≡ with_vertex_tags (infinite (single_corners counts.now)) builder.old }
{
    let mut rest = counts;
    let mut v = 0;
    while let [count, others @ ..] = rest {
        add_single(builder, v, *count);
        v += 1;
        rest = others;
    }
}

// Makes the corners of exactly one face infinitely sharp, if the boundary mode does so.
pub(crate) fn add_end_corners(
    alloc: Global,
    raw: &RawMesh,
    builder: &mut LevelBuilder,
) -> Result<(), Memory>
    requires fit { IsFit raw.now }
    requires points { builder.old.level.point_count ≡ length raw.now.points }
    ensures { OnOk result (builder.new ≡ with_vertex_tags (infinite (filter (is_end_corner raw.now.boundary raw.now.faces) (range_with_len 0 (length raw.now.points)))) builder.old) }
{
    match raw.boundary() {
        Boundary::EdgeAndCorner => {
            let counts = corner_counts(alloc, raw)?;
            add_singles(builder, &counts);
        }
        Boundary::Hidden => (),
        Boundary::EdgeOnly => (),
    }
    Ok(())
}
