ghost use Rattle.std.specs.Prelude.{◌≡◌, ◌⊎◌, ◌+◌, ◌<◌, ◌≤◌, length, get_or, [], ◌∷◌, ◌++◌, codes, Some, MatchOption};
ghost use Rattle.subdiv_model.specs.ObjFault as model;
ghost use Rattle.subdiv_model.specs.ObjTag.{tag_fault, mode_fault, method_fault, mode_of_word, method_of_word};
ghost use Rattle.obj_tags.specs.View.{counts_of};
ghost use Rattle.raw_mesh.specs.View.{boundary_of};
ghost use Rattle.obj_tags.specs.Kept.{KeptUnless};
ghost use Rattle.obj_tags.specs.TagView.{value_fault, index_fault, indices_said, AreSaid, AddsChain, AddsCorners, IsBadTag, IsHeadOf};
ghost use Rattle.obj_tags.specs.TagAdded.{AddsTag};
ghost use Rattle.obj_tags.specs.Walk.{words_left};
ghost use Rattle.sharpness_rules.specs.View.{method_of};

use crate::ObjCause;
use crate::face::Counts;
use crate::fault::LineFault;
use crate::tag_counts::{TagCounts, TagKind, kind_named, read_counts};
use crate::tag_values::{add_chain, add_corners, indices, read_boundary, read_method, values};
use crate::words::next_word;
use obj_text::Words;
use raw_mesh::{Boundary, CornerTag, Crease, Tags};
use sharpness_rules::{Method, Sharpness};
use std::alloc::Global;

// The points that a tag names, of `points` in the mesh, and its values of sharpness.
fn vertices_and_values(
    alloc: Global,
    points: u32,
    counts: TagCounts,
    words: &mut Words<'_>,
) -> Result<(Vec<u32>, Vec<Sharpness>), LineFault>
    requires { counts.integers + counts.numerals ≤ length (words_left words.old) }
    ensures { let read = words_left words.old in
        KeptUnless result (value_fault points counts read) (λ r. AreSaid r.0.items r.1.items counts read) }
{
    let vertices = indices(alloc, words, counts.integers, points)?;
    let values = values(alloc, words, counts.numerals)?;
    Ok((vertices, values))
}

// Keeps a chain of creases.
fn keep_crease(
    alloc: Global,
    creases: &mut Vec<Crease>,
    points: u32,
    counts: TagCounts,
    words: &mut Words<'_>,
) -> Result<(), LineFault>
    requires enough { counts.integers + counts.numerals ≤ length (words_left words.old) }
    requires some { 1 ≤ counts.integers }
    requires fit { (counts.numerals ≡ 1) ⊎ (counts.numerals + 1 ≡ counts.integers) }
    ensures { let read = words_left words.old in
        KeptUnless result (value_fault points counts read)
        (λ _. AddsChain counts read creases.old.items creases.new.items) }
{
    let (vertices, values) = vertices_and_values(alloc, points, counts, words)?;
    add_chain(creases, vertices.as_slice(), values.as_slice())?;
    Ok(())
}

// Keeps the sharpness of points.
fn keep_corners(
    alloc: Global,
    corners: &mut Vec<CornerTag>,
    points: u32,
    counts: TagCounts,
    words: &mut Words<'_>,
) -> Result<(), LineFault>
    requires enough { counts.integers + counts.numerals ≤ length (words_left words.old) }
    requires fit { (counts.numerals ≡ 1) ⊎ (counts.numerals ≡ counts.integers) }
    ensures { let read = words_left words.old in
        KeptUnless result (value_fault points counts read)
        (λ _. AddsCorners counts read corners.old.items corners.new.items) }
{
    let (vertices, values) = vertices_and_values(alloc, points, counts, words)?;
    add_corners(corners, vertices.as_slice(), values.as_slice())?;
    Ok(())
}

// Keeps the faces that are holes, of `faces` in the mesh.
fn keep_holes(
    alloc: Global,
    holes: &mut Vec<u32>,
    faces: u32,
    counts: TagCounts,
    words: &mut Words<'_>,
) -> Result<(), LineFault>
    requires { counts.integers ≤ length (words_left words.old) }
    ensures { let read = words_left words.old in
        KeptUnless result (index_fault faces counts read) (λ _. holes.new.items ≡ holes.old.items ++ indices_said counts read) }
{
    let found = indices(alloc, words, counts.integers, faces)?;
    holes.extend_from_slice(found.as_slice())?;
    Ok(())
}

// Sets the boundary mode that the next word names.
fn keep_boundary(boundary: &mut Boundary, words: &mut Words<'_>) -> Result<(), LineFault>
    requires { 0 < length (words_left words.old) }
    ensures { let word = get_or (words_left words.old) 0 [] in
        KeptUnless result (mode_fault word) (λ _. mode_of_word word ≡ Some (boundary_of boundary.new)) }
{
    let word = next_word(words).ok_or(ObjCause::BadTag)?;
    *boundary = read_boundary(word)?;
    Ok(())
}

// Sets the crease method that the next word names.
fn keep_method(method: &mut Method, words: &mut Words<'_>) -> Result<(), LineFault>
    requires { 0 < length (words_left words.old) }
    ensures { let word = get_or (words_left words.old) 0 [] in
        KeptUnless result (method_fault word) (λ _. method_of_word word ≡ Some (method_of method.new)) }
{
    let word = next_word(words).ok_or(ObjCause::BadTag)?;
    *method = read_method(word)?;
    Ok(())
}

// The name and the counts of a tag, if they fit each other and the number of words after them.
fn tag_head(words: &mut Words<'_>, len: usize) -> Option<(TagKind, TagCounts)>
    requires count { len ≡ length (words_left words.old) }
    requires some { 2 ≤ len }
    ensures { let line = codes "t" ∷ words_left words.old in
        MatchOption result (IsBadTag line) (λ head. IsHeadOf head.0 head.1 (words_left words.new) line) }
{
    let kind = kind_named(next_word(words)?)?;
    let counts = read_counts(next_word(words)?)?;
    if counts.fit(kind) && counts.words() == len - 2 {
        Some((kind, counts))
    } else {
        None
    }
}

/// Keeps a tag, given the `len` words after the keyword `t`. There are at least two.
pub(crate) fn keep_tag(
    alloc: Global,
    tags: &mut Tags,
    all: Counts,
    len: usize,
    words: &mut Words<'_>,
) -> Result<(), LineFault>
    requires count { len ≡ length (words_left words.old) }
    requires some { 2 ≤ len }
    ensures { let line = codes "t" ∷ words_left words.old in
        KeptUnless result (tag_fault (counts_of all) line) (λ _. AddsTag line tags.old tags.new) }
{
    let (kind, counts) = tag_head(words, len).ok_or(ObjCause::BadTag)?;
    match kind {
        TagKind::Crease => keep_crease(alloc, &mut tags.creases, all.point_count, counts, words),
        TagKind::Corner => keep_corners(alloc, &mut tags.corners, all.point_count, counts, words),
        TagKind::Hole => keep_holes(alloc, &mut tags.holes, all.face_count, counts, words),
        TagKind::Boundary => keep_boundary(&mut tags.boundary, words),
        TagKind::Method => keep_method(&mut tags.method, words),
        TagKind::Dropped => Ok(()),
    }
}
