ghost use Rattle.std.specs.Prelude.{◌≡◌, ◌⊎◌, ◌+◌, ◌<◌, ◌≤◌, ℕ, ◌++◌, length, map, take, drop, get_or, IfOk, OnOk};
ghost use Rattle.subdiv_model.specs.ObjFault as fault;
ghost use Rattle.subdiv_model.specs.ObjFault.{first_cause};
ghost use Rattle.subdiv_model.specs.ObjTag.{tag_index_fault, tag_numeral_fault, mode_of_word, method_of_word, for_each};
ghost use Rattle.subdiv_model.specs.Sharpness as model;
ghost use Rattle.sharpness_rules.specs.View.{sharpness_of, method_of};
ghost use Rattle.obj_tags.specs.Kept.{KeptUnless, ReadOr};
ghost use Rattle.obj_tags.specs.TagView.{index_said, sharpness_said, chain_creases, vertex_tags};
ghost use Rattle.raw_mesh.specs.View.{boundary_of, crease_of, corner_tag_of};
ghost use Rattle.obj_tags.specs.Walk.{words_left};

use crate::ObjCause;
use crate::fault::LineFault;
use crate::number::{sharpness, tag_index};
use crate::words::{is_word, next_word};
use obj_text::{Words, read_index};
use raw_mesh::{Boundary, CornerTag, Crease};
use sharpness_rules::{Method, Sharpness};
use std::alloc::{AllocError, Global};

/// The next `count` points or faces that a tag names, of `all` in the mesh.
pub(crate) fn indices(
    alloc: Global,
    words: &mut Words<'_>,
    count: u32,
    all: u32,
) -> Result<Vec<u32>, LineFault>
    requires { count ≤ length (words_left words.old) }
    ensures count { IfOk result (λ found. length found.items ≡ count) }
    ensures found { let read = take count (words_left words.old) in
        KeptUnless result (first_cause (tag_index_fault all) read) (λ found. found.items ≡ map index_said read) }
    ensures rest { OnOk result (words_left words.new ≡ drop count (words_left words.old)) }
{
    let mut found = Vec::new(alloc);
    let mut left = count;
    while left > 0 {
        let Some(word) = next_word(words) else {
            return Err(LineFault::Cause(ObjCause::BadTag));
        };
        found.push(tag_index(word, all)?)?;
        left -= 1;
    }
    Ok(found)
}

/// The next `count` values of sharpness.
pub(crate) fn values(
    alloc: Global,
    words: &mut Words<'_>,
    count: u32,
) -> Result<Vec<Sharpness>, LineFault>
    requires { count ≤ length (words_left words.old) }
    ensures count { IfOk result (λ found. length found.items ≡ count) }
    ensures found { let read = take count (words_left words.old) in
        KeptUnless result (first_cause tag_numeral_fault read) (λ found. map sharpness_of found.items ≡ map sharpness_said read) }
    ensures rest { OnOk result (words_left words.new ≡ drop count (words_left words.old)) }
{
    let mut found = Vec::new(alloc);
    let mut left = count;
    while left > 0 {
        let Some(word) = next_word(words) else {
            return Err(LineFault::Cause(ObjCause::BadTag));
        };
        found.push(sharpness(word)?)?;
        left -= 1;
    }
    Ok(found)
}

// The sharpness at a place: the only value if there is one, and the value at that place otherwise.
fn sharpness_at(values: &[Sharpness], i: usize) -> Sharpness
    requires { (length values.now ≡ 1) ⊎ (i < length values.now) }
    ensures { (count : ℕ) → i < count → (length values.now ≡ 1) ⊎ (length values.now ≡ count)
        → sharpness_of result ≡ get_or (for_each count (map sharpness_of values.now)) i model.Smooth }
{
    if values.len() == 1 {
        values[0]
    } else {
        values[i]
    }
}

/// Adds each pair of neighbours of a chain as a crease, with one sharpness for all or one for each pair.
pub(crate) fn add_chain(
    creases: &mut Vec<Crease>,
    vertices: &[u32],
    values: &[Sharpness],
) -> Result<(), AllocError>
    requires some { 1 ≤ length vertices.now }
    requires values { (length values.now ≡ 1) ⊎ (length values.now + 1 ≡ length vertices.now) }
    ensures { OnOk result (map crease_of creases.new.items
        ≡ map crease_of creases.old.items ++ chain_creases vertices.now (map sharpness_of values.now)) }
{
    for i in 0..vertices.len() - 1 {
        creases.push(Crease {
            a: vertices[i],
            b: vertices[i + 1],
            sharpness: sharpness_at(values, i),
        })?;
    }
    Ok(())
}

/// Adds each point as a corner tag, with one sharpness for all or one for each point.
pub(crate) fn add_corners(
    corners: &mut Vec<CornerTag>,
    vertices: &[u32],
    values: &[Sharpness],
) -> Result<(), AllocError>
    requires { (length values.now ≡ 1) ⊎ (length values.now ≡ length vertices.now) }
    ensures { OnOk result (map corner_tag_of corners.new.items
        ≡ map corner_tag_of corners.old.items ++ vertex_tags vertices.now (map sharpness_of values.now)) }
{
    for (i, vertex) in vertices.iter().enumerate() {
        corners.push(CornerTag {
            vertex: *vertex,
            sharpness: sharpness_at(values, i),
        })?;
    }
    Ok(())
}

/// The boundary mode that a word names by its number.
pub(crate) fn read_boundary(word: &[u8]) -> Result<Boundary, ObjCause>
    ensures { ReadOr result boundary_of (mode_of_word word.now) fault.BadTag }
{
    match read_index(word) {
        Some(0) => Ok(Boundary::Hidden),
        Some(1) => Ok(Boundary::EdgeAndCorner),
        Some(2) => Ok(Boundary::EdgeOnly),
        _ => Err(ObjCause::BadTag),
    }
}

/// The crease method that a word names.
pub(crate) fn read_method(word: &[u8]) -> Result<Method, ObjCause>
    ensures { ReadOr result method_of (method_of_word word.now) fault.BadTag }
{
    if is_word(word, b"normal") {
        Ok(Method::Normal)
    } else if is_word(word, b"chaikin") {
        Ok(Method::Chaikin)
    } else {
        Err(ObjCause::BadTag)
    }
}
