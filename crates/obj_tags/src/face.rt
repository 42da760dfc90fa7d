ghost use Rattle.std.specs.Prelude.{◌≡◌, ◌+◌, ◌<◌, ◌≤◌, ◌^◌, ℕ, List, length, IfErr, OnOk};
ghost use Rattle.subdiv_model.specs.ObjWord.{corner_parts};
ghost use Rattle.obj_tags.specs.Corner.{HasParts};
ghost use Rattle.obj_tags.specs.Face.{IsFirst, IsNextCorner, NamesPlaces, AddsCorner, corners_fault, AddsFace};
ghost use Rattle.obj_tags.specs.Kept.{KeptUnless};
ghost use Rattle.obj_tags.specs.View.{counts_of};
ghost use Rattle.obj_tags.specs.Walk.{words_left};
ghost use Rattle.obj_tags.specs.declared.fault.LineFault.TheVariants.{Memory};

use crate::ObjCause;
use crate::corner::{Corner, read_corner};
use crate::fault::LineFault;
use crate::number::place;
use crate::words::next_word;
use obj_text::Words;
use raw_mesh::Faces;

/// How many `v`, `vt` and `f` lines a text, or the part of it read so far, has.
#[derive(Clone, Copy)]
pub(crate) struct Counts {
    pub(crate) point_count: u32,
    pub(crate) texture_count: u32,
    pub(crate) face_count: u32,
}

// The corner of a word, which must have the form of the first corner of its line.
fn next_corner(first: &Option<Corner>, word: &[u8]) -> Result<Corner, ObjCause>
    ensures { (start : List ℕ) → IsFirst first.now start word.now → IsNextCorner result start word.now }
{
    let next = read_corner(word).ok_or(ObjCause::BadCorner)?;
    match first {
        Some(first) if !next.has_form_of(first) => Err(ObjCause::BadCorner),
        _ => Ok(next),
    }
}

// The point and the texture value that a corner names, counted from 0.
#[derive(Clone, Copy)]
struct Places {
    point: u32,
    texture: Option<u32>,
}

// The point and the texture value that the indices of a corner name.
fn places_of(all: Counts, before: Counts, corner: Corner) -> Result<Places, ObjCause>
    requires points { before.point_count ≤ all.point_count }
    requires textures { before.texture_count ≤ all.texture_count }
    ensures { (word : List ℕ) → HasParts corner (corner_parts word)
        → NamesPlaces result (counts_of before) (counts_of all) word }
{
    let point = place(corner.vertex, all.point_count, before.point_count)?;
    let texture = match corner.texture {
        Some(index) => Some(place(index, all.texture_count, before.texture_count)?),
        None => None,
    };
    Ok(Places { point, texture })
}

// Appends a corner.
fn keep_corner(faces: &mut Faces, places: Places) -> Result<(), LineFault>
    ensures starts { faces.new.starts ≡ faces.old.starts }
    ensures memory { IfErr result (λ fault. fault ≡ Memory) }
    ensures kept { OnOk result (AddsCorner places faces.old faces.new) }
{
    if let Some(texture) = places.texture {
        faces.texture_corners.push(texture)?;
    }
    faces.corners.push(places.point)?;
    Ok(())
}

/// Keeps the face of an `f` line, given the words after its keyword.
pub(crate) fn keep_face(
    faces: &mut Faces,
    all: Counts,
    before: Counts,
    words: &mut Words<'_>,
) -> Result<(), LineFault>
    requires points { before.point_count ≤ all.point_count }
    requires textures { before.texture_count ≤ all.texture_count }
    requires few { length faces.old.corners.items + length (words_left words.old) < 2 ^ 32 }
    ensures { let read = words_left words.old in
        KeptUnless result (corners_fault (counts_of before) (counts_of all) read)
        (λ _. AddsFace (counts_of before) (counts_of all) read faces.old faces.new) }
{
    let mut first = None;
    while let Some(word) = next_word(words) {
        let next = next_corner(&first, word)?;
        let places = places_of(all, before, next)?;
        keep_corner(faces, places)?;
        first = first.or(Some(next));
    }
    faces.starts.push(faces.corners.len() as u32)?;
    Ok(())
}
