//! The places of the values of the new points of the parent's faces.

ghost use Rattle.std.specs.Prelude.{◌≡◌, ◌+◌, ◌<◌, ◌≤◌, ◌^◌, not, ◌&&◌, ◌++◌, ◌∷◌, [], length, IfOk, OnOk, if◌then◌else◌};
ghost use Rattle.std.specs.List.{filter, range_with_len};
ghost use Rattle.level_topology.specs.Child.{FromFace};
ghost use Rattle.child_masks.specs.Masks.{has_origin};
ghost use Rattle.primvar_refine.specs.Places.{is_hidden, ArePlaces, IsPlace};

use child_masks::Survey;
use level_topology::Child;
use ratio128::Memory;
use std::alloc::Global;

/// The place of each face's value in the new list, and the hidden faces. A face is hidden if some mask uses it although no
/// child point comes from it. The values of hidden faces come after those of the child points.
#[derive(Drop)]
pub(crate) struct Places {
    pub of_faces: Vec<u32>,
    pub hidden: Vec<u32>,
}

// Returns the place of a face: that of the child point that comes from it, or a new place if some mask uses the face.
fn place_of(child: &Child, f: u32, named: bool, hidden: &mut Vec<u32>) -> Result<u32, Memory>
    requires known { f < length child.now.parent_sizes }
    requires few { length child.now.origins + length hidden.old.items < 2 ^ 31 }
    ensures hidden { OnOk result (hidden.new.items ≡ hidden.old.items
        ++ (if named && not (has_origin child.now.origins (FromFace f)) then f ∷ [] else [])) }
    ensures place { IfOk result (λ place. IsPlace child.now.origins hidden.new.items f named place) }
{
    child.facts();
    match child.face_point(f) {
        Some(p) => Ok(p),
        None => {
            if !named {
                return Ok(u32::MAX);
            }
            let place = child.level().points() + hidden.len() as u32;
            hidden.push(f)?;
            Ok(place)
        }
    }
}

/// Returns the places of the values of the parent's faces.
pub(crate) fn find_places(alloc: Global, child: &Child, survey: &Survey) -> Result<Places, Memory>
    requires each { length survey.now.named.items ≡ length child.now.parent_sizes }
    requires few { length child.now.parent_sizes ≤ 2 ^ 22 }
    ensures hidden { IfOk result (λ places. places.hidden.items
        ≡ filter (is_hidden child.now.origins survey.now.named.items) (range_with_len 0 (length child.now.parent_sizes))) }
    ensures places { IfOk result (λ places. ArePlaces child.now.origins survey.now.named.items places.hidden.items (length child.now.parent_sizes) places.of_faces.items) }
{
    child.facts();
    let mut of_faces = Vec::with_capacity(alloc, survey.named.len())?;
    let mut hidden = Vec::new(alloc);
    for f in 0..survey.named.len() {
        let place = place_of(child, f as u32, survey.named[f], &mut hidden)?;
        of_faces.push(place)?;
    }
    Ok(Places { of_faces, hidden })
}
