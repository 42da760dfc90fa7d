//! Each corner of each face with the corners before and after it, sorted by vertex.

ghost use Rattle.std.specs.Prelude.{◌≡◌, ◌++◌, map, IfOk, OnOk};
ghost use Rattle.std.specs.List.Sorted.{IsPermutation, IsNonDecreasingBy};
ghost use Rattle.level_builder.specs.Keys.{has_equal_neighbours};
ghost use Rattle.mesh_check.specs.Turns.{turns_of, turns_after, turn_key, AreSortedTurns};

use level_builder::side_key;
use ratio128::Memory;
use raw_mesh::RawMesh;
use std::alloc::Global;

// A corner of a face with the corners before and after it.
#[derive(Clone, Copy)]
pub(crate) struct Turn {
    pub(crate) vertex: u32,
    pub(crate) before: u32,
    pub(crate) face: u32,
    pub(crate) after: u32,
}

// Adds the corners of a face to the list.
fn add_turns(turns: &mut Vec<Turn>, face: u32, corners: &[u32]) -> Result<(), Memory>
    ensures { OnOk result (turns.new.items ≡ turns.old.items ++ turns_of face corners.now) }
{
    let [first, ..] = corners else {
        return Ok(());
    };
    let mut before = corners[corners.len() - 1];
    let mut rest = corners;
    while let [v, tail @ ..] = rest {
        let after = tail.first().copied().unwrap_or(*first);
        turns.push(Turn {
            vertex: *v,
            before,
            face,
            after,
        })?;
        before = *v;
        rest = tail;
    }
    Ok(())
}

// Returns the corners of all faces.
fn turns_of_faces(alloc: Global, raw: &RawMesh) -> Result<Vec<Turn>, Memory>
    ensures { IfOk result (λ turns. turns.items ≡ turns_after 0 raw.now.faces) }
{
    let mut turns = Vec::new(alloc);
    for f in 0..raw.faces() {
        add_turns(&mut turns, f, raw.face(f))?;
    }
    Ok(turns)
}

// Sorts corners by vertex, and those at a vertex by the corner before it.
fn sort_turns(turns: &mut Vec<Turn>)
    ensures moved { IsPermutation turns.old.items turns.new.items }
    ensures sorted { IsNonDecreasingBy turn_key turns.new.items }
    ensures vertices { IsNonDecreasingBy (λ turn. turn.vertex) turns.new.items }
{
    turns.sort_unstable_by_key(|turn| side_key((turn.vertex, turn.before)));
}

// Returns the corners of all faces, sorted.
pub(crate) fn sorted_turns(alloc: Global, raw: &RawMesh) -> Result<Vec<Turn>, Memory>
    ensures { IfOk result (λ turns. AreSortedTurns raw.now.faces turns.items) }
{
    let mut turns = turns_of_faces(alloc, raw)?;
    sort_turns(&mut turns);
    Ok(turns)
}

// Returns the side that comes to a corner as one number.
fn turn_key(turn: &Turn) -> u64
    ensures { result ≡ turn_key turn.now }
{
    side_key((turn.vertex, turn.before))
}

// Returns whether two neighbours in the list have the same side before them.
pub(crate) fn has_equal_neighbours(turns: &[Turn]) -> bool
    ensures { result ≡ has_equal_neighbours (map turn_key turns.now) }
{
    let [first, others @ ..] = turns else {
        return false;
    };
    let mut key = turn_key(first);
    let mut rest = others;
    while let [turn, others @ ..] = rest {
        let next = turn_key(turn);
        if key == next {
            return true;
        }
        key = next;
        rest = others;
    }
    false
}
