//! The edges of sides, each once, by first appearance.

ghost use Rattle.std.specs.Prelude.{◌≡◌, true, nat_eq, length, slice_set, IfOk};
ghost use Rattle.std.specs.List.{filter, position_or_len};
ghost use Rattle.subdiv_model.specs.Polygons.{is_distinct};
ghost use Rattle.subdiv_model.specs.Edges.{first_named};
ghost use Rattle.level_builder.specs.Keys.{AreWords, edge_key, Rises, is_unmarked};

use crate::boundary::known_edges;
use crate::edges::put_if;
use crate::marks::{mark_at, no_marks};
use level_builder::{each_once, edge_key};
use ratio128::Memory;
use std::alloc::Global;

// Returns whether a number is one of these and was not seen before. The call marks its place.
fn is_new(keys: &[u64], marks: &mut Vec<u32>, key: u64) -> bool
    requires rises { Rises keys.now }
    requires once { is_distinct keys.now ≡ true }
    requires size { length marks.old.items ≡ length keys.now }
    ensures new { result ≡ is_unmarked keys.now marks.old.items key }
    ensures marks { marks.new.items ≡ slice_set marks.old.items (position_or_len (nat_eq key) keys.now) 1 }
{
    match keys.binary_search(&key) {
        Ok(place) => !mark_at(marks, place, 1),
        Err(_) => false,
    }
}

// Returns the sides whose edge is one of these and has no mark, each edge once. The numbers of the edges ascend; each has a
// mark.
fn new_sides(
    alloc: Global,
    sides: &[(u32, u32)],
    keys: &[u64],
    marks: Vec<u32>,
) -> Result<Vec<(u32, u32)>, Memory>
    requires rises { Rises keys.now }
    requires once { is_distinct keys.now ≡ true }
    requires size { length marks.items ≡ length keys.now }
    requires words { AreWords sides.now }
    ensures { IfOk result (λ found. found.items ≡ filter (λ s. is_unmarked keys.now marks.items (edge_key s)) (first_named sides.now)) }
{
    let mut marks = marks;
    let mut found = Vec::new(alloc);
    let mut rest = sides;
    while let [side, others @ ..] = rest {
        let new = is_new(keys, &mut marks, edge_key(*side));
        put_if(new, &mut found, *side)?;
        rest = others;
    }
    Ok(found)
}

// Returns the first side of each edge.
pub(crate) fn first_named(alloc: Global, sides: &[(u32, u32)]) -> Result<Vec<(u32, u32)>, Memory>
    ensures { IfOk result (λ found. found.items ≡ first_named sides.now) }
{
    let edges = known_edges(alloc, sides)?;
    let keys = each_once(alloc, &edges)?;
    let marks = no_marks(alloc, keys.len())?;
    let found = new_sides(alloc, sides, &keys, marks)?;
    Ok(found)
}
