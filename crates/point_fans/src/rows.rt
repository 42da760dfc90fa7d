//! The places of each point among the corners of faces and the ends of edges.

ghost use Rattle.std.specs.Prelude.{◌≡◌, ◌+◌, ◌*◌, ◌^◌, ◌<◌, ◌≤◌, true, length, map, nat_eq, not, IfOk};
ghost use Rattle.std.specs.List.{All, list_all, sum_by};
ghost use Rattle.subdiv_model.specs.Polygons.{is_distinct};
ghost use Rattle.point_fans.specs.Chains.{ArePlaces};
ghost use Rattle.level_topology.specs.ListPlaces.{pair_list};

use crate::places::Places;
use level_topology::PackedLists;
use ratio128::Memory;
use std::alloc::Global;

// The places of numbers in lists without repetitions.
pub(crate) fn places_of(alloc: Global, lists: &PackedLists<u32>) -> Result<Places, Memory>
    requires distinct { list_all is_distinct lists.now.lists ≡ true }
    requires sizes { All (λ list. length list ≤ 2 ^ 16) lists.now.lists }
    requires few { length lists.now.lists < 2 ^ 32 }
    requires short { sum_by length lists.now.lists < 2 ^ 32 }
    ensures { IfOk result (λ p. ArePlaces lists.now.lists p.items.items p.owners.items p.within.items) }
{
    let mut places = Places::with_capacity(alloc, lists.total())?;
    for i in 0..lists.len() {
        places.add(i as u32, lists.list(i));
    }
    Ok(places)
}

// The places of numbers in pairs of two different numbers.
pub(crate) fn places_of_ends(alloc: Global, ends: &[(u32, u32)]) -> Result<Places, Memory>
    requires distinct { list_all (λ s. not (nat_eq s.0 s.1)) ends.now ≡ true }
    requires few { length ends.now < 2 ^ 31 }
    ensures { IfOk result (λ p. ArePlaces (map pair_list ends.now) p.items.items p.owners.items p.within.items) }
{
    let mut places = Places::with_capacity(alloc, 2 * ends.len())?;
    for e in 0..ends.len() {
        places.add(e as u32, &[ends[e].0, ends[e].1]);
    }
    Ok(places)
}
