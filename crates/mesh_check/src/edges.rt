//! The search for sides by numbers: sides of crowded edges, and sides of edges with two sides in one direction.

ghost use Rattle.std.specs.Prelude.{◌≡◌, [], ◌∷◌, ◌++◌, ◌||◌, IfOk, OnOk, nat_le, true, false, if◌then◌else◌};
ghost use Rattle.std.specs.List.{count_by, filter, find};
ghost use Rattle.subdiv_model.specs.Polygons.{same_edge, same_side};
ghost use Rattle.subdiv_model.specs.Edges.{reversed};
ghost use Rattle.level_builder.specs.Keys.{Rises, is_named};

use level_builder::{edge_key, edge_keys, frequent, is_known, side_key, side_keys};
use ratio128::Memory;
use std::alloc::Global;

// Returns whether a side is among the known ones in one of its directions. If directions do not count, it returns whether its
// edge is.
fn is_named(known: &[u64], directed: bool, side: (u32, u32)) -> bool
    requires { Rises known.now }
    ensures { result ≡ is_named directed known.now side }
{
    if directed {
        is_known(known, side_key(side)) || is_known(known, side_key((side.1, side.0)))
    } else {
        is_known(known, edge_key(side))
    }
}

// Returns the first side among the known ones.
fn find_side(sides: &[(u32, u32)], known: &[u64], directed: bool) -> Option<(u32, u32)>
    requires { Rises known.now }
    ensures { result ≡ find (is_named directed known.now) sides.now }
{
    let mut rest = sides;
    while let [side, others @ ..] = rest {
        if is_named(known, directed, *side) {
            return Some(*side);
        }
        rest = others;
    }
    None
}

// Adds a side to the list, if `put` is true.
pub(crate) fn put_if(put: bool, found: &mut Vec<(u32, u32)>, side: (u32, u32)) -> Result<(), Memory>
    ensures { OnOk result (found.new.items ≡ (if put then found.old.items ++ side ∷ [] else found.old.items)) }
{
    if put {
        found.push(side)?;
    }
    Ok(())
}

// Returns the sides among the known ones.
pub(crate) fn sides_among(
    alloc: Global,
    sides: &[(u32, u32)],
    known: &[u64],
    directed: bool,
) -> Result<Vec<(u32, u32)>, Memory>
    requires { Rises known.now }
    ensures { IfOk result (λ found. found.items ≡ filter (is_named directed known.now) sides.now) }
{
    let mut found = Vec::new(alloc);
    let mut rest = sides;
    while let [side, others @ ..] = rest {
        let put = is_named(known, directed, *side);
        put_if(put, &mut found, *side)?;
        rest = others;
    }
    Ok(found)
}

// Returns the first side whose edge has three or more sides.
pub(crate) fn crowded_side(
    alloc: Global,
    sides: &[(u32, u32)],
) -> Result<Option<(u32, u32)>, Memory>
    ensures { IfOk result (λ found. found ≡ find (λ s. nat_le 3 (count_by (same_edge s) sides.now)) sides.now) }
{
    let crowded = frequent(alloc, edge_keys(alloc, sides)?, 2)?;
    Ok(find_side(sides, &crowded, false))
}

// Returns the first side whose edge has two sides in one direction.
pub(crate) fn clashing_side(
    alloc: Global,
    sides: &[(u32, u32)],
) -> Result<Option<(u32, u32)>, Memory>
    ensures { IfOk result (λ found. found ≡ find (λ s. nat_le 2 (count_by (same_side s) sides.now) || nat_le 2 (count_by (same_side (reversed s)) sides.now)) sides.now) }
{
    let twice = frequent(alloc, side_keys(alloc, sides)?, 1)?;
    Ok(find_side(sides, &twice, true))
}

// Returns the sides whose edge has three or more sides.
pub(crate) fn crowded_sides(alloc: Global, sides: &[(u32, u32)]) -> Result<Vec<(u32, u32)>, Memory>
    ensures { IfOk result (λ found. found.items ≡ filter (λ s. nat_le 3 (count_by (same_edge s) sides.now)) sides.now) }
{
    let crowded = frequent(alloc, edge_keys(alloc, sides)?, 2)?;
    let found = sides_among(alloc, sides, &crowded, false)?;
    Ok(found)
}

// Returns the sides whose edge has two sides in one direction.
pub(crate) fn clashing_sides(alloc: Global, sides: &[(u32, u32)]) -> Result<Vec<(u32, u32)>, Memory>
    ensures { IfOk result (λ found. found.items ≡ filter (λ s. nat_le 2 (count_by (same_side s) sides.now) || nat_le 2 (count_by (same_side (reversed s)) sides.now)) sides.now) }
{
    let twice = frequent(alloc, side_keys(alloc, sides)?, 1)?;
    let found = sides_among(alloc, sides, &twice, true)?;
    Ok(found)
}
