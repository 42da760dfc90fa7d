//! The vertices whose faces are more than one fan.

ghost use Rattle.std.specs.Prelude.{◌≡◌, ◌^◌, ◌<◌, ◌++◌, true, nat_eq, length, map, IfOk, OnOk, IsTrue};
ghost use Rattle.std.specs.List.{list_all, prefix_len};
ghost use Rattle.subdiv_model.specs.Lists.{first_of};
ghost use Rattle.subdiv_model.specs.Polygons.{is_distinct, has_distinct_sides};
ghost use Rattle.subdiv_model.specs.Edges.{all_sides};
ghost use Rattle.subdiv_model.specs.Manifold.{is_simple};
ghost use Rattle.subdiv_model.specs.MeshFault.{SplitVertex, split_vertices};
ghost use Rattle.mesh_check.specs.View.{mesh_fault_of};
ghost use Rattle.level_builder.specs.Keys.{Rises};
ghost use Rattle.mesh_check.specs.Group.{DecidesFan};
ghost use Rattle.mesh_check.specs.Turns.{AreSortedTurns};
ghost use Rattle.mesh_check.specs.Groups.{AreGroups, IsFirstGroup};

use crate::fan::is_fan;
use crate::fault::MeshFault;
use crate::put::put_if;
use crate::turns::Turn;
use ratio128::Memory;
use raw_mesh::RawMesh;
use std::alloc::Global;

// Returns the number of corners at this vertex, from the front of the list on.
fn group_size(turns: &[Turn], v: u32) -> usize
    ensures { result ≡ prefix_len (λ turn. nat_eq v turn.vertex) turns.now }
{
    let mut rest = turns;
    let mut size = 0;
    while let [turn, others @ ..] = rest {
        if turn.vertex != v {
            return size;
        }
        size += 1;
        rest = others;
    }
    size
}

// Returns the corners before these.
fn befores_of(alloc: Global, turns: &[Turn]) -> Result<Vec<u32>, Memory>
    ensures { IfOk result (λ corners. corners.items ≡ map (λ turn. turn.before) turns.now) }
{
    let mut corners = Vec::with_capacity(alloc, turns.len())?;
    let mut rest = turns;
    while let [turn, others @ ..] = rest {
        corners.push(turn.before)?;
        rest = others;
    }
    Ok(corners)
}

// Returns the corners after these.
fn afters_of(alloc: Global, turns: &[Turn]) -> Result<Vec<u32>, Memory>
    ensures { IfOk result (λ corners. corners.items ≡ map (λ turn. turn.after) turns.now) }
{
    let mut corners = Vec::with_capacity(alloc, turns.len())?;
    let mut rest = turns;
    while let [turn, others @ ..] = rest {
        corners.push(turn.after)?;
        rest = others;
    }
    Ok(corners)
}

// Returns whether the faces at a vertex are one fan, from their corners there, which ascend by the corner before them.
fn is_group_fan(alloc: Global, group: &[Turn]) -> Result<bool, Memory>
    requires rises { Rises (map (λ turn. turn.before) group.now) }
    requires once { is_distinct (map (λ turn. turn.before) group.now) ≡ true }
    requires short { length group.now < 2 ^ 32 }
    ensures { IfOk result (λ is. DecidesFan (map (λ turn. turn.before) group.now) (map (λ turn. turn.after) group.now) is) }
{
    let befores = befores_of(alloc, group)?;
    let afters = afters_of(alloc, group)?;
    let is = is_fan(alloc, &befores, &afters)?;
    Ok(is)
}

// Returns whether the faces at the first vertex are one fan, and the number of corners there. All faces are simple, and no
// side occurs twice.
fn first_group(alloc: Global, raw: &RawMesh, turns: &[Turn]) -> Result<(bool, usize), Memory>
    requires some { 0 < length turns.now }
    requires simple { IsTrue (list_all is_simple raw.now.faces) }
    requires once { IsTrue (has_distinct_sides (all_sides raw.now.faces)) }
    requires groups { AreGroups raw.now.faces turns.now }
    ensures { IfOk result (λ found. IsFirstGroup raw.now.faces turns.now found.0 found.1) }
{
    let _ = raw;
    let size = group_size(turns, turns[0].vertex);
    let is = is_group_fan(alloc, &turns[..size])?;
    Ok((is, size))
}

// Returns the first vertex whose faces are more than one fan, from the sorted corners. All faces are simple, and no side
// occurs twice.
pub(crate) fn split_vertex(
    alloc: Global,
    raw: &RawMesh,
    turns: &[Turn],
) -> Result<Option<u32>, Memory>
    requires simple { IsTrue (list_all is_simple raw.now.faces) }
    requires once { IsTrue (has_distinct_sides (all_sides raw.now.faces)) }
    requires sorted { AreSortedTurns raw.now.faces turns.now }
    ensures { IfOk result (λ found. found ≡ first_of (split_vertices (length raw.now.points) raw.now.faces)) }
{
    raw.facts();
    let mut rest = turns;
    while let [first, ..] = rest {
        let v = first.vertex;
        let group = first_group(alloc, raw, rest)?;
        if !group.0 {
            return Ok(Some(v));
        }
        let (_, others) = rest.split_at(group.1);
        rest = others;
    }
    Ok(None)
}

// Adds the vertices whose faces are more than one fan after other faults, ascending. All faces are simple, and no side occurs
// twice.
pub(crate) fn put_split_vertices(
    alloc: Global,
    faults: &mut Vec<MeshFault>,
    raw: &RawMesh,
    turns: &[Turn],
) -> Result<(), Memory>
    requires simple { IsTrue (list_all is_simple raw.now.faces) }
    requires once { IsTrue (has_distinct_sides (all_sides raw.now.faces)) }
    requires sorted { AreSortedTurns raw.now.faces turns.now }
    ensures { OnOk result (map mesh_fault_of faults.new.items ≡ map mesh_fault_of faults.old.items ++ map SplitVertex (split_vertices (length raw.now.points) raw.now.faces)) }
{
    raw.facts();
    let mut rest = turns;
    while let [first, ..] = rest {
        let v = first.vertex;
        let group = first_group(alloc, raw, rest)?;
        put_if(!group.0, faults, MeshFault::SplitVertex(v))?;
        let (_, others) = rest.split_at(group.1);
        rest = others;
    }
    Ok(())
}
