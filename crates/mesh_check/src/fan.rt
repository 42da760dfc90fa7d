//! The test whether the faces at a vertex are one fan.

ghost use Rattle.std.specs.Prelude.{◌≡◌, ◌^◌, ◌<◌, true, nat_eq, length, IfOk};
ghost use Rattle.std.specs.List.{position_or_len};
ghost use Rattle.subdiv_model.specs.Polygons.{is_distinct};
ghost use Rattle.level_builder.specs.Keys.{Rises};
ghost use Rattle.mesh_check.specs.Group.{DecidesFan, next_places};

use crate::chain::is_one_chain;
use ratio128::Memory;
use std::alloc::Global;

// Returns the place of a corner among ascending corners, or their number if it is none of them.
fn place_in(corners: &[u32], corner: u32) -> u32
    requires rises { Rises corners.now }
    requires once { is_distinct corners.now ≡ true }
    requires short { length corners.now < 2 ^ 32 }
    ensures { result ≡ position_or_len (nat_eq corner) corners.now }
{
    match corners.binary_search(&corner) {
        Ok(place) => place as u32,
        Err(_) => corners.len() as u32,
    }
}

// Returns for each face at a vertex the place of the next face about it. The arguments are the ascending corners before the
// vertex, and the corners after it.
fn next_places(alloc: Global, befores: &[u32], afters: &[u32]) -> Result<Vec<u32>, Memory>
    requires rises { Rises befores.now }
    requires once { is_distinct befores.now ≡ true }
    requires short { length befores.now < 2 ^ 32 }
    ensures { IfOk result (λ next. next.items ≡ next_places befores.now afters.now) }
{
    let mut next = Vec::with_capacity(alloc, afters.len())?;
    for corner in afters {
        next.push(place_in(befores, *corner))?;
    }
    Ok(next)
}

// Returns whether the faces at a vertex are one fan, from the ascending corners before it in each face and the corners after
// it.
pub(crate) fn is_fan(alloc: Global, befores: &[u32], afters: &[u32]) -> Result<bool, Memory>
    requires rises { Rises befores.now }
    requires once { is_distinct befores.now ≡ true }
    requires short { length befores.now < 2 ^ 32 }
    requires equal { length afters.now ≡ length befores.now }
    ensures { IfOk result (λ is. DecidesFan befores.now afters.now is) }
{
    let next = next_places(alloc, befores, afters)?;
    let is = is_one_chain(alloc, &next)?;
    Ok(is)
}
