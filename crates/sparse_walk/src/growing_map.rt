//! A visitor that maps the levels of a walk.

ghost use Rattle.std.specs.Prelude.{◌≡◌, IfOk};
ghost use Rattle.patch_map.specs.Map.{map_of_base};
ghost use Rattle.sparse_walk.specs.Grown.{IsWithLevel};

use crate::walked::WalkedSparse;
use level_walk::Visitor;
use patch_map::PatchMap;
use ratio128::Memory;
use sparse_level::SparseLevel;
use std::alloc::Global;
use std::marker::Model;

/// A visitor that keeps the map of the levels visited so far.
#[derive(Drop)]
pub(crate) struct Growing {
    map: PatchMap,
}

impl Model for Growing {
    ghost use Rattle.patch_map.specs.Map.{LevelMap};

    ghost Value = { LevelMap };

    ghost view = { λ g. g.map };
}

// Adds a level to a map. Level 0 is there already.
fn put_level(map: &mut PatchMap, level: &WalkedSparse) -> Result<(), Memory>
    ensures { IfOk result (λ _. IsWithLevel map.old level.now map.new) }
{
    if level.sparse().depth() == 0 {
        return Ok(());
    }
    map.grow_to(level.before(), level.sparse())
}

// Adds a level to a map, and drops it.
fn take_level(map: &mut PatchMap, level: WalkedSparse) -> Result<(), Memory>
    ensures { IfOk result (λ _. IsWithLevel map.old level map.new) }
{
    put_level(map, &level)
}

impl Growing {
    /// The map of level 0.
    ///
    /// Error: `Memory`.
    pub(crate) fn start(alloc: Global, base: &SparseLevel) -> Result<Growing, Memory>
        requires { base.now.depth ≡ 0 }
        ensures { IfOk result (λ growing. growing ≡ map_of_base base.now.topology.level.polygons) }
    {
        let map = PatchMap::start(alloc, base)?;
        Ok(Growing { map })
    }

    /// The map of all levels, after the last one is added.
    ///
    /// Error: `Memory`; the map is dropped then.
    pub(crate) fn into_map(self, end: WalkedSparse) -> Result<PatchMap, Memory>
        ensures { IfOk result (λ map. IsWithLevel self end map) }
    {
        let mut map = self.map;
        take_level(&mut map, end)?;
        Ok(map)
    }
}

impl<C: Drop> Visitor<WalkedSparse, C> for Growing {
    ghost use Rattle.sparse_walk.specs.Grown.{IsWithLevel};

    ghost Takes = { λ before walked carried after. IsWithLevel before walked after };

    fn leave(&mut self, level: WalkedSparse, carried: C) -> Result<(), Memory> {
        drop(carried);
        take_level(&mut self.map, level)
    }
}
