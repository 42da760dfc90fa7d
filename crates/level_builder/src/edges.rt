//! The edges of successive faces, numbered as they first appear.

ghost use Rattle.std.specs.Prelude.{◌≡◌, ◌+◌, ◌^◌, ◌<◌, ◌≤◌, true, false, [], ◌∷◌, ◌++◌, length, map, get_or, slice_set, IfOk, OnOk, OnErr, MatchOption, vec_len};
ghost use Rattle.std.specs.Vec.{vec_capacity};
ghost use Rattle.std.specs.List.{list_any, position_or_len};
ghost use Rattle.subdiv_model.specs.Polygons.{same_side, same_edge, sides_of};
ghost use Rattle.sharpness_rules.specs.View.{sharpness_of};
ghost use Rattle.indexmap.specs.IndexSet.{spare};
ghost use Rattle.level_topology.specs.Topology.{side_at};
ghost use Rattle.level_builder.specs.NumberedEdges.{low_first, numbers_in};
ghost use Rattle.level_topology.specs.Numbering.{number_in, with_side, with_sides};

use crate::hashing::KeyedHashing;
use indexmap::IndexSet;
use level_topology::corner_after;
use ratio128::Memory;
use sharpness_rules::Sharpness;
use std::alloc::Global;
use std::marker::Model;

// The edges so far. An edge with one face has the number of that face twice.
#[derive(Drop)]
pub(crate) struct NumberedEdges {
    keys: IndexSet<(u32, u32), KeyedHashing>,
    ends: Vec<(u32, u32)>,
    faces: Vec<(u32, u32)>,
    sharpness: Vec<Sharpness>,
    limit: u32,
}

impl Model for NumberedEdges {
    ghost use Rattle.std.specs.Prelude.{length, map, vec_len};
    ghost use Rattle.std.specs.Vec.{vec_capacity};
    ghost use Rattle.indexmap.specs.IndexSet.{spare};
    ghost use Rattle.sharpness_rules.specs.View.{sharpness_of};
    ghost use Rattle.level_topology.specs.Numbering.{Numbered};
    ghost use Rattle.level_builder.specs.NumberedEdges.{IsEdgeTable};

    ghost Value = { Numbered };

    ghost view = { λ n. record {
      ends = n.ends.items;
      faces = n.faces.items;
      sharpness = map sharpness_of n.sharpness.items;
      limit = n.limit;
    } };

    ghost invariant = { λ n. IsEdgeTable n.keys.keys n.ends.items n.faces.items (length n.sharpness.items) n.limit (spare n.keys) (vec_capacity n.ends) (vec_capacity n.faces) (vec_capacity n.sharpness) };
}

// The two ends, the lower first.
fn lower_first(side: (u32, u32)) -> (u32, u32)
    ensures { result ≡ low_first side }
{
    if side.0 <= side.1 {
        side
    } else {
        (side.1, side.0)
    }
}

// The place of a key.
fn place_of(keys: &IndexSet<(u32, u32), KeyedHashing>, key: (u32, u32)) -> Option<usize>
    ensures { MatchOption result (list_any (same_side key) keys.now.keys ≡ false) (λ e. (list_any (same_side key) keys.now.keys ≡ true) × (e ≡ position_or_len (same_side key) keys.now.keys)) }
{
    keys.get_index_of(&key)
}

// Adds a key that is absent. There is room for it, so the call takes no memory.
fn add_key(keys: &mut IndexSet<(u32, u32), KeyedHashing>, key: (u32, u32))
    requires room { 0 < spare keys.old }
    requires absent { list_any (same_side key) keys.old.keys ≡ false }
    ensures keys { keys.new.keys ≡ keys.old.keys ++ key ∷ [] }
    ensures room { spare keys.old ≤ spare keys.new + 1 }
{
    let _ = keys.insert(key);
}

// The side of a polygon at a corner.
fn side_of(corners: &[u32], c: usize) -> (u32, u32)
    requires { c < length corners.now }
    ensures { result ≡ side_at corners.now c }
{
    (corners[c], corners[corner_after(corners.len(), c)])
}

impl NumberedEdges {
    // No edges, with room for `limit` of them.
    pub(crate) fn with_room(alloc: Global, limit: u32, key: u128) -> Result<NumberedEdges, Memory>
        ensures { IfOk result (λ n. n ≡ record { ends = []; faces = []; sharpness = []; limit = limit }) }
    {
        let room = limit as usize;
        Ok(NumberedEdges {
            ends: Vec::with_capacity(alloc, room)?,
            faces: Vec::with_capacity(alloc, room)?,
            sharpness: Vec::with_capacity(alloc, room)?,
            limit,
            keys: IndexSet::with_capacity_and_hasher(alloc, room, KeyedHashing::new(key))?,
        })
    }

    // How many edges there are.
    pub(crate) fn len(&self) -> u32
        ensures { result ≡ length self.now.ends }
    {
        self.ends.len() as u32
    }

    // Makes room for `more` further edges.
    pub(crate) fn make_room(&mut self, more: u32) -> Result<(), Memory>
        requires { length self.old.ends + more < 2 ^ 32 }
        ensures ends { self.new.ends ≡ self.old.ends }
        ensures faces { self.new.faces ≡ self.old.faces }
        ensures sharpness { self.new.sharpness ≡ self.old.sharpness }
        ensures room { OnOk result (length self.new.ends + more ≤ self.new.limit) }
        ensures unchanged { OnErr result (self.new ≡ self.old) }
    {
        self.keys.reserve(more as usize)?;
        self.ends.reserve(more as usize)?;
        self.faces.reserve(more as usize)?;
        self.sharpness.reserve(more as usize)?;
        self.limit = self.len() + more;
        Ok(())
    }

    // The number of the edge of a side of a face. An edge that exists gets the face as its second one.
    pub(crate) fn number(&mut self, side: (u32, u32), face: u32) -> u32
        requires { length self.old.ends < self.old.limit }
        ensures number { result ≡ number_in self.old.ends side }
        ensures numbered { self.new ≡ with_side face self.old side }
    {
        let key = lower_first(side);
        if let Some(e) = place_of(&self.keys, key) {
            self.faces[e].1 = face;
            return e as u32;
        }
        let e = self.len();
        add_key(&mut self.keys, key);
        self.ends.push_reserved(side);
        self.faces.push_reserved((face, face));
        self.sharpness.push_reserved(Sharpness::Smooth);
        e
    }

    // The number of an edge that exists.
    pub(crate) fn find(&self, a: u32, b: u32) -> usize
        requires { list_any (same_edge (a, b)) self.now.ends ≡ true }
        ensures { result ≡ number_in self.now.ends (a, b) }
    {
        place_of(&self.keys, lower_first((a, b))).unwrap_or(0)
    }

    // Sets the sharpness of an edge.
    pub(crate) fn set_sharpness(&mut self, a: u32, b: u32, s: Sharpness)
        requires { list_any (same_edge (a, b)) self.old.ends ≡ true }
        ensures { self.new ≡ record {
          ends = self.old.ends;
          faces = self.old.faces;
          sharpness = slice_set self.old.sharpness (number_in self.old.ends (a, b)) (sharpness_of s);
          limit = self.old.limit;
        } }
    {
        let e = self.find(a, b);
        self.sharpness[e] = s;
    }

    // Numbers the edges of a face, and appends their numbers.
    pub(crate) fn number_all(&mut self, corners: &[u32], face: u32, numbers: &mut Vec<u32>)
        requires room { length self.old.ends + length corners.now ≤ self.old.limit }
        requires number_room { vec_len numbers.old + length corners.now ≤ vec_capacity numbers.old }
        ensures numbered { self.new ≡ with_sides face self.old (sides_of corners.now) }
        ensures numbers { numbers.new.items ≡ numbers.old.items ++ numbers_in self.old.ends (sides_of corners.now) }
    {
        for c in 0..corners.len() {
            numbers.push_reserved(self.number(side_of(corners, c), face));
        }
    }

    // The ends, the faces and the sharpness of all edges.
    pub(crate) fn into_parts(self) -> (Vec<(u32, u32)>, Vec<(u32, u32)>, Vec<Sharpness>)
        ensures ends { result.0.items ≡ self.ends }
        ensures faces { result.1.items ≡ self.faces }
        ensures sharpness { map sharpness_of result.2.items ≡ self.sharpness }
    {
        (self.ends, self.faces, self.sharpness)
    }
}
