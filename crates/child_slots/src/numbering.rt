//! The edges of the next level, numbered by first appearance. A table by slots gives the number of each edge.

ghost use Rattle.std.specs.Prelude.{◌≡◌, ◌+◌, ◌^◌, ◌<◌, ◌≤◌, true, false, length, get_or, IfOk, OnOk};
ghost use Rattle.std.specs.List.{All};
ghost use Rattle.subdiv_model.specs.Polygons.{is_among};
ghost use Rattle.child_slots.specs.Slotted.{no_slots, with_slot, with_slots, quad_sides, number_at};

use ratio128::Memory;
use std::alloc::Global;
use std::marker::Model;

// The mark in the table of a slot without an edge.
const NOWHERE: u32 = u32::MAX;

/// The edges numbered so far, each with its slot. An edge with one face has that face's number twice.
#[derive(Drop)]
pub struct SlotEdges {
    // The number of the edge of each slot.
    table: Vec<u32>,
    // The slot, the ends and the faces of each edge.
    slots: Vec<u32>,
    ends: Vec<(u32, u32)>,
    faces: Vec<(u32, u32)>,
}

impl Model for SlotEdges {
    ghost use Rattle.std.specs.Prelude.{length};
    ghost use Rattle.child_slots.specs.Slotted.{Slotted, slotted, IsSlotTable};

    ghost Value = { Slotted };

    ghost view = { λ e. slotted (length e.table.items) e.slots.items e.ends.items e.faces.items };

    ghost invariant = { λ e. IsSlotTable e.table.items (slotted (length e.table.items) e.slots.items e.ends.items e.faces.items) };
}

impl SlotEdges {
    // Returns no edges, with a table of `count` slots.
    pub(crate) fn with_table(alloc: Global, count: u32) -> Result<SlotEdges, Memory>
        ensures { IfOk result (λ edges. edges ≡ no_slots count) }
    {
        let size = count as usize;
        Ok(SlotEdges {
            table: vec![in alloc; NOWHERE; size]?,
            slots: Vec::with_capacity(alloc, size)?,
            ends: Vec::with_capacity(alloc, size)?,
            faces: Vec::with_capacity(alloc, size)?,
        })
    }

    /// Returns the number of edges.
    pub fn len(&self) -> u32
        ensures { result ≡ length self.now.ends }
    {
        self.ends.len() as u32
    }

    // Adds an edge whose slot has none yet.
    fn add_new(&mut self, slot: u32, side: (u32, u32), face: u32) -> Result<(), Memory>
        requires slot { slot < self.old.count }
        requires few { length self.old.ends < 2 ^ 31 }
        requires absent { is_among self.old.slots slot ≡ false }
        ensures { OnOk result (self.new ≡ with_slot face self.old (slot, side)) }
    {
        self.slots.reserve(1)?;
        self.ends.reserve(1)?;
        self.faces.reserve(1)?;
        self.table[slot as usize] = self.ends.len() as u32;
        self.slots.push_reserved(slot);
        self.ends.push_reserved(side);
        self.faces.push_reserved((face, face));
        Ok(())
    }

    // Adds a side of a face at its slot. An edge that is already there gets the face as its second one.
    fn add(&mut self, slot: u32, side: (u32, u32), face: u32) -> Result<(), Memory>
        requires slot { slot < self.old.count }
        requires few { length self.old.ends < 2 ^ 31 }
        ensures { OnOk result (self.new ≡ with_slot face self.old (slot, side)) }
    {
        let e = self.table[slot as usize];
        if e == NOWHERE {
            return self.add_new(slot, side, face);
        }
        self.faces[e as usize].1 = face;
        Ok(())
    }

    // Adds the four sides of a face at their slots.
    pub(crate) fn add_quad(
        &mut self,
        slots: [u32; 4],
        corners: [u32; 4],
        face: u32,
    ) -> Result<(), Memory>
        requires slots { All (λ slot. slot < self.old.count) slots }
        requires few { length self.old.ends + 4 ≤ 2 ^ 31 }
        ensures { OnOk result (self.new ≡ with_slots face self.old (quad_sides slots corners)) }
    {
        self.add(slots[0], (corners[0], corners[1]), face)?;
        self.add(slots[1], (corners[1], corners[2]), face)?;
        self.add(slots[2], (corners[2], corners[3]), face)?;
        self.add(slots[3], (corners[3], corners[0]), face)
    }

    /// Returns the number of the edge with a slot, counted from 0. Some edge must have the slot.
    pub fn number(&self, slot: u32) -> u32
        requires slot { slot < self.now.count }
        requires there { is_among self.now.slots slot ≡ true }
        ensures { result ≡ number_at self.now.slots slot }
    {
        self.table[slot as usize]
    }

    /// Returns the slot of an edge.
    pub fn slot(&self, e: u32) -> u32
        requires { e < length self.now.ends }
        ensures { result ≡ get_or self.now.slots e 0 }
    {
        self.slots[e as usize]
    }

    /// Returns the two ends of an edge, in the direction in which a face names it first.
    pub fn ends(&self, e: u32) -> (u32, u32)
        requires { e < length self.now.ends }
        ensures { result ≡ get_or self.now.ends e (0, 0) }
    {
        self.ends[e as usize]
    }

    /// Returns the first and the last face of an edge.
    pub fn faces(&self, e: u32) -> (u32, u32)
        requires { e < length self.now.ends }
        ensures { result ≡ get_or self.now.faces e (0, 0) }
    {
        self.faces[e as usize]
    }

    /// Returns the ends of all edges, then their first and last faces, in the order of their numbers. An edge with one face
    /// has that face's number twice.
    pub fn into_parts(self) -> (Vec<(u32, u32)>, Vec<(u32, u32)>)
        ensures ends { result.0.items ≡ self.ends }
        ensures faces { result.1.items ≡ self.faces }
    {
        (self.ends, self.faces)
    }
}
