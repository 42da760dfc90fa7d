//! Lists of numbers, each beside a list of equal length, packed into three arrays.

ghost use Rattle.std.specs.Prelude.{◌≡◌, ◌+◌, ◌^◌, ◌<◌, ◌≤◌, List, [], ◌∷◌, ◌++◌, length, map, get_or, IfOk, OnOk, OnErr, vec_len};
ghost use Rattle.std.specs.Vec.{vec_capacity};
ghost use Rattle.std.specs.List.{sum_by};
ghost use Rattle.level_topology.specs.Packed.{Ascend, pieces, gaps};

use ratio128::Memory;
use std::alloc::Global;
use std::marker::Model;

/// Lists of numbers, each beside a list of equal length. Only `with_limits` and `make_room` take memory.
#[derive(Drop)]
pub struct PackedLists<T: Copy> {
    starts: Vec<u32>,
    items: Vec<u32>,
    beside: Vec<T>,
    list_limit: u32,
    item_limit: u32,
}

impl<T: Copy> Model for PackedLists<T> {
    ghost use Rattle.std.specs.Prelude.{ℕ, List};
    ghost use Rattle.std.specs.Vec.{vec_capacity};
    ghost use Rattle.level_topology.specs.Packed.{Paired, pieces, IsPacked};

    ghost Value = { Paired T };

    ghost view = { λ p. record {
      lists = pieces p.starts.items p.items.items;
      beside = pieces p.starts.items p.beside.items;
      list_limit = p.list_limit;
      item_limit = p.item_limit;
    } };

    ghost invariant = { λ p. IsPacked p.starts.items p.items.items p.beside.items p.list_limit p.item_limit (vec_capacity p.starts) (vec_capacity p.items) (vec_capacity p.beside) };
}

// The part of a list from one place to the next.
fn piece<'a, T>(starts: &[u32], items: &'a [T], i: usize) -> &'a [T]
    requires ascend { Ascend starts.now (length items.now) }
    requires inside { i + 1 < length starts.now }
    ensures { result.now ≡ get_or (pieces starts.now items.now) i [] }
{
    let from = starts[i] as usize;
    let to = starts[i + 1] as usize;
    &items[from..to]
}

// Appends a list, its end, and the items beside it. The capacity suffices, so the call takes no memory and does not fail.
fn append<T: Copy>(
    starts: &mut Vec<u32>,
    items: &mut Vec<u32>,
    beside: &mut Vec<T>,
    list: &[u32],
    more: &[T],
)
    requires start_room { vec_len starts.old < vec_capacity starts.old }
    requires item_room { vec_len items.old + length list.now ≤ vec_capacity items.old }
    requires beside_room { vec_len beside.old + length more.now ≤ vec_capacity beside.old }
    requires short { vec_len items.old + length list.now < 2 ^ 32 }
    ensures starts { starts.new.items ≡ starts.old.items ++ (length items.old.items + length list.now) ∷ [] }
    ensures items { items.new.items ≡ items.old.items ++ list.now }
    ensures beside { beside.new.items ≡ beside.old.items ++ more.now }
    ensures start_capacity { vec_capacity starts.old ≤ vec_capacity starts.new }
    ensures item_capacity { vec_capacity items.old ≤ vec_capacity items.new }
    ensures beside_capacity { vec_capacity beside.old ≤ vec_capacity beside.new }
{
    let _ = items.extend_from_slice(list);
    let _ = beside.extend_from_slice(more);
    starts.push_reserved(items.len() as u32);
}

impl<T: Copy> PackedLists<T> {
    /// Returns no lists, with room for `lists` lists and `items` items in all. `Memory`: memory ran out.
    pub fn with_limits(alloc: Global, lists: u32, items: u32) -> Result<PackedLists<T>, Memory>
        ensures { IfOk result (λ p. p ≡ record { lists = []; beside = []; list_limit = lists; item_limit = items }) }
    {
        let mut starts = Vec::with_capacity(alloc, lists as usize + 1)?;
        starts.push_reserved(0);
        Ok(PackedLists {
            starts,
            items: Vec::with_capacity(alloc, items as usize)?,
            beside: Vec::with_capacity(alloc, items as usize)?,
            list_limit: lists,
            item_limit: items,
        })
    }

    /// Appends a list, and the items beside it. There is room for both.
    pub fn push(&mut self, list: &[u32], beside: &[T])
        requires equal { length beside.now ≡ length list.now }
        requires few { length self.old.lists < self.old.list_limit }
        requires short { sum_by length self.old.lists + length list.now ≤ self.old.item_limit }
        ensures { self.new ≡ record {
          lists = self.old.lists ++ list.now ∷ [];
          beside = self.old.beside ++ beside.now ∷ [];
          list_limit = self.old.list_limit;
          item_limit = self.old.item_limit;
        } }
    {
        append(
            &mut self.starts,
            &mut self.items,
            &mut self.beside,
            list,
            beside,
        );
    }

    /// How many lists there are.
    pub fn len(&self) -> usize
        ensures count { result ≡ length self.now.lists }
        ensures beside { result ≡ length self.now.beside }
    {
        self.starts.len() - 1
    }

    // Where each list begins in the joined lists, then where the last one ends.
    pub(crate) fn starts(&self) -> &[u32]
        ensures gaps { gaps result.now ≡ map length self.now.lists }
        ensures ascend { Ascend result.now (sum_by length self.now.lists) }
    {
        &self.starts
    }

    /// List `i`, counted from 0.
    pub fn list(&self, i: usize) -> &[u32]
        requires { i < length self.now.lists }
        ensures { result.now ≡ get_or self.now.lists i [] }
    {
        piece(&self.starts, &self.items, i)
    }

    /// The items beside list `i`, counted from 0.
    pub fn beside(&self, i: usize) -> &[T]
        requires { i < length self.now.beside }
        ensures { result.now ≡ get_or self.now.beside i [] }
    {
        piece(&self.starts, &self.beside, i)
    }
}

impl<T: Copy> PackedLists<T> {
    /// How many items all lists have.
    pub fn total(&self) -> usize
        ensures { result ≡ sum_by length self.now.lists }
    {
        self.items.len()
    }

    /// Makes room for `lists` further lists and `items` further items in all. `Memory`: memory ran out, and the lists are unchanged.
    pub fn make_room(&mut self, lists: u32, items: u32) -> Result<(), Memory>
        requires few { length self.old.lists + lists < 2 ^ 32 }
        requires short { sum_by length self.old.lists + items < 2 ^ 32 }
        ensures lists { self.new.lists ≡ self.old.lists }
        ensures beside { self.new.beside ≡ self.old.beside }
        ensures list_room { OnOk result (length self.new.lists + lists ≤ self.new.list_limit) }
        ensures item_room { OnOk result (sum_by length self.new.lists + items ≤ self.new.item_limit) }
        ensures unchanged { OnErr result (self.new ≡ self.old) }
    {
        self.starts.reserve(lists as usize)?;
        self.items.reserve(items as usize)?;
        self.beside.reserve(items as usize)?;
        self.list_limit = self.list_limit.max((self.starts.len() - 1) as u32 + lists);
        self.item_limit = self.item_limit.max(self.items.len() as u32 + items);
        Ok(())
    }
}
