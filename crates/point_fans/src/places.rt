//! For each number the lists that contain it, with its place in each. All places of a number form an ascending chain through the lists.
//! Making all chains takes as many steps as there are places, and so does reading them.

ghost use Rattle.std.specs.Prelude.{◌≡◌, ℕ, ◌+◌, ◌^◌, ◌<◌, ◌≤◌, nat_eq, List, [], ◌∷◌, ◌++◌, length, map, get_or, slice_set, replicate, IfOk, OnOk, vec_len};
ghost use Rattle.std.specs.Vec.{vec_capacity};
ghost use Rattle.std.specs.List.{All, range_with_len};
ghost use Rattle.subdiv_model.specs.Polygons.{Polygon};
ghost use Rattle.subdiv_model.specs.Lists.{places};
ghost use Rattle.point_fans.specs.Chains.{ArePlaces, IsChain, Ascending, at_places, places_in};
ghost use Rattle.level_topology.specs.ListPlaces.{lists_with};
ghost use Rattle.point_fans.specs.PointPlaces.{AreChainedIn};

use ratio128::Memory;
use std::alloc::Global;

// The items of the joined lists, and for each item the number of its list and its place there.
#[derive(Drop)]
pub(crate) struct Places {
    pub(crate) items: Vec<u32>,
    pub(crate) owners: Vec<u32>,
    pub(crate) within: Vec<u16>,
}

// The first place of each number, and for each place the next one with its number. A value that is not a place ends a chain.
#[derive(Drop)]
pub(crate) struct Chains {
    pub(crate) firsts: Vec<u32>,
    pub(crate) next: Vec<u32>,
}

impl Places {
    // An empty list with capacity for `items` items.
    pub(crate) fn with_capacity(alloc: Global, items: usize) -> Result<Places, Memory>
        ensures empty { IfOk result (λ p. p.items.items ≡ []) }
        ensures no_owners { IfOk result (λ p. p.owners.items ≡ []) }
        ensures no_places { IfOk result (λ p. p.within.items ≡ []) }
        ensures items_fit { IfOk result (λ p. items ≤ vec_capacity p.items) }
        ensures owners_fit { IfOk result (λ p. items ≤ vec_capacity p.owners) }
        ensures places_fit { IfOk result (λ p. items ≤ vec_capacity p.within) }
    {
        Ok(Places {
            items: Vec::with_capacity(alloc, items)?,
            owners: Vec::with_capacity(alloc, items)?,
            within: Vec::with_capacity(alloc, items)?,
        })
    }

    // Adds the items of the next list.
    pub(crate) fn add(&mut self, owner: u32, list: &[u32])
        requires size { length list.now ≤ 2 ^ 16 }
        requires items_fit { vec_len self.old.items + length list.now ≤ vec_capacity self.old.items }
        requires owners_fit { vec_len self.old.owners + length list.now ≤ vec_capacity self.old.owners }
        requires places_fit { vec_len self.old.within + length list.now ≤ vec_capacity self.old.within }
        ensures items { self.new.items.items ≡ self.old.items.items ++ list.now }
        ensures owners { self.new.owners.items ≡ self.old.owners.items ++ replicate (length list.now) owner }
        ensures within { self.new.within.items ≡ self.old.within.items ++ range_with_len 0 (length list.now) }
        ensures item_capacity { vec_capacity self.new.items ≡ vec_capacity self.old.items }
        ensures owner_capacity { vec_capacity self.new.owners ≡ vec_capacity self.old.owners }
        ensures place_capacity { vec_capacity self.new.within ≡ vec_capacity self.old.within }
    {
        for c in 0..list.len() {
            self.items.push_reserved(list[c]);
            self.owners.push_reserved(owner);
            self.within.push_reserved(c as u16);
        }
    }
}

// Puts a place before the other places of its number.
fn link(firsts: &mut Vec<u32>, next: &mut Vec<u32>, place: usize, number: u32)
    requires number { number < length firsts.old.items }
    requires place { place < length next.old.items }
    requires short { place < 2 ^ 32 }
    ensures firsts { firsts.new.items ≡ slice_set firsts.old.items number place }
    ensures next { next.new.items ≡ slice_set next.old.items place (get_or firsts.old.items number 0) }
{
    next[place] = firsts[number as usize];
    firsts[number as usize] = place as u32;
}

// The chains of all numbers below a limit.
pub(crate) fn chains_of(alloc: Global, numbers: &[u32], limit: u32) -> Result<Chains, Memory>
    requires inside { All (λ v. v < limit) numbers.now }
    requires short { length numbers.now < 2 ^ 32 }
    ensures firsts { IfOk result (λ c. length c.firsts.items ≡ limit) }
    ensures next { IfOk result (λ c. length c.next.items ≡ length numbers.now) }
    ensures ascend { IfOk result (λ c. Ascending c.next.items) }
    ensures chains { IfOk result (λ c. (v : ℕ) → v < limit → IsChain c.next.items (get_or c.firsts.items v 0) (places (nat_eq v) numbers.now)) }
{
    let end = numbers.len() as u32;
    let mut firsts = vec![in alloc; end; limit as usize]?;
    let mut next = vec![in alloc; end; numbers.len()]?;
    let mut place = numbers.len();
    while place > 0 {
        place -= 1;
        link(&mut firsts, &mut next, place, numbers[place]);
    }
    Ok(Chains { firsts, next })
}

// Appends the lists of the places of a chain, and the places there.
pub(crate) fn put_chain(
    places: &Places,
    next: &[u32],
    first: u32,
    owners: &mut Vec<u32>,
    within: &mut Vec<u16>,
) -> Result<(), Memory>
    requires ascend { Ascending next.now }
    requires owner_count { length places.now.owners.items ≡ length next.now }
    requires place_count { length places.now.within.items ≡ length next.now }
    ensures owners { (chain : List ℕ) → IsChain next.now first chain → OnOk result (owners.new.items ≡ owners.old.items ++ at_places places.now.owners.items chain) }
    ensures within { (chain : List ℕ) → IsChain next.now first chain → OnOk result (within.new.items ≡ within.old.items ++ at_places places.now.within.items chain) }
{
    let mut place = first;
    while (place as usize) < next.len() {
        owners.push(places.owners[place as usize])?;
        within.push(places.within[place as usize])?;
        place = next[place as usize];
    }
    Ok(())
}

// The places of lists, with the chains through them.
#[derive(Drop)]
pub(crate) struct Chained {
    pub(crate) places: Places,
    pub(crate) chains: Chains,
}

impl Chained {
    // Links the places of each number below a limit.
    pub(crate) fn new(alloc: Global, places: Places, limit: u32) -> Result<Chained, Memory>
        requires inside { All (λ v. v < limit) places.items.items }
        requires short { length places.items.items < 2 ^ 32 }
        ensures { (lists : List Polygon) → ArePlaces lists places.items.items places.owners.items places.within.items → IfOk result (λ c. AreChainedIn lists limit c) }
    {
        let chains = chains_of(alloc, &places.items, limit)?;
        Ok(Chained { places, chains })
    }

    // Puts the lists with a number, and its places there.
    pub(crate) fn put(
        &self,
        v: u32,
        owners: &mut Vec<u32>,
        within: &mut Vec<u16>,
    ) -> Result<(), Memory>
        requires chained { (lists : List Polygon) × (limit : ℕ) × (v < limit) × AreChainedIn lists limit self.now }
        requires no_owners { owners.old.items ≡ [] }
        requires no_places { within.old.items ≡ [] }
        ensures owners { (lists : List Polygon) (limit : ℕ) → v < limit → AreChainedIn lists limit self.now → OnOk result (owners.new.items ≡ lists_with lists v) }
        ensures within { (lists : List Polygon) (limit : ℕ) → v < limit → AreChainedIn lists limit self.now → OnOk result (within.new.items ≡ places_in lists v) }
    {
        put_chain(
            &self.places,
            &self.chains.next,
            self.chains.firsts[v as usize],
            owners,
            within,
        )?;
        Ok(())
    }
}
