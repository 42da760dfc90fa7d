//! Sides and edges as numbers, and numbers that occur often in a list, found by sorting.

ghost use Rattle.std.specs.Prelude.{◌≡◌, ℕ, nat_eq, nat_lt, ◌&&◌, [], ◌∷◌, ◌++◌, map, IfOk, OnOk, IsTrue, if◌then◌else◌};
ghost use Rattle.std.specs.List.{count_by};
ghost use Rattle.subdiv_model.specs.Polygons.{is_among, is_distinct};
ghost use Rattle.level_builder.specs.Keys.{IsWord, AreWords, side_key, edge_key, key_by, Rises, is_again, repeats, each_once};

use ratio128::Memory;
use std::alloc::Global;

/// Returns a side as one number: its first end is the high half.
#[inline]
pub fn side_key(side: (u32, u32)) -> u64
    ensures key { result ≡ side_key side }
    ensures word { IsWord side }
{
    ((side.0 as u64) << 32) + side.1 as u64
}

/// Returns the edge of a side as one number, which is the same in both directions.
#[inline]
pub fn edge_key(side: (u32, u32)) -> u64
    ensures key { result ≡ edge_key side }
    ensures word { IsWord side }
{
    if side.0 <= side.1 {
        side_key(side)
    } else {
        side_key((side.1, side.0))
    }
}

// Returns the number of a side, or that of its edge if directions do not count.
fn key_by(side: (u32, u32), directed: bool) -> u64
    ensures key { result ≡ key_by directed side }
    ensures word { IsWord side }
{
    if directed {
        side_key(side)
    } else {
        edge_key(side)
    }
}

// Returns the numbers of all sides, or those of their edges if directions do not count.
fn keys_by(alloc: Global, sides: &[(u32, u32)], directed: bool) -> Result<Vec<u64>, Memory>
    ensures keys { IfOk result (λ keys. keys.items ≡ map (key_by directed) sides.now) }
    ensures words { OnOk result (AreWords sides.now) }
{
    let mut keys = Vec::with_capacity(alloc, sides.len())?;
    let mut rest = sides;
    while let [side, others @ ..] = rest {
        keys.push(key_by(*side, directed))?;
        rest = others;
    }
    Ok(keys)
}

/// Returns the numbers of all sides, in order. Reports [`Memory`] where memory runs out.
pub fn side_keys(alloc: Global, sides: &[(u32, u32)]) -> Result<Vec<u64>, Memory>
    ensures keys { IfOk result (λ keys. keys.items ≡ map side_key sides.now) }
    ensures words { OnOk result (AreWords sides.now) }
{
    keys_by(alloc, sides, true)
}

/// Returns the numbers of the edges of all sides, in order. Reports [`Memory`] where memory runs out.
pub fn edge_keys(alloc: Global, sides: &[(u32, u32)]) -> Result<Vec<u64>, Memory>
    ensures keys { IfOk result (λ keys. keys.items ≡ map edge_key sides.now) }
    ensures words { OnOk result (AreWords sides.now) }
{
    keys_by(alloc, sides, false)
}

/// Returns whether the number `gap` places after the first is `key`.
#[inline]
pub fn is_again(keys: &[u64], gap: usize, key: u64) -> bool
    ensures { result ≡ is_again gap keys.now key }
{
    gap < keys.len() && keys[gap] == key
}

// Adds a number to the list, if `put` is true.
fn put_if(put: bool, found: &mut Vec<u64>, key: u64) -> Result<(), Memory>
    ensures { OnOk result (found.new.items ≡ (if put then found.old.items ++ key ∷ [] else found.old.items)) }
{
    if put {
        found.push(key)?;
    }
    Ok(())
}

// Returns the numbers that occur again `gap` places later.
fn repeats(alloc: Global, keys: &[u64], gap: usize) -> Result<Vec<u64>, Memory>
    ensures { IfOk result (λ found. found.items ≡ repeats gap keys.now) }
{
    let mut found = Vec::new(alloc);
    let mut rest = keys;
    while let [key, others @ ..] = rest {
        let again = is_again(rest, gap, *key);
        put_if(again, &mut found, *key)?;
        rest = others;
    }
    Ok(found)
}

/// Returns the numbers that occur in a list more than `limit` times, ascending. A number may be listed more than once. Reports
/// [`Memory`] where memory runs out.
pub fn frequent(alloc: Global, keys: Vec<u64>, limit: usize) -> Result<Vec<u64>, Memory>
    ensures rises { IfOk result (λ found. Rises found.items) }
    ensures often { IfOk result (λ found. (n : ℕ) → is_among found.items n ≡ nat_lt limit (count_by (nat_eq n) keys.items)) }
{
    let mut keys = keys;
    keys.sort_unstable();
    let found = repeats(alloc, &keys, limit)?;
    Ok(found)
}

/// Returns the numbers that occur once among ascending numbers, ascending. Each is listed once. Reports [`Memory`] where memory runs out.
pub fn unrepeated(alloc: Global, keys: &[u64]) -> Result<Vec<u64>, Memory>
    requires { Rises keys.now }
    ensures rises { IfOk result (λ found. Rises found.items) }
    ensures once { IfOk result (λ found. (n : ℕ) → is_among found.items n ≡ nat_eq (count_by (nat_eq n) keys.now) 1) }
    ensures distinct { IfOk result (λ found. IsTrue (is_distinct found.items)) }
{
    let mut found = Vec::new(alloc);
    let mut again = false;
    let mut rest = keys;
    while let [key, others @ ..] = rest {
        let next = is_again(rest, 1, *key);
        put_if(!again && !next, &mut found, *key)?;
        again = next;
        rest = others;
    }
    Ok(found)
}

/// Returns ascending numbers, each once. Reports [`Memory`] where memory runs out.
pub fn each_once(alloc: Global, keys: &[u64]) -> Result<Vec<u64>, Memory>
    ensures { IfOk result (λ found. found.items ≡ each_once keys.now) }
{
    let mut found = Vec::new(alloc);
    let mut rest = keys;
    while let [key, others @ ..] = rest {
        let again = is_again(rest, 1, *key);
        put_if(!again, &mut found, *key)?;
        rest = others;
    }
    Ok(found)
}

/// Returns whether a number is among ascending numbers, by binary search.
#[inline]
pub fn is_known(keys: &[u64], key: u64) -> bool
    requires { Rises keys.now }
    ensures { result ≡ is_among keys.now key }
{
    keys.binary_search(&key).is_ok()
}
