//! A sharpness for each of many items, most of them smooth. Each item takes four bytes, and each item that is not smooth takes one value
//! more.

ghost use Rattle.std.specs.Prelude.{◌≡◌, ℕ, ◌+◌, ◌^◌, ◌<◌, ◌≤◌, ◌⊎◌, [], ◌∷◌, ◌++◌, length, map, get_or, IfOk, vec_len};
ghost use Rattle.std.specs.Vec.{vec_capacity};
ghost use Rattle.subdiv_model.specs.Sharpness.{Smooth, Infinite};
ghost use Rattle.sharpness_rules.specs.View.{sharpness_of};
ghost use Rattle.level_topology.specs.Coded.{kept};

use ratio128::Memory;
use sharpness_rules::Sharpness;
use std::alloc::Global;
use std::marker::Model;

// Value 0 is the sharpness of every smooth item.
/// A sharpness for each of many items. It takes all its memory when it is made.
#[derive(Drop)]
pub struct SharpnessList {
    codes: Vec<u32>,
    values: Vec<Sharpness>,
    limit: u32,
}

impl Model for SharpnessList {
    ghost use Rattle.std.specs.Prelude.{map};
    ghost use Rattle.std.specs.Vec.{vec_capacity};
    ghost use Rattle.sharpness_rules.specs.View.{sharpness_of};
    ghost use Rattle.level_topology.specs.Coded.{Kept, decoded, IsCoded};

    ghost Value = { Kept };

    ghost view = { λ s. record { sharpness = decoded (map sharpness_of s.values.items) s.codes.items; limit = s.limit } };

    ghost invariant = { λ s. IsCoded (map sharpness_of s.values.items) s.codes.items s.limit (vec_capacity s.values) (vec_capacity s.codes) };
}

// The number of a value; the list keeps each value except the smooth one. The capacity suffices, so the call takes no memory.
fn code_of(values: &mut Vec<Sharpness>, s: Sharpness) -> u32
    requires some { 0 < length values.old.items }
    requires first { get_or (map sharpness_of values.old.items) 0 Infinite ≡ Smooth }
    requires room { vec_len values.old < vec_capacity values.old }
    requires few { length values.old.items < 2 ^ 32 }
    ensures value { get_or (map sharpness_of values.new.items) result Smooth ≡ sharpness_of s }
    ensures within { result < length values.new.items }
    ensures kept { (values.new.items ≡ values.old.items) ⊎ (values.new.items ≡ values.old.items ++ s ∷ []) }
    ensures capacity { vec_capacity values.new ≡ vec_capacity values.old }
{
    if matches!(s, Sharpness::Smooth) {
        return 0;
    }
    let code = values.len() as u32;
    values.push_reserved(s);
    code
}

impl SharpnessList {
    // An empty list with room for `limit` items.
    pub(crate) fn with_limit(alloc: Global, limit: u32) -> Result<SharpnessList, Memory>
        ensures { IfOk result (λ s. s ≡ record { sharpness = []; limit = limit }) }
    {
        let mut values = Vec::with_capacity(alloc, limit as usize + 1)?;
        values.push_reserved(Sharpness::Smooth);
        Ok(SharpnessList {
            codes: Vec::with_capacity(alloc, limit as usize)?,
            values,
            limit,
        })
    }

    // The sharpness of an item.
    pub(crate) fn at(&self, i: usize) -> Sharpness
        requires { i < length self.now.sharpness }
        ensures { sharpness_of result ≡ get_or self.now.sharpness i Smooth }
    {
        self.values[self.codes[i] as usize]
    }

    // Appends an item.
    pub(crate) fn push(&mut self, s: Sharpness)
        requires { length self.old.sharpness < self.old.limit }
        ensures { self.new ≡ record { sharpness = self.old.sharpness ++ sharpness_of s ∷ []; limit = self.old.limit } }
    {
        let code = code_of(&mut self.values, s);
        self.codes.push_reserved(code);
    }

    // The list without the capacity that no value used.
    pub(crate) fn fitted(mut self) -> SharpnessList
        requires { length self.sharpness ≡ self.limit }
        ensures { result ≡ self }
    {
        self.values.shrink_to_fit();
        self
    }

    /// Returns the list of these values, in order. `Memory`: memory ran out.
    pub fn from_slice(alloc: Global, values: &[Sharpness]) -> Result<SharpnessList, Memory>
        requires { length values.now < 2 ^ 32 }
        ensures { IfOk result (λ s. s ≡ kept (map sharpness_of values.now) (length values.now)) }
    {
        let mut sharps = SharpnessList::with_limit(alloc, values.len() as u32)?;
        for i in 0..values.len() {
            sharps.push(values[i]);
        }
        Ok(sharps.fitted())
    }
}
