//! Marks of numbers, with the tree that finds the least one.

ghost use Rattle.std.specs.Prelude.{◌≡◌, ◌<◌, true, false, length, get_or, set, replicate, IfOk, IfSome, MatchOption};
ghost use Rattle.stencil_session.specs.Tree.{least_mark, mark_count};

use crate::tree::{least_leaf, put_leaf};
use ratio128::Memory;
use std::alloc::Global;
use std::marker::Model;

/// Marks on the numbers from 0 up to a count.
///
/// Marking a number and taking the least one visit at most two nodes in each row of a tree. The tree has one row more than the logarithm of
/// the count to base 2, rounded up. No clause counts these steps.
#[derive(Drop)]
pub struct Marks {
    tree: Vec<bool>,
    leaves: usize,
    len: u32,
    marked: u32,
}

impl Model for Marks {
    ghost use Rattle.std.specs.Prelude.{Bool, List, take, drop};
    ghost use Rattle.stencil_session.specs.Tree.{AreMarks};

    ghost Value = { List Bool };

    ghost view = { λ m. take m.len (drop m.leaves m.tree.items) };

    ghost invariant = { λ m. AreMarks m.len m.leaves m.marked m.tree.items };
}

impl Marks {
    /// Returns marks for `len` numbers, none of them marked. Only this call takes memory. `Memory`: memory ran out.
    pub fn new(alloc: Global, len: u32) -> Result<Marks, Memory>
        ensures { IfOk result (λ marks. marks ≡ replicate len false) }
    {
        let leaves = (len as usize).next_power_of_two();
        Ok(Marks {
            tree: vec![in alloc; false; 2 * leaves]?,
            leaves,
            len,
            marked: 0,
        })
    }

    /// How many numbers there are, marked or not.
    pub fn len(&self) -> u32
        ensures { result ≡ length self.now }
    {
        self.len
    }

    /// Whether a number is marked.
    pub fn is_marked(&self, number: u32) -> bool
        requires { number < length self.now }
        ensures { result ≡ get_or self.now number false }
    {
        self.tree[self.leaves + number as usize]
    }

    /// How many numbers are marked.
    pub fn count(&self) -> u32
        ensures { result ≡ mark_count self.now }
    {
        self.marked
    }

    /// Marks a number. It may be marked already.
    pub fn mark(&mut self, number: u32)
        requires { number < length self.old }
        ensures { self.new ≡ set self.old number true }
    {
        if !self.is_marked(number) {
            put_leaf(&mut self.tree, self.leaves, number as usize, true);
            self.marked += 1;
        }
    }

    /// Returns the least marked number and removes its mark, or returns `None` if no number is marked.
    pub fn take_least(&mut self) -> Option<u32>
        ensures least { result ≡ least_mark self.old }
        ensures inside { IfSome result (λ number. number < length self.old) }
        ensures marks { MatchOption result (self.new ≡ self.old) (λ number. self.new ≡ set self.old number false) }
    {
        if !self.tree[1] {
            return None;
        }
        let number = least_leaf(&self.tree, self.leaves);
        put_leaf(&mut self.tree, self.leaves, number, false);
        self.marked -= 1;
        Some(number as u32)
    }
}
