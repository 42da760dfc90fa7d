//! The key of a mesh.

use std::hash::{DefaultHasher, Hasher};

/// Computes the key of a mesh from its lists of numbers. Each number and the length of each list count. Nobody who chooses the mesh can
/// choose the key with it. The calls have no clauses, because a level does not depend on the key.
#[derive(Clone, Copy)]
pub struct MeshKey {
    hasher: DefaultHasher,
}

impl MeshKey {
    /// Returns the key of no lists.
    pub fn new() -> MeshKey {
        MeshKey {
            hasher: DefaultHasher::new(),
        }
    }

    /// Adds a list after the earlier ones.
    pub fn add(&mut self, numbers: &[u32]) {
        self.hasher.write_usize(numbers.len());
        for number in numbers {
            self.hasher.write_u32(*number);
        }
    }

    /// Returns the key of all lists.
    pub fn finish(mut self) -> u128 {
        let half = self.hasher.finish();
        self.hasher.write_u64(half);
        ((half as u128) << 64) + self.hasher.finish() as u128
    }
}
