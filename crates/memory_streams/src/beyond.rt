ghost use Rattle.std.specs.Prelude.{◌≡◌, ℕ, ◌-◌, ◌^◌, [], ◌++◌, length, min};

use crate::written::Written;
use std::marker::Model;

// Bytes that are counted but not stored. The count stops at 2^64 - 1.
#[derive(Drop)]
pub(crate) struct Beyond {
    bytes: Written,
    count: u64,
}

impl Model for Beyond {
    ghost use Rattle.std.specs.Prelude.{◌≡◌, ℕ, ◌-◌, ◌^◌, List, length, min};

    ghost Value = { List ℕ };

    ghost view = { λ b. b.bytes.bytes };

    ghost invariant = { λ b. b.count ≡ min (length b.bytes.bytes) (2 ^ 64 - 1) };
}

impl Beyond {
    pub(crate) fn new() -> Beyond
        ensures { result ≡ [] }
    {
        Beyond {
            bytes: Written::new(),
            count: 0,
        }
    }

    pub(crate) fn count(&self) -> u64
        ensures { result ≡ min (length self.now) (2 ^ 64 - 1) }
    {
        self.count
    }

    pub(crate) fn add(&mut self, piece: &[u8])
        ensures { self.new ≡ self.old ++ piece.now }
    {
        self.bytes = self.bytes.and(piece);
        self.count = self.count.saturating_add(piece.len() as u64);
    }
}
