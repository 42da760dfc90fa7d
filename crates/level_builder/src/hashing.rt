//! The hash of an edge, under a key and by blocks of points.

ghost use Rattle.std.specs.Prelude.{◌≡◌};
ghost use Rattle.level_builder.specs.Hashing.{blocks_of, places_in_blocks};

use std::hash::{BuildHasher, DefaultHasher, Hasher};

// Hashes edges by blocks of 8 points. A keyed hash of the blocks of both ends chooses the group of the map. The places of the ends in their
// blocks change the tag, and the group only in a map of 2^24 groups or more.
//
// Edges of neighbouring points lie near each other in memory, so a large mesh misses the caches less often. Nobody without the key can
// choose which blocks collide. Two blocks have at most 64 edges between them, with different tags.
#[derive(Clone, Copy)]
pub(crate) struct KeyedHashing {
    keyed: DefaultHasher,
}

impl KeyedHashing {
    pub(crate) fn new(key: u128) -> KeyedHashing {
        let mut keyed = DefaultHasher::new();
        keyed.write_u128(key);
        KeyedHashing { keyed }
    }
}

impl BuildHasher for KeyedHashing {
    type Hasher = BlockHasher;

    ghost build_hasher = { λ s. record { keyed = s.keyed; ends = 0 } };

    fn build_hasher(&self) -> BlockHasher {
        BlockHasher {
            keyed: self.keyed,
            ends: 0,
        }
    }
}

// Collects the two ends in one number. The first one gets into its lower half.
#[derive(Clone, Copy)]
pub(crate) struct BlockHasher {
    keyed: DefaultHasher,
    ends: u64,
}

// The numbers of the blocks of two ends.
fn blocks_of(ends: u64) -> u64
    ensures { result ≡ blocks_of ends }
{
    ends >> 3 & 0x1FFF_FFFF_1FFF_FFFF
}

// The places of two ends in their blocks, as 6 bits of the tag.
fn places_in_blocks(ends: u64) -> u64
    ensures { result ≡ places_in_blocks ends }
{
    (ends & 7) << 24 ^ (ends >> 32 & 7) << 27
}

impl Hasher for BlockHasher {
    ghost use Rattle.level_builder.specs.Hashing.{write, finish};

    ghost write = { write };

    ghost finish = { finish };

    #[inline(always)]
    fn write(&mut self, bytes: &[u8]) {
        for b in bytes {
            self.ends = self.ends >> 8 | (*b as u64) << 56;
        }
    }

    #[inline(always)]
    fn finish(&self) -> u64 {
        let mut keyed = self.keyed;
        keyed.write_u64(blocks_of(self.ends));
        keyed.finish() ^ places_in_blocks(self.ends)
    }
}
