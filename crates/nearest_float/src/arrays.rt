//! Nearest numbers written into an array behind those already written.

ghost use Rattle.std.specs.Prelude.{◌≡◌, ◌+◌, ◌^◌, ◌<◌, length, take, drop, slice_index, unsigned_abs};
ghost use Rattle.nearest_float.specs.Binary.{binary32, binary64};
ghost use Rattle.nearest_float.specs.Nearest.{IsNearest};

use crate::nearest::{nearest_binary32, nearest_binary64};

/// Writes the bits of the binary64 number nearest to `num / den` into the array at place `at`.
///
/// The array has that place, and no other item changes. `den` is from 1 to 2^127 - 1. `num` is any `i128` but the least.
pub fn put_binary64(out: &mut [u64], at: usize, num: i128, den: u128)
    requires fits { at < length out.old }
    requires positive { 0 < den }
    requires den_fits { den < 2 ^ 127 }
    requires num_fits { unsigned_abs num < 2 ^ 127 }
    ensures kept { take at out.new ≡ take at out.old }
    ensures nearest { IsNearest binary64 num den (slice_index out.new at) }
    ensures rest { drop (at + 1) out.new ≡ drop (at + 1) out.old }
    ensures len { length out.new ≡ length out.old }
{
    out[at] = nearest_binary64(num, den);
}

/// Writes the bits of the binary32 number nearest to `num / den` into the array at place `at`.
///
/// The array has that place, and no other item changes. `den` is from 1 to 2^127 - 1. `num` is any `i128` but the least.
pub fn put_binary32(out: &mut [u32], at: usize, num: i128, den: u128)
    requires fits { at < length out.old }
    requires positive { 0 < den }
    requires den_fits { den < 2 ^ 127 }
    requires num_fits { unsigned_abs num < 2 ^ 127 }
    ensures kept { take at out.new ≡ take at out.old }
    ensures nearest { IsNearest binary32 num den (slice_index out.new at) }
    ensures rest { drop (at + 1) out.new ≡ drop (at + 1) out.old }
    ensures len { length out.new ≡ length out.old }
{
    out[at] = nearest_binary32(num, den);
}
