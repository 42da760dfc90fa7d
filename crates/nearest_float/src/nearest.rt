ghost use Rattle.std.specs.Prelude.{◌≡◌, ℕ, ◌+◌, ◌^◌, ◌<◌, unsigned_abs, if◌then◌else◌};
ghost use Rattle.nearest_float.specs.Binary.{IsFinite, binary32, binary64};
ghost use Rattle.nearest_float.specs.Nearest.{IsNearest};

use crate::size::nearest_size;

const SIGN64: u64 = 0x8000_0000_0000_0000;

const SIGN32: u64 = 0x8000_0000;

// Returns the size, with the sign bit if the number is negative.
fn with_sign(negative: bool, size: u64, sign: u64) -> u64
    requires { size + sign < 2 ^ 64 }
    ensures { result ≡ (if negative then sign else 0) + size }
{
    if negative { sign + size } else { size }
}

/// Returns the bits of the binary64 number nearest to `num / den`.
///
/// Ties go to the even significand. The number is finite, and 0 has no sign. `den` is from 1 to 2^127 - 1. `num` is any `i128` but the
/// least.
pub fn nearest_binary64(num: i128, den: u128) -> u64
    requires positive { 0 < den }
    requires den_fits { den < 2 ^ 127 }
    requires num_fits { unsigned_abs num < 2 ^ 127 }
    ensures nearest { IsNearest binary64 num den result }
    ensures finite { IsFinite binary64 result }
{
    with_sign(
        num < 0,
        nearest_size(num.unsigned_abs(), den, 52, 1074),
        SIGN64,
    )
}

/// Returns the bits of the binary32 number nearest to `num / den`.
///
/// Ties go to the even significand. The number is finite, and 0 has no sign. A fraction below 2^-126 in amount can become a subnormal
/// number. `den` is from 1 to 2^127 - 1. `num` is any `i128` but the least.
pub fn nearest_binary32(num: i128, den: u128) -> u32
    requires positive { 0 < den }
    requires den_fits { den < 2 ^ 127 }
    requires num_fits { unsigned_abs num < 2 ^ 127 }
    ensures nearest { IsNearest binary32 num den result }
    ensures finite { IsFinite binary32 result }
{
    with_sign(
        num < 0,
        nearest_size(num.unsigned_abs(), den, 23, 149),
        SIGN32,
    ) as u32
}
