//! The parts of a binary number, and rounding half to even.

ghost use Rattle.std.specs.Prelude.{◌≡◌, ◌*◌, ◌^◌, ◌<◌, ◌≤◌};
ghost use Rattle.nearest_float.specs.Binary.{significand, doublings, signed_by};
ghost use Rattle.nearest_float.specs.Scaled.{rounded_half_even};

/// A size in units: a significand, and how often it is doubled.
#[derive(Clone, Copy)]
pub struct Parts {
    /// The significand.
    pub significand: u64,
    /// How often the significand is doubled.
    pub doublings: u32,
}

/// Returns the significand of a finite size, and how often it is doubled.
///
/// The size is the bits of a number without its sign. `fraction_bits` is the length of the fraction field, at most 52.
#[inline]
pub fn parts_of(size: u64, fraction_bits: u32) -> Parts
    requires short { fraction_bits ≤ 52 }
    requires finite { size < 2047 * 2 ^ fraction_bits }
    ensures significand { result.significand ≡ significand fraction_bits size }
    ensures small { result.significand < 2 ^ 53 }
    ensures doublings { result.doublings ≡ doublings fraction_bits size }
    ensures few { result.doublings < 2047 }
{
    let field = size >> fraction_bits;
    let fraction = size - (field << fraction_bits);
    if field == 0 {
        Parts {
            significand: fraction,
            doublings: 0,
        }
    } else {
        Parts {
            significand: fraction + (1 << fraction_bits),
            doublings: (field - 1) as u32,
        }
    }
}

/// Returns the amount, negative unless the sign is 0. The amount is below 2^127.
#[inline]
pub fn signed(sign: u64, amount: u128) -> i128
    requires { amount < 2 ^ 127 }
    ensures { result ≡ signed_by sign amount }
{
    let size = amount as i128;
    if sign == 0 { size } else { -size }
}

/// Returns the quotient, with the rest over `bottom` rounded to nearest, ties to even.
///
/// The quotient is below 2^53, the rest below `bottom`, and `bottom` below 2^127.
#[inline]
pub fn half_even(quotient: u64, rest: u128, bottom: u128) -> u64
    requires few { quotient < 2 ^ 53 }
    requires rest { rest < bottom }
    requires fits { bottom < 2 ^ 127 }
    ensures value { result ≡ rounded_half_even quotient rest bottom }
    ensures few { result ≤ 2 ^ 53 }
{
    let twice = rest * 2;
    if twice < bottom {
        quotient
    } else if bottom < twice {
        quotient + 1
    } else {
        quotient + quotient % 2
    }
}
