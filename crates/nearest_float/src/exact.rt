ghost use Rattle.std.specs.Prelude.{◌≡◌, ◌*◌, ◌%◌, ◌^◌, ◌<◌, ◌≤◌, MatchResult};
ghost use Rattle.nearest_float.specs.Binary.{binary32, binary64, units, signed_by};
ghost use Rattle.nearest_float.specs.Exact.{IsExact};
ghost use Rattle.nearest_float.specs.Faults.{IsReading, IsRefused};
ghost use Rattle.nearest_float.specs.Terms.{AreTermsOf};

use crate::FloatFault;
use crate::parts::{Parts, parts_of, signed};
use ratio128::Frac;

const INFINITY64: u64 = 0x7ff0_0000_0000_0000;

const INFINITY32: u32 = 0x7f80_0000;

const SIGN64: u64 = 0x8000_0000_0000_0000;

const SIGN32: u32 = 0x8000_0000;

// Returns the lowest terms of an odd number of units, doubled `doublings` times. A unit is 1 / 2^unit_bits.
fn terms_of_odd(odd: u128, doublings: u32, unit_bits: u32) -> Option<(u128, u128)>
    requires odd { odd % 2 ≡ 1 }
    requires fits { odd < 2 ^ 64 }
    requires few { doublings < 2 ^ 12 }
    requires unit_fits { unit_bits < 2 ^ 12 }
    ensures { AreTermsOf (odd * 2 ^ doublings) (2 ^ unit_bits) result }
{
    if doublings < unit_bits {
        let halvings = unit_bits - doublings;
        if halvings > 126 {
            None
        } else {
            Some((odd, 1 << halvings))
        }
    } else {
        let shift = doublings - unit_bits;
        if odd.ilog2() + shift > 126 {
            None
        } else {
            Some((odd << shift, 1))
        }
    }
}

// Returns the lowest terms of a number of units.
fn terms_of(parts: Parts, unit_bits: u32) -> Option<(u128, u128)>
    requires few { parts.doublings < 2047 }
    requires unit_fits { unit_bits < 2 ^ 12 }
    ensures { AreTermsOf (parts.significand * 2 ^ parts.doublings) (2 ^ unit_bits) result }
{
    if parts.significand == 0 {
        return Some((0, 1));
    }
    let amount = parts.significand as u128;
    let twos = amount.trailing_zeros();
    terms_of_odd(amount >> twos, parts.doublings + twos, unit_bits)
}

// Returns the fraction of a finite size with a sign.
fn exact(sign: u64, size: u64, fraction_bits: u32, unit_bits: u32) -> Result<Frac, FloatFault>
    requires short { fraction_bits ≤ 52 }
    requires finite { size < 2047 * 2 ^ fraction_bits }
    requires unit_fits { unit_bits < 2 ^ 12 }
    ensures { IsReading (signed_by sign (units fraction_bits size)) (2 ^ unit_bits) result }
{
    match terms_of(parts_of(size, fraction_bits), unit_bits) {
        None => Err(FloatFault::TooWide),
        Some((amount, den)) => Ok(Frac {
            num: signed(sign, amount),
            den,
        }),
    }
}

/// Returns the exact fraction of a binary64 number, given its bits, in lowest terms.
///
/// `NotFinite`: the bits spell an infinity or NaN. `TooWide`: the numerator is 2^127 or more in amount, or the denominator is above 2^126.
pub fn exact_binary64(bits: u64) -> Result<Frac, FloatFault>
    ensures { MatchResult result (λ x. IsExact binary64 bits x.num x.den) (λ fault. IsRefused binary64 bits fault) }
{
    let size = bits % SIGN64;
    if size >= INFINITY64 {
        return Err(FloatFault::NotFinite);
    }
    exact(bits / SIGN64, size, 52, 1074)
}

/// Returns the exact fraction of a binary32 number, given its bits, in lowest terms.
///
/// `NotFinite`: the bits spell an infinity or NaN. `TooWide`: the numerator is 2^127 or more in amount, or the denominator is above 2^126.
pub fn exact_binary32(bits: u32) -> Result<Frac, FloatFault>
    ensures { MatchResult result (λ x. IsExact binary32 bits x.num x.den) (λ fault. IsRefused binary32 bits fault) }
{
    let size = bits % SIGN32;
    if size >= INFINITY32 {
        return Err(FloatFault::NotFinite);
    }
    exact((bits / SIGN32) as u64, size as u64, 23, 149)
}
