//! Sizes of numbers, rounded to multiples of a power of two.

ghost use Rattle.std.specs.Prelude.{◌≡◌, ◌*◌, ◌^◌, ◌<◌, ◌≤◌, IfSome, IfNone};
ghost use Rattle.nearest_float.specs.Binary.{units, signed_by};
ghost use Rattle.row_arrays.specs.Amounts.{IsRounding, IsRoundingOf, IsGridNumberOf};

use nearest_float::{Parts, half_even, parts_of, signed};

// An amount as a numerator over the grid, and whether rounding changed it.
#[derive(Clone, Copy)]
struct Rounded {
    amount: u128,
    changed: bool,
}

// A number as a numerator over the grid, and whether rounding changed it.
#[derive(Clone, Copy)]
pub(crate) struct GridNumber {
    pub(crate) numerator: i128,
    pub(crate) changed: bool,
}

// Returns the significand doubled `shift` times, if that is below 2^127.
fn shifted_up(significand: u64, shift: u32) -> Option<u128>
    requires few { shift < 2 ^ 12 }
    ensures none { IfNone result (2 ^ 127 ≤ significand * 2 ^ shift) }
    ensures some { IfSome result (λ n. n ≡ significand * 2 ^ shift) }
    ensures fits { IfSome result (λ n. n < 2 ^ 127) }
{
    if significand == 0 {
        return Some(0);
    }
    let amount = significand as u128;
    if amount.ilog2() + shift > 126 {
        None
    } else {
        Some(amount << shift)
    }
}

// Returns the significand halved `shift` times and rounded, and whether that changed it.
fn shifted_down(significand: u64, shift: u32) -> Rounded
    requires small { significand < 2 ^ 53 }
    ensures { IsRounding significand (2 ^ shift) 1 result }
{
    if shift > 63 {
        return Rounded {
            amount: 0,
            changed: significand != 0,
        };
    }
    let quotient = significand >> shift;
    let rest = significand - (quotient << shift);
    Rounded {
        amount: half_even(quotient, rest as u128, (1u64 << shift) as u128) as u128,
        changed: rest != 0,
    }
}

// Returns a size as a rounded numerator over the grid. A unit is 1 / 2^unit_bits.
fn rounded_amount(parts: Parts, unit_bits: u32, grid_bits: u32) -> Option<Rounded>
    requires small { parts.significand < 2 ^ 53 }
    requires few { parts.doublings < 2047 }
    requires unit_fits { unit_bits < 2 ^ 12 }
    requires grid_fits { grid_bits ≤ 126 }
    ensures { IsRoundingOf (parts.significand * 2 ^ parts.doublings) (2 ^ unit_bits) (2 ^ grid_bits) result }
{
    let up = parts.doublings + grid_bits;
    if up < unit_bits {
        return Some(shifted_down(parts.significand, unit_bits - up));
    }
    match shifted_up(parts.significand, up - unit_bits) {
        None => None,
        Some(amount) => Some(Rounded {
            amount,
            changed: false,
        }),
    }
}

// Returns a finite size with a sign, as a rounded numerator over the grid.
pub(crate) fn rounded_size(
    sign: u64,
    size: u64,
    fraction_bits: u32,
    unit_bits: u32,
    grid_bits: u32,
) -> Option<GridNumber>
    requires short { fraction_bits ≤ 52 }
    requires finite { size < 2047 * 2 ^ fraction_bits }
    requires unit_fits { unit_bits < 2 ^ 12 }
    requires grid_fits { grid_bits ≤ 126 }
    ensures { IsGridNumberOf (signed_by sign (units fraction_bits size)) (2 ^ unit_bits) (2 ^ grid_bits) result }
{
    match rounded_amount(parts_of(size, fraction_bits), unit_bits, grid_bits) {
        None => None,
        Some(amount) => Some(GridNumber {
            numerator: signed(sign, amount.amount),
            changed: amount.changed,
        }),
    }
}
