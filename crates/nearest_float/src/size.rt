ghost use Rattle.std.specs.Prelude.{◌≡◌, ℕ, ◌+◌, ◌-◌, ◌*◌, ◌^◌, ◌<◌, ◌≤◌, IfSome};
ghost use Rattle.nearest_float.specs.Scaled.{IsScaled, IsNearestSize};

use crate::parts::half_even;

// A fraction as a quotient from 1 up to 2, and how often it is doubled to give the number of units.
#[derive(Clone, Copy)]
struct WideFraction {
    top: u128,
    bottom: u128,
    doublings: u32,
}

// Returns the fraction in units of 1 / 2^unit_bits.
fn widen(amount: u128, den: u128, unit_bits: u32) -> WideFraction
    requires amount { 0 < amount }
    requires amount_fits { amount < 2 ^ 127 }
    requires den { 0 < den }
    requires den_fits { den < 2 ^ 127 }
    requires fine { 127 ≤ unit_bits }
    requires unit_fits { unit_bits ≤ 1074 }
    ensures scaled { IsScaled (amount * 2 ^ unit_bits) den result.top result.bottom result.doublings }
    ensures few { result.doublings ≤ unit_bits + 126 }
{
    let amount_shift = 126 - amount.ilog2();
    let den_shift = 126 - den.ilog2();
    let top = amount << amount_shift;
    let bottom = den << den_shift;
    let doublings = unit_bits + den_shift - amount_shift;
    if top < bottom {
        WideFraction {
            top: top << 1,
            bottom,
            doublings: doublings - 1,
        }
    } else {
        WideFraction {
            top,
            bottom,
            doublings,
        }
    }
}

// The least denominator of 127 bits, to which every power of two is widened.
const LEAST_WIDE: u128 = 0x4000_0000_0000_0000_0000_0000_0000_0000;

// Returns the whole quotient of top * 2^shift by 2^126, and the rest, without a division.
fn shifted_quotient(top: u128, shift: u32) -> (u64, u128)
    requires fits { top < 2 ^ 127 }
    requires short { shift ≤ 52 }
    ensures whole { top * 2 ^ shift ≡ result.0 * 2 ^ 126 + result.1 }
    ensures rest { result.1 < 2 ^ 126 }
    ensures few { result.0 < 2 ^ 53 }
{
    let quotient = top >> (126 - shift);
    let rest = top - (quotient << (126 - shift));
    (quotient as u64, rest << shift)
}

// Returns the whole quotient of top * 2^shift by bottom, and the rest. The first estimate divides by the upper half of bottom, rounded up,
// and is at most 1 too small.
fn long_quotient(top: u128, bottom: u128, shift: u32) -> (u64, u128)
    requires wide { 2 ^ 126 ≤ bottom }
    requires fits { bottom < 2 ^ 127 }
    requires below { top < 2 * bottom }
    requires short { shift ≤ 52 }
    ensures whole { top * 2 ^ shift ≡ result.0 * bottom + result.1 }
    ensures rest { result.1 < bottom }
    ensures few { result.0 < 2 ^ 53 }
{
    if bottom == LEAST_WIDE {
        return shifted_quotient(top, shift);
    }
    let guess = (top >> (64 - shift)) / ((bottom >> 64) + 1);
    let rest = (top << shift).wrapping_sub(guess.wrapping_mul(bottom));
    if rest < bottom {
        (guess as u64, rest)
    } else {
        (guess as u64 + 1, rest - bottom)
    }
}

// Returns the size of a significand after its doublings. A significand of twice the hidden bit counts one more doubling.
fn size_from(doublings: u64, significand: u64, fraction_bits: u32) -> u64
    requires short { fraction_bits ≤ 52 }
    requires fits { doublings * 2 ^ fraction_bits + significand < 2 ^ 64 }
    ensures { result ≡ doublings * 2 ^ fraction_bits + significand }
{
    (doublings << fraction_bits) + significand
}

// Returns the size of the number that equals the fraction, if the amount fits a significand and the denominator is a power of two.
fn exact_size(amount: u64, den: u64, fraction_bits: u32, unit_bits: u32) -> Option<u64>
    requires amount { 0 < amount }
    requires den { 0 < den }
    requires some { 0 < fraction_bits }
    requires short { fraction_bits ≤ 52 }
    requires fine { 127 ≤ unit_bits }
    requires unit_fits { unit_bits ≤ 1074 }
    ensures nearest { IfSome result (λ size. IsNearestSize fraction_bits (amount * 2 ^ unit_bits) den size) }
    ensures within { IfSome result (λ size. size ≤ (unit_bits + 128 - fraction_bits) * 2 ^ fraction_bits) }
{
    let bits = amount.ilog2();
    let den_bits = den.ilog2();
    if fraction_bits < bits || den != 1 << den_bits {
        return None;
    }
    let doublings = unit_bits + bits - den_bits - fraction_bits;
    let significand = amount << (fraction_bits - bits);
    Some(size_from(doublings as u64, significand, fraction_bits))
}

// Returns the size of the number that equals the fraction, if both terms have at most 64 bits and [`exact_size`] finds it.
fn short_size(amount: u128, den: u128, fraction_bits: u32, unit_bits: u32) -> Option<u64>
    requires amount { 0 < amount }
    requires den { 0 < den }
    requires some { 0 < fraction_bits }
    requires short { fraction_bits ≤ 52 }
    requires fine { 127 ≤ unit_bits }
    requires unit_fits { unit_bits ≤ 1074 }
    ensures nearest { IfSome result (λ size. IsNearestSize fraction_bits (amount * 2 ^ unit_bits) den size) }
    ensures within { IfSome result (λ size. size ≤ (unit_bits + 128 - fraction_bits) * 2 ^ fraction_bits) }
{
    if amount > u64::MAX as u128 || den > u64::MAX as u128 {
        return None;
    }
    exact_size(amount as u64, den as u64, fraction_bits, unit_bits)
}

// Returns the size of the nearest number, in a format without a greatest exponent.
pub(crate) fn nearest_size(amount: u128, den: u128, fraction_bits: u32, unit_bits: u32) -> u64
    requires amount_fits { amount < 2 ^ 127 }
    requires den { 0 < den }
    requires den_fits { den < 2 ^ 127 }
    requires some { 0 < fraction_bits }
    requires short { fraction_bits ≤ 52 }
    requires fine { 127 ≤ unit_bits }
    requires unit_fits { unit_bits ≤ 1074 }
    ensures nearest { IsNearestSize fraction_bits (amount * 2 ^ unit_bits) den result }
    ensures within { result ≤ (unit_bits + 128 - fraction_bits) * 2 ^ fraction_bits }
{
    if amount == 0 {
        return 0;
    }
    if let Some(size) = short_size(amount, den, fraction_bits, unit_bits) {
        return size;
    }
    let fraction = widen(amount, den, unit_bits);
    let shift = fraction_bits.min(fraction.doublings);
    let (quotient, rest) = long_quotient(fraction.top, fraction.bottom, shift);
    let significand = half_even(quotient, rest, fraction.bottom);
    size_from(
        (fraction.doublings - shift) as u64,
        significand,
        fraction_bits,
    )
}
