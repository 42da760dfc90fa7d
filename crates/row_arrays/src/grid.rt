//! Numbers rounded to multiples of a power of two.

ghost use Rattle.std.specs.Prelude.{◌≡◌, ◌+◌, ◌≤◌, ◌<◌, length, get_or, map, take, drop, MatchResult};
ghost use Rattle.nearest_float.specs.Binary.{binary32, binary64};
ghost use Rattle.flat_arrays.specs.Words.{integer_of};
ghost use Rattle.row_arrays.specs.Floats.{bits_at, bits_of, format_of};
ghost use Rattle.row_arrays.specs.Answers.{AreFloatsRounded};
ghost use Rattle.row_arrays.specs.Grid.{AreRounded, IsRoundFault, IsRoundedTo, IsUnroundedHere, IsRoundRefused};

use crate::NumberFault;
use crate::amount::{GridNumber, rounded_size};
use crate::floats::Floats;
use flat_arrays::{Wide, put_item};
use nearest_float::FloatFault;

const INFINITY64: u64 = 0x7ff0_0000_0000_0000;

const INFINITY32: u32 = 0x7f80_0000;

const SIGN64: u64 = 0x8000_0000_0000_0000;

const SIGN32: u32 = 0x8000_0000;

fn rounded_binary64(bits: u64, grid_bits: u32) -> Result<GridNumber, FloatFault>
    requires { grid_bits ≤ 126 }
    ensures { MatchResult result (λ x. IsRoundedTo binary64 grid_bits bits x) (λ fault. IsRoundRefused binary64 grid_bits bits fault) }
{
    let size = bits % SIGN64;
    if size >= INFINITY64 {
        return Err(FloatFault::NotFinite);
    }
    match rounded_size(bits / SIGN64, size, 52, 1074, grid_bits) {
        Some(number) => Ok(number),
        None => Err(FloatFault::TooWide),
    }
}

fn rounded_binary32(bits: u32, grid_bits: u32) -> Result<GridNumber, FloatFault>
    requires { grid_bits ≤ 126 }
    ensures { MatchResult result (λ x. IsRoundedTo binary32 grid_bits bits x) (λ fault. IsRoundRefused binary32 grid_bits bits fault) }
{
    let size = bits % SIGN32;
    if size >= INFINITY32 {
        return Err(FloatFault::NotFinite);
    }
    match rounded_size((bits / SIGN32) as u64, size as u64, 23, 149, grid_bits) {
        Some(number) => Ok(number),
        None => Err(FloatFault::TooWide),
    }
}

fn rounded_double(bits: &[u64], place: usize, grid_bits: u32) -> Result<GridNumber, FloatFault>
    requires inside { place < length bits.now }
    requires grid_fits { grid_bits ≤ 126 }
    ensures { MatchResult result (λ x. IsRoundedTo binary64 grid_bits (get_or bits.now place 0) x) (λ fault. IsRoundRefused binary64 grid_bits (get_or bits.now place 0) fault) }
{
    rounded_binary64(bits[place], grid_bits)
}

fn rounded_single(bits: &[u32], place: usize, grid_bits: u32) -> Result<GridNumber, FloatFault>
    requires inside { place < length bits.now }
    requires grid_fits { grid_bits ≤ 126 }
    ensures { MatchResult result (λ x. IsRoundedTo binary32 grid_bits (get_or bits.now place 0) x) (λ fault. IsRoundRefused binary32 grid_bits (get_or bits.now place 0) fault) }
{
    rounded_binary32(bits[place], grid_bits)
}

// Returns the number at a place, rounded.
fn rounded_float(numbers: &Floats, place: usize, grid_bits: u32) -> Result<GridNumber, FloatFault>
    requires inside { place < length (bits_of numbers.now) }
    requires grid_fits { grid_bits ≤ 126 }
    ensures { MatchResult result (IsRoundedTo (format_of numbers.now) grid_bits (bits_at numbers.now place)) (IsRoundRefused (format_of numbers.now) grid_bits (bits_at numbers.now place)) }
{
    match numbers {
        Floats::Doubles(bits) => rounded_double(bits, place, grid_bits),
        Floats::Singles(bits) => rounded_single(bits, place, grid_bits),
    }
}

// Returns the number at a place, rounded; an error contains the place.
fn rounded_at(numbers: &Floats, place: usize, grid_bits: u32) -> Result<GridNumber, NumberFault>
    requires inside { place < length (bits_of numbers.now) }
    requires grid_fits { grid_bits ≤ 126 }
    ensures { MatchResult result (IsRoundedTo (format_of numbers.now) grid_bits (bits_at numbers.now place)) (IsUnroundedHere (format_of numbers.now) grid_bits (bits_at numbers.now place) place) }
{
    match rounded_float(numbers, place, grid_bits) {
        Ok(number) => Ok(number),
        Err(fault) => Err(NumberFault { place, fault }),
    }
}

// Writes the numerators over the grid. Returns how many numbers rounding changed.
fn round_all(numbers: &Floats, grid_bits: u32, out: &mut [Wide]) -> Result<u64, NumberFault>
    requires equal { length out.old ≡ length (bits_of numbers.now) }
    requires grid_fits { grid_bits ≤ 126 }
    ensures rounded { AreFloatsRounded numbers.now grid_bits out.new result }
    ensures len { length out.new ≡ length out.old }
{
    let mut changed: u64 = 0;
    for place in 0..numbers.len() {
        let number = rounded_at(numbers, place, grid_bits)?;
        put_item(out, place, Wide::of_integer(number.numerator));
        changed += u64::from(number.changed);
    }
    Ok(changed)
}

/// Rounds binary64 numbers to the nearest multiples of 2^-grid_bits and writes their numerators over 2^grid_bits to the start of `out`.
///
/// Returns how many numbers rounding changed. Ties go to the even numerator. `grid_bits` is at most 126, and `out` has a place for each
/// number. A tiny number such as 10^-300 rounds to 0.
///
/// # Errors
///
/// The place, counted from 0, of the first number at fault. `NotFinite`: it is not finite. `TooWide`: its numerator is 2^127 or more in
/// amount. The places for the numbers then have no defined contents.
pub fn round_binary64s(bits: &[u64], grid_bits: u32, out: &mut [Wide]) -> Result<u64, NumberFault>
    requires fits { length bits.now ≤ length out.old }
    requires grid_fits { grid_bits ≤ 126 }
    ensures rounded { MatchResult result (λ changed. AreRounded binary64 grid_bits bits.now changed (map integer_of (take (length bits.now) out.new))) (IsRoundFault binary64 grid_bits bits.now) }
    ensures rest { drop (length bits.now) out.new ≡ drop (length bits.now) out.old }
    ensures len { length out.new ≡ length out.old }
{
    round_all(&Floats::Doubles(bits), grid_bits, &mut out[..bits.len()])
}

/// Rounds binary32 numbers to the nearest multiples of 2^-grid_bits and writes their numerators over 2^grid_bits to the start of `out`.
///
/// Returns how many numbers rounding changed. Ties go to the even numerator. `grid_bits` is at most 126, and `out` has a place for each
/// number.
///
/// # Errors
///
/// The place, counted from 0, of the first number at fault. `NotFinite`: it is not finite. `TooWide`: its numerator is 2^127 or more in
/// amount. The places for the numbers then have no defined contents.
pub fn round_binary32s(bits: &[u32], grid_bits: u32, out: &mut [Wide]) -> Result<u64, NumberFault>
    requires fits { length bits.now ≤ length out.old }
    requires grid_fits { grid_bits ≤ 126 }
    ensures rounded { MatchResult result (λ changed. AreRounded binary32 grid_bits bits.now changed (map integer_of (take (length bits.now) out.new))) (IsRoundFault binary32 grid_bits bits.now) }
    ensures rest { drop (length bits.now) out.new ≡ drop (length bits.now) out.old }
    ensures len { length out.new ≡ length out.old }
{
    round_all(&Floats::Singles(bits), grid_bits, &mut out[..bits.len()])
}
