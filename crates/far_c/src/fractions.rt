//! Fractions as the nearest doubles or floats.

ghost use Rattle.std.specs.Prelude.{◌≡◌, ◌≤◌, length, drop};
ghost use Rattle.nearest_float.specs.Binary.{binary32, binary64};
ghost use Rattle.far_c.specs.Fractions.{AnswersFractions, record_of_fraction_fault};
ghost use Rattle.far_c.specs.Status.{IsKeptIfDone};

use crate::status::record;
use array_answers::{BAD_ARRAYS, BAD_NUMBER, DONE, FaultRecord, TOO_SHORT};
use row_arrays::{FractionArrays, FractionFault, round_fractions32, round_fractions64};

// The record of fractions that cannot be rounded.
fn record_of_fraction_fault(fault: FractionFault) -> FaultRecord
    ensures row { result ≡ record_of_fraction_fault fault }
    ensures status { 1 ≤ result.status }
{
    match fault {
        FractionFault::Short => record(TOO_SHORT, 0, 0),
        FractionFault::Denominator(place) => record(BAD_ARRAYS, 18, place as u64),
        FractionFault::Numerator(place) => record(BAD_NUMBER, 1, place as u64),
    }
}

/// Writes the doubles nearest to fractions, as bits, one for each numerator. After an error it writes nothing.
///
/// Errors:
///
/// - status 17, kind 18, the place: a denominator times the scale is 0, or 2^127 or more;
/// - status 18, kind 1, the place: a numerator is -2^127.
#[unsafe(no_mangle)]
pub extern "C" fn far_nearest_doubles(
    fractions: &FractionArrays,
    out: &mut [u64],
    fault: &mut FaultRecord,
) -> u32
    ensures answer { AnswersFractions binary64 fractions.now result out.old out.new fault.new }
    ensures rest { drop (length fractions.now.numerators.now) out.new ≡ drop (length fractions.now.numerators.now) out.old }
    ensures len { length out.new ≡ length out.old }
    ensures stays { IsKeptIfDone result fault.old fault.new }
{
    match round_fractions64(fractions, out) {
        Ok(()) => DONE,
        Err(found) => {
            *fault = record_of_fraction_fault(found);
            fault.status
        }
    }
}

/// Writes the floats nearest to fractions, as bits, one for each numerator. After an error it writes nothing.
///
/// Errors:
///
/// - status 17, kind 18, the place: a denominator times the scale is 0, or 2^127 or more;
/// - status 18, kind 1, the place: a numerator is -2^127.
#[unsafe(no_mangle)]
pub extern "C" fn far_nearest_floats(
    fractions: &FractionArrays,
    out: &mut [u32],
    fault: &mut FaultRecord,
) -> u32
    ensures answer { AnswersFractions binary32 fractions.now result out.old out.new fault.new }
    ensures rest { drop (length fractions.now.numerators.now) out.new ≡ drop (length fractions.now.numerators.now) out.old }
    ensures len { length out.new ≡ length out.old }
    ensures stays { IsKeptIfDone result fault.old fault.new }
{
    match round_fractions32(fractions, out) {
        Ok(()) => DONE,
        Err(found) => {
            *fault = record_of_fraction_fault(found);
            fault.status
        }
    }
}
