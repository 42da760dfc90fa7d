//! Doubles and floats as exact numerators.

ghost use Rattle.std.specs.Prelude.{◌≡◌, ◌≤◌, length, drop};
ghost use Rattle.nearest_float.specs.Binary.{binary32, binary64};
ghost use Rattle.flat_arrays.specs.Words.{natural_of};
ghost use Rattle.array_answers.specs.ArrayRecords.{record_of_bad_number, row};
ghost use Rattle.far_c.specs.Numbers.{AnswersRounding, AnswersScale};
ghost use Rattle.far_c.specs.Status.{IsKeptUnlessDone, IsKeptUnlessRefused};

use array_answers::{BAD_ARGUMENT, DONE, FaultRecord, TOO_SHORT};
use flat_arrays::Wide;
use row_arrays::{NumberFault, round_binary32s, round_binary64s, scale_binary32s, scale_binary64s};

const FINEST_GRID: u32 = 126;

// The record of a refused number.
fn record_of_number(fault: NumberFault) -> FaultRecord
    ensures row { result ≡ record_of_bad_number fault.place fault.fault }
    ensures status { 2 ≤ result.status }
{
    FaultRecord::of_bad_number(fault.place, fault.fault)
}

// The record of a grid that is too fine.
fn bad_grid() -> FaultRecord
    ensures { result ≡ row 19 0 0 0 }
{
    FaultRecord {
        status: BAD_ARGUMENT,
        kind: 0,
        first: 0,
        second: 0,
    }
}

/// Writes the numerators of doubles, given as bits, over their least common denominator, and that denominator. If `out` is too short, it
/// writes nothing and judges no number. The fault names the first double without an exact fraction, or else the first with a numerator of
/// 2^127 or more in amount; `out` then has no defined contents.
#[unsafe(no_mangle)]
pub extern "C" fn far_scale_doubles(
    bits: &[u64],
    out: &mut [Wide],
    scale: &mut Wide,
    fault: &mut FaultRecord,
) -> u32
    ensures answer { AnswersScale binary64 bits.now result (natural_of scale.new) out.old out.new fault.new }
    ensures rest { drop (length bits.now) out.new ≡ drop (length bits.now) out.old }
    ensures len { length out.new ≡ length out.old }
    ensures stays { IsKeptUnlessDone result scale.old scale.new × IsKeptUnlessRefused result fault.old fault.new }
{
    if out.len() < bits.len() {
        return TOO_SHORT;
    }
    match scale_binary64s(bits, out) {
        Ok(found) => {
            *scale = Wide::of_natural(found);
            DONE
        }
        Err(refused) => {
            *fault = record_of_number(refused);
            fault.status
        }
    }
}

/// Writes the numerators of floats, given as bits, over their least common denominator, and that denominator. If `out` is too short, it
/// writes nothing and judges no number. The fault names the first float without an exact fraction, or else the first with a numerator of
/// 2^127 or more in amount; `out` then has no defined contents.
#[unsafe(no_mangle)]
pub extern "C" fn far_scale_floats(
    bits: &[u32],
    out: &mut [Wide],
    scale: &mut Wide,
    fault: &mut FaultRecord,
) -> u32
    ensures answer { AnswersScale binary32 bits.now result (natural_of scale.new) out.old out.new fault.new }
    ensures rest { drop (length bits.now) out.new ≡ drop (length bits.now) out.old }
    ensures len { length out.new ≡ length out.old }
    ensures stays { IsKeptUnlessDone result scale.old scale.new × IsKeptUnlessRefused result fault.old fault.new }
{
    if out.len() < bits.len() {
        return TOO_SHORT;
    }
    match scale_binary32s(bits, out) {
        Ok(found) => {
            *scale = Wide::of_natural(found);
            DONE
        }
        Err(refused) => {
            *fault = record_of_number(refused);
            fault.status
        }
    }
}

/// Rounds doubles, given as bits, to multiples of 2^-grid_bits, ties to even. It writes their numerators over 2^grid_bits, and the number
/// of doubles that changed. It refuses `grid_bits` above 126 first. If `out` is too short, it then writes nothing and judges no number.
/// Another fault names the first double that is not finite or has a numerator of 2^127 or more in amount; `out` then has no defined
/// contents.
#[unsafe(no_mangle)]
pub extern "C" fn far_round_doubles(
    bits: &[u64],
    grid_bits: u32,
    out: &mut [Wide],
    changed: &mut u64,
    fault: &mut FaultRecord,
) -> u32
    ensures answer { AnswersRounding binary64 grid_bits bits.now result changed.new out.old out.new fault.new }
    ensures rest { drop (length bits.now) out.new ≡ drop (length bits.now) out.old }
    ensures len { length out.new ≡ length out.old }
    ensures stays { IsKeptUnlessDone result changed.old changed.new × IsKeptUnlessRefused result fault.old fault.new }
{
    if grid_bits > FINEST_GRID {
        *fault = bad_grid();
        return fault.status;
    }
    if out.len() < bits.len() {
        return TOO_SHORT;
    }
    match round_binary64s(bits, grid_bits, out) {
        Ok(count) => {
            *changed = count;
            DONE
        }
        Err(refused) => {
            *fault = record_of_number(refused);
            fault.status
        }
    }
}

/// Rounds floats, given as bits, to multiples of 2^-grid_bits, ties to even. It writes their numerators over 2^grid_bits, and the number
/// of floats that changed. It refuses `grid_bits` above 126 first. If `out` is too short, it then writes nothing and judges no number.
/// Another fault names the first float that is not finite or has a numerator of 2^127 or more in amount; `out` then has no defined
/// contents.
#[unsafe(no_mangle)]
pub extern "C" fn far_round_floats(
    bits: &[u32],
    grid_bits: u32,
    out: &mut [Wide],
    changed: &mut u64,
    fault: &mut FaultRecord,
) -> u32
    ensures answer { AnswersRounding binary32 grid_bits bits.now result changed.new out.old out.new fault.new }
    ensures rest { drop (length bits.now) out.new ≡ drop (length bits.now) out.old }
    ensures len { length out.new ≡ length out.old }
    ensures stays { IsKeptUnlessDone result changed.old changed.new × IsKeptUnlessRefused result fault.old fault.new }
{
    if grid_bits > FINEST_GRID {
        *fault = bad_grid();
        return fault.status;
    }
    if out.len() < bits.len() {
        return TOO_SHORT;
    }
    match round_binary32s(bits, grid_bits, out) {
        Ok(count) => {
            *changed = count;
            DONE
        }
        Err(refused) => {
            *fault = record_of_number(refused);
            fault.status
        }
    }
}
