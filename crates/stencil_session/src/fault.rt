//! The fault that keeps a control point from moving.

ghost use Rattle.std.specs.Prelude.{◌≡◌, Some, None, MatchResult};
ghost use Rattle.stencil_session.specs.Session.{move_fault, numbers_of};

use ratio128::{Point3, Primvar};
use std::sync::ledger::Ledger;
use stencil_apply::{StencilTable, scale_fits};

/// The fault that keeps a control point from moving.
#[derive(Clone, Copy, Debug, PartialEq, Eq)]
pub enum MoveFault {
    /// There is no such control point.
    IndexRange,
    /// The greatest denominator of the table times an amount in the value is above 2^126 - 1.
    Overflow,
}

/// The greatest denominator of the table times an amount in the value is above 2^126 - 1.
#[derive(Clone, Copy, Debug, PartialEq, Eq)]
pub struct TooGreat;

// Tests whether a control can move to a point, and returns the fault if it cannot.
pub(crate) fn test_move<L: Ledger>(
    table: &StencilTable,
    control: u32,
    target: &Point3,
) -> Result<(), MoveFault>
    ensures { MatchResult result (λ _. move_fault table.now (control, numbers_of target.now) ≡ None) (λ fault. move_fault table.now (control, numbers_of target.now) ≡ Some fault) }
{
    if control >= table.controls() {
        return Err(MoveFault::IndexRange);
    }
    if !scale_fits(table, Primvar::<L>::greatest(target)) {
        return Err(MoveFault::Overflow);
    }
    Ok(())
}
