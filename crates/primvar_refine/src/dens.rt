//! The denominators of values.

ghost use Rattle.std.specs.Prelude.{◌≡◌, IfOk};
ghost use Rattle.primvar_refine.specs.Rows.{dens_of};
ghost use Rattle.primvar_refine.specs.View.{rows_of};

use crate::Valued;
use ratio128::{Memory, Primvar};
use std::alloc::Global;
use std::sync::ledger::Ledger;

/// Returns the denominators of values.
pub(crate) fn denominators<P: Primvar<L>, L: Ledger>(
    alloc: Global,
    values: &[Valued<P>],
) -> Result<Vec<u128>, Memory>
    ensures { IfOk result (λ dens. dens.items ≡ dens_of (rows_of P.numbers values.now)) }
{
    let mut dens = Vec::with_capacity(alloc, values.len())?;
    for value in values {
        dens.push(value.den)?;
    }
    Ok(dens)
}
