//! The table of a channel, carried from level to level within the bounds of numbers.

ghost use Rattle.std.specs.Prelude.{◌≡◌, length, IfOk};
ghost use Rattle.subdiv_model.specs.Mask.{CatmullClark};
ghost use Rattle.mask_rules.specs.View.{scheme_of};
ghost use Rattle.child_masks.specs.Masks.{CanRefine};
ghost use Rattle.channel_refine.specs.Step.{IsNextTable};
ghost use Rattle.channel_refine.specs.Causes.{cause_of_table};

use level_topology::{Child, Level};
use level_walk::{Carrier, Cause, OverflowKind};
use mask_rules::Scheme;
use ratio128::Steps;
use std::alloc::Global;
use std::sync::ledger::Ledger;
use stencil_apply::{StencilTable, scale_fits};
use stencil_factory::{TableFault, compose_level};

// Returns the cause of a walk for a fault of a table.
fn table_cause(fault: TableFault) -> Cause
    ensures { result ≡ cause_of_table fault }
{
    match fault {
        TableFault::Transition { .. } => Cause::Overflow(OverflowKind::Transition),
        TableFault::Denominator { .. } => Cause::Overflow(OverflowKind::Denominator),
        TableFault::TooManyEntries => Cause::TooManyEntries,
        TableFault::Memory => Cause::Memory,
    }
}

// Returns the table of the points of a child level. Returns the cause if there is none, or if its greatest denominator times `most` is
// above 2^126 - 1.
fn next_table(
    alloc: Global,
    level: &Level,
    child: &Child,
    table: &StencilTable,
    most: u128,
    scheme: Scheme,
) -> Result<StencilTable, Cause>
    requires each { length table.now.rows ≡ level.now.level.point_count }
    requires child { CanRefine level.now child.now CatmullClark }
    ensures composed { IsNextTable most level.now.level (scheme_of scheme) child.now.origins table.now result }
    ensures each { IfOk result (λ next. length next.rows ≡ child.now.topology.level.point_count) }
{
    child.facts();
    let next = match compose_level(alloc, table, level, child, scheme) {
        Ok(next) => next,
        Err(fault) => return Err(table_cause(fault)),
    };
    next.facts();
    if !scale_fits(&next, most) {
        return Err(Cause::Overflow(OverflowKind::Value));
    }
    Ok(next)
}

/// Carries a table over the points of the first level of the walk. The greatest denominator of each later level, times `most`, is at most
/// 2^126 - 1. Carrying a table takes no step.
#[derive(Clone, Copy)]
pub struct ByTable {
    /// The scheme of the channel.
    pub scheme: Scheme,
    /// The greater of the greatest control number and the common denominator.
    pub most: u128,
}

impl<L: Ledger> Carrier<L> for ByTable {
    type Carried = StencilTable;

    ghost use Rattle.std.specs.Prelude.{◌≡◌, length};
    ghost use Rattle.mask_rules.specs.View.{scheme_of};
    ghost use Rattle.channel_refine.specs.Step.{IsCarried, IsTableCause};

    ghost Fits = { λ _ t table. length table.rows ≡ t.level.point_count };

    ghost Follows = { λ by t child table next old new. IsCarried by.most t.level (scheme_of by.scheme) child.origins table next × (new ≡ old) };

    ghost Fails = { λ by t child table cause old new. IsTableCause by.most t.level (scheme_of by.scheme) child.origins table cause × (new ≡ old) };

    fn follow(
        &self,
        alloc: Global,
        parent: &Level,
        child: &Child,
        before: &StencilTable,
        steps: &mut Steps<L>,
    ) -> Result<StencilTable, Cause> {
        next_table(alloc, parent, child, before, self.most, self.scheme)
    }
}
