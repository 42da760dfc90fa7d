//! The sparse levels of a channel with their tables.

ghost use Rattle.std.specs.Prelude.{◌≡◌, ◌≤◌, Err, IfOk, IsOkAnd, MatchResult};
ghost use Rattle.feature_select.specs.Rule.{AnswersTest};
ghost use Rattle.channel_refine.specs.Base.{IsBase};
ghost use Rattle.channel_refine.specs.SparseComposed.{AreComposedTo, AreComposeSteps};
ghost use Rattle.channel_refine.specs.SparseRefined.{IsSparseFaultTo};
ghost use Rattle.channel_refine.specs.SparseStart.{IsStart};

use crate::base::BaseChannel;
use crate::table::ByTable;
use feature_select::{FaceTest, SelectRule};
use level_topology::{FaceFacts, Level};
use level_walk::{Reached, WalkFault, walk};
use ratio128::{Memory, Steps};
use sparse_walk::{Keeping, KeptLevel, Sparse, WalkedSparse};
use std::alloc::Global;
use std::sync::ledger::Ledger;
use stencil_apply::StencilTable;
use stencil_factory::identity;

// Returns a level with its table, or the error of the table.
fn with_table(
    level: WalkedSparse,
    carried: Result<StencilTable, Memory>,
) -> Result<Reached<WalkedSparse, StencilTable>, Memory>
    ensures { MatchResult carried
        (λ table. IsOkAnd result (λ start. start ≡ record { level = level; carried = table }))
        (λ fault. result ≡ Err fault) }
{
    carried.map(|carried| Reached { level, carried })
}

// Returns level 0 with the table of its own points: the start of the walk.
fn start_at(alloc: Global, level: Level) -> Result<Reached<WalkedSparse, StencilTable>, Memory>
    requires { IsBase level }
    ensures { IfOk result (λ start. IsStart level start) }
{
    let points = level.points();
    let level = WalkedSparse::base(alloc, level)?;
    let start = with_table(level, identity(alloc, points))?;
    start.carried.facts();
    Ok(start)
}

// Returns the sparse levels of a channel from 0 to `depth`, each with the table of its points. The call counts at most one step for each
// face of the levels after the first.
pub(crate) fn compose_sparse<T: FaceTest, F: Fn(&FaceFacts) -> bool, L: Ledger>(
    alloc: Global,
    base: BaseChannel,
    rule: &SelectRule<T, F>,
    depth: u32,
    steps: &mut Steps<L>,
) -> Result<Vec<KeptLevel<StencilTable>>, WalkFault>
    requires depth { depth ≤ 10 }
    requires answers { AnswersTest F.Fn rule.now.0 (T.meets rule.now.1) }
    ensures levels { MatchResult result
        (λ levels. AreComposedTo (T.meets rule.now.1) base depth levels.items)
        (λ fault. IsSparseFaultTo (T.meets rule.now.1) base depth fault) }
    ensures steps { AreComposeSteps (T.meets rule.now.1) base depth steps.old steps.new }
{
    base.facts();
    let scheme = base.scheme();
    let most = base.most();
    let by = ByTable { scheme, most };
    let level = base.into_level();
    level.facts();
    let start = start_at(alloc, level)?;
    let mut keeping = Keeping::empty(alloc);
    let end = walk(
        alloc,
        &Sparse { rule },
        &by,
        &mut keeping,
        start,
        depth,
        steps,
    )?;
    Ok(keeping.into_levels(end.level, end.carried)?)
}
