//! The sparse levels of the positions of a mesh.

ghost use Rattle.std.specs.Prelude.{◌≡◌, ◌+◌, ◌≤◌, length};
ghost use Rattle.feature_select.specs.Rule.{AnswersTest};
ghost use Rattle.far_model.specs.Answer.{positions_of, test_of};
ghost use Rattle.far_words.specs.View.{sparse_of_code};
ghost use Rattle.ratio128.specs.StepsTaken.{StepsTaken};
ghost use Rattle.mesh_answers.specs.Refusals.{IsFoundOr};
ghost use Rattle.mesh_answers.specs.SparseLevels.{ArePointsLevels, ArePointsLevelsFound, IsWithinLimits, sparse_position_refusal};
ghost use Rattle.mesh_answers.specs.StepCounts.{sparse_position_steps};

use crate::level::level_0;
use crate::tracks::position_channel;
use channel_refine::{BaseChannel, refine_sparse};
use far_fault::{FarFault, Track, fault_of_walk};
use far_words::{Select, SparseOptions};
use feature_select::{Every, FaceTest, Feature, SelectRule, is_feature, is_selectable};
use level_topology::FaceFacts;
use ratio128::{Point3, Steps};
use raw_mesh::RawMesh;
use sparse_level::SparseValues;
use std::alloc::Global;
use std::sync::ledger::Ledger;

// The sparse levels of the positions, for a rule that selects the faces that the options name.
fn points_levels<T: FaceTest, F: Fn(&FaceFacts) -> bool, L: Ledger>(
    alloc: Global,
    mesh: &RawMesh,
    positions: BaseChannel,
    rule: &SelectRule<T, F>,
    options: &SparseOptions,
    steps: &mut Steps<L>,
) -> Result<Vec<SparseValues<Point3>>, FarFault>
    requires depth { options.now.depth ≤ 10 }
    requires mesh { IsWithinLimits mesh.now }
    requires base { positions ≡ positions_of mesh.now }
    requires answers { AnswersTest F.Fn rule.now.0 (T.meets rule.now.1) }
    requires test { T.meets rule.now.1 ≡ test_of (sparse_of_code options.now).select }
    ensures levels { let asked = sparse_of_code options.now in IsFoundOr (λ levels. ArePointsLevels asked mesh.now levels.items) (sparse_position_refusal asked mesh.now) result }
    ensures steps { StepsTaken result steps.old steps.new 0 (sparse_position_steps (sparse_of_code options.now) mesh.now) }
{
    mesh.facts();
    match refine_sparse(alloc, positions, rule, mesh.points(), options.depth, steps) {
        Ok(levels) => Ok(levels),
        Err(fault) => Err(fault_of_walk(fault, Track::Positions)),
    }
}

/// The sparse levels of the positions of a mesh, from the channel of the positions. The options select the faces to refine.
pub(crate) fn selected_points<L: Ledger>(
    alloc: Global,
    mesh: &RawMesh,
    positions: BaseChannel,
    options: &SparseOptions,
    steps: &mut Steps<L>,
) -> Result<Vec<SparseValues<Point3>>, FarFault>
    requires depth { options.now.depth ≤ 10 }
    requires mesh { IsWithinLimits mesh.now }
    requires base { positions ≡ positions_of mesh.now }
    ensures levels { let asked = sparse_of_code options.now in IsFoundOr (λ levels. ArePointsLevels asked mesh.now levels.items) (sparse_position_refusal asked mesh.now) result }
    ensures steps { StepsTaken result steps.old steps.new 0 (sparse_position_steps (sparse_of_code options.now) mesh.now) }
{
    match options.select {
        Select::Feature => {
            let rule = SelectRule::<Feature, _>::new(|facts: &FaceFacts| is_feature(facts));
            points_levels(alloc, mesh, positions, &rule, options, steps)
        }
        Select::All => {
            let rule = SelectRule::<Every, _>::new(|facts: &FaceFacts| is_selectable(facts));
            points_levels(alloc, mesh, positions, &rule, options, steps)
        }
    }
}

/// Returns the sparse levels of the positions of a mesh from 0 to a depth of at most 10, each with its written points. The options select
/// the faces to refine; the call ignores their decimals and `uv`. A point has the denominator of its row in the table of the whole level.
///
/// The call counts at most one step for each present face of the levels from 0 to the depth, and for each entry of their present points.
///
/// Errors, in this order; `Memory` may come at any time:
///
/// - `Mesh`: the first fault of a mesh that is not a manifold;
/// - `TooLarge`: the first count of the mesh that passes its limit;
/// - `TooLarge` or `Overflow`: the first level, counted from 1, at which a count or a number of the present faces passes its bound.
///
/// Within a level the order is: more than 2^22 present faces (`TooLarge`), `Chaikin`, `Transition`, `Denominator`, a table of more than
/// 2^27 entries (`TooLarge`), `Value`.
pub fn sparse_points<L: Ledger>(
    alloc: Global,
    mesh: &RawMesh,
    options: &SparseOptions,
    steps: &mut Steps<L>,
) -> Result<Vec<SparseValues<Point3>>, FarFault>
    requires { options.now.depth ≤ 10 }
    ensures levels { ArePointsLevelsFound (sparse_of_code options.now) mesh.now result }
    ensures steps { StepsTaken result steps.old steps.new 0 (length mesh.now.faces + sparse_position_steps (sparse_of_code options.now) mesh.now) }
{
    let level = level_0(alloc, mesh, steps)?;
    selected_points(alloc, mesh, position_channel(mesh, level), options, steps)
}
