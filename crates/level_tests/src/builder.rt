// A level from a builder.

ghost use Rattle.std.specs.Prelude.{◌≡◌, ◌<◌, [], ◌∷◌, OnOk};
ghost use Rattle.subdiv_model.specs.Sharpness.{Normal};
ghost use Rattle.level_builder.specs.Builder.{only_points};
ghost use Rattle.level_tests.specs.Faces.{IsUnmarked};

use crate::shown::expect_shown;
use level_builder::LevelBuilder;
use level_topology::Level;
use ratio128::{Memory, Steps};
use sharpness_rules::{Method, Sharpness};
use std::alloc::Global;
use std::marker::Brand;
use std::process::Abort;
use std::sync::ledger::{Blank, Ledger};
use std::test::Fail;

// Adds two triangles that meet at a point, and a third at an edge of the second. No point is marked complete.
fn fill<L: Ledger>(builder: &mut LevelBuilder, steps: &mut Steps<L>) -> Result<(), Memory>
    requires { builder.old ≡ only_points 6 Normal }
    ensures { OnOk result (IsUnmarked builder.new 6 ((3 ∷ 0 ∷ 4 ∷ []) ∷ (1 ∷ 2 ∷ 0 ∷ []) ∷ (2 ∷ 1 ∷ 5 ∷ []) ∷ [])) }
{
    builder.add_face(&[3, 0, 4], false, steps)?;
    builder.add_face(&[1, 2, 0], true, steps)?;
    builder.add_face(&[2, 1, 5], false, steps)?;
    builder.add_sharp_edge(2, 1, Sharpness::Infinite);
    builder.add_sharp_vertex(5, Sharpness::Infinite);
    Ok(())
}

fn build<L: Ledger>(alloc: Global, steps: &mut Steps<L>) -> Result<Level, Memory> {
    let mut builder = LevelBuilder::with_key(alloc, 6, 1, 4, 4, Method::Normal, 7)?;
    fill(&mut builder, steps)?;
    builder.finish()
}

// The lists at each point ascend.
const LINES: &str = "\
Normal
face ([3, 0, 4], [0, 1, 2], false)
face ([1, 2, 0], [3, 4, 5], true)
face ([2, 1, 5], [3, 6, 7], false)
edge ((3, 0), 0, None, (0, 1))
edge ((0, 4), 0, None, (0, 1))
edge ((4, 3), 0, None, (0, 1))
edge ((1, 2), 1, Some(2), (10, 1))
edge ((2, 0), 1, None, (0, 1))
edge ((0, 1), 1, None, (0, 1))
edge ((1, 5), 2, None, (0, 1))
edge ((5, 2), 2, None, (0, 1))
point ([0, 1], [1, 2], [0, 1, 4, 5], [1, 0, 1, 0], (0, 1), false)
point ([1, 2], [0, 1], [3, 5, 6], [0, 1, 0], (0, 1), false)
point ([1, 2], [1, 0], [3, 4, 7], [1, 0, 1], (0, 1), false)
point ([0], [0], [0, 2], [0, 1], (0, 1), false)
point ([0], [2], [1, 2], [1, 0], (0, 1), false)
point ([2], [2], [6, 7], [1, 0], (10, 1), false)
";

fn lines() -> &'static str {
    LINES
}

fn expect_built<L: Ledger>(rt: &impl Abort, alloc: Global, blank: Blank) -> Result<(), Fail>
    requires name { blank.name ≡ L.name }
    requires parts { blank.parts ≡ L.parts }
    requires some { 0 < blank.parts }
{
    let level = build(alloc, &mut Steps::start(blank.open::<L>()))?;
    Ok(expect_shown(rt, alloc, &level, lines())?)
}

#[test]
fn lists_faces_and_edges_in_order_at_unmarked_points(rt: HostRuntime) -> Result<(), Fail> {
    expect_built::<Brand>(&rt, rt.alloc(), Blank::new(1))
}
