// Cut meshes of texture channels.

ghost use Rattle.std.specs.Prelude.{◌≡◌, ◌<◌, true};
ghost use Rattle.mesh_check.specs.Checked.{IsAccepted};

use crate::expect::expect_same;
use crate::inputs::{ONE_CHART, TWO_CHARTS};
use face_varying::{Channel, SeamMode, cut};
use level_topology::Level;
use mesh_check::{CheckFault, check_mesh};
use obj_tags::read_obj;
use ratio128::{Point2, Steps};
use raw_mesh::RawMesh;
use sharpness_rules::Sharpness;
use std::alloc::Global;
use std::marker::Brand;
use std::process::Abort;
use std::sync::ledger::{Blank, Ledger};
use std::test::Fail;

// The channel of a mesh from its level 0.
fn cut_level<L: Ledger>(
    alloc: Global,
    mesh: &RawMesh,
    level: &Level,
    mode: SeamMode,
    steps: &mut Steps<L>,
) -> Result<Channel, CheckFault>
    requires textured { mesh.now.has_texture ≡ true }
    requires accepted { IsAccepted mesh.now level.now }
{
    let channel = cut(alloc, mesh, level, mode, steps)?;
    Ok(channel)
}

fn cut_by<L: Ledger>(
    rt: &impl Abort,
    alloc: Global,
    mesh: &RawMesh,
    mode: SeamMode,
    blank: Blank,
) -> Result<Channel, CheckFault>
    requires name { blank.name ≡ L.name }
    requires parts { blank.parts ≡ L.parts }
    requires some { 0 < blank.parts }
{
    assert!(rt; mesh.has_texture());
    let mut steps = Steps::start(blank.open::<L>());
    let level = check_mesh(alloc, mesh, &mut steps)?;
    cut_level(alloc, mesh, &level, mode, &mut steps)
}

fn sharp_points(level: &Level) -> u32 {
    let mut count: u32 = 0;
    for v in 0..level.points() {
        if let Sharpness::Infinite = level.vertex_sharpness(v) {
            count = count.saturating_add(1);
        }
    }
    count
}

// A mesh, the rule of its seams, and the points, sharp points and last value of the cut mesh.
type Cut = (&'static str, SeamMode, u32, u32, Point2);

const LAST: Point2 = Point2 { u: 4, v: 1 };

const CUTS: &[Cut] = &[
    (TWO_CHARTS, SeamMode::Smooth, 8, 0, LAST),
    (TWO_CHARTS, SeamMode::Corners, 8, 8, LAST),
    (TWO_CHARTS, SeamMode::Boundaries, 8, 8, LAST),
    (ONE_CHART, SeamMode::Smooth, 6, 0, LAST),
    (ONE_CHART, SeamMode::Corners, 6, 4, LAST),
    (ONE_CHART, SeamMode::Boundaries, 6, 6, LAST),
];

fn cuts() -> &'static [Cut] {
    CUTS
}

fn expect_channel(rt: &impl Abort, channel: &Channel, row: &Cut) {
    let &(_, _, points, sharp, last) = row;
    let level = channel.level();
    let given = (level.points(), sharp_points(level), channel.points().last());
    expect_same(rt, &given, &(points, sharp, Some(&last)), row);
}

fn expect_cut(rt: &impl Abort, alloc: Global, row: &Cut) -> Result<(), Fail> {
    let &(text, mode, ..) = row;
    assert!(rt; text.len() < 1 << 28);
    let mesh = read_obj(alloc, text.as_bytes(), 0)?;
    let channel = cut_by::<Brand>(rt, alloc, &mesh, mode, Blank::new(1))?;
    expect_channel(rt, &channel, row);
    Ok(())
}

#[test]
fn cuts_meshes_at_seams(rt: HostRuntime) -> Result<(), Fail> {
    for row in cuts() {
        expect_cut(&rt, rt.alloc(), row)?;
    }
    Ok(())
}
