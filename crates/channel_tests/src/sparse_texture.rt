// Sparse levels of a channel, and of a texture that selects the same faces by number.

ghost use Rattle.std.specs.Prelude.{◌≡◌, ◌<◌, ◌≤◌, map, IfOk};
ghost use Rattle.subdiv_model.specs.Base.{base_level};
ghost use Rattle.channel_refine.specs.Evaluated.{control_rows};
ghost use Rattle.channel_refine.specs.Refined.{AreControls};
ghost use Rattle.channel_tests.specs.Sparse.{AreFeatureLevels, channel_by, numbers_of};

use crate::base::level_of;
use crate::expect::expect_same;
use crate::inputs::CUBE;
use crate::sparse::{counts, expect_count};
use channel_refine::{BaseChannel, refine_sparse};
use feature_select::{Feature, SelectRule, is_feature};
use level_topology::FaceFacts;
use level_walk::WalkFault;
use mask_rules::Scheme;
use mesh_check::CheckFault;
use obj_tags::read_obj;
use ratio128::{Memory, Point3, Steps};
use raw_mesh::RawMesh;
use sparse_face_varying::{refine_sparse_texture, selected_levels};
use sparse_level::SparseValues;
use std::alloc::Global;
use std::marker::Brand;
use std::process::Abort;
use std::sync::ledger::{Blank, Ledger};
use std::test::Fail;

// The channel of a mesh, for controls of at most 3 in amount.
fn channel_of<L: Ledger>(
    rt: &impl Abort,
    alloc: Global,
    mesh: &RawMesh,
    steps: &mut Steps<L>,
) -> Result<BaseChannel, CheckFault>
    ensures { IfOk result (λ base. base ≡ channel_by mesh.now) }
{
    let level = level_of(rt, alloc, mesh, steps)?;
    Ok(BaseChannel::new(level, Scheme::CatmullClark, 3, 1))
}

// The same control for each point of a mesh.
fn controls_of(alloc: Global, mesh: &RawMesh) -> Result<Vec<Point3>, Memory>
    ensures { IfOk result (λ controls. AreControls (channel_by mesh.now) (control_rows (map numbers_of controls.items))) }
{
    let control = Point3 { x: 1, y: 2, z: 3 };
    let count = mesh.points().len();
    Ok(vec![in alloc; control; count]?)
}

// The levels of a channel around the features of its mesh.
fn feature_levels<L: Ledger>(
    alloc: Global,
    base: BaseChannel,
    controls: &[Point3],
    depth: u32,
    steps: &mut Steps<L>,
) -> Result<Vec<SparseValues<Point3>>, WalkFault>
    requires depth { depth ≤ 10 }
    requires controls { AreControls base (control_rows (map numbers_of controls.now)) }
    ensures { IfOk result (λ levels. AreFeatureLevels base.base depth levels.items) }
{
    let rule = SelectRule::<Feature, _>::new(|facts: &FaceFacts| is_feature(facts));
    refine_sparse(alloc, base, &rule, controls, depth, steps)
}

// The levels of a channel, with the faces that some levels of its mesh select.
fn levels_like<L: Ledger>(
    alloc: Global,
    base: BaseChannel,
    levels: &[SparseValues<Point3>],
    controls: &[Point3],
    depth: u32,
    steps: &mut Steps<L>,
) -> Result<Vec<SparseValues<Point3>>, WalkFault>
    requires depth { depth ≤ 10 }
    requires controls { AreControls base (control_rows (map numbers_of controls.now)) }
    requires levels { AreFeatureLevels base.base depth levels.now }
{
    let numbers = selected_levels(alloc, levels, depth)?;
    refine_sparse_texture(alloc, base, &numbers, controls, depth, steps)
}

// The levels up to depth 2 have the counts of the cube.
fn expect_counts(rt: &impl Abort, levels: &[SparseValues<Point3>]) {
    expect_same(rt, &levels.len(), &3, &"levels");
    for (level, count) in levels.iter().zip(counts()) {
        expect_count(rt, &level.faces, count);
    }
}

// A texture with the faces of these levels has their counts.
fn expect_texture<L: Ledger>(
    rt: &impl Abort,
    alloc: Global,
    mesh: &RawMesh,
    levels: &[SparseValues<Point3>],
    controls: &[Point3],
    steps: &mut Steps<L>,
) -> Result<(), Fail>
    requires controls { AreControls (channel_by mesh.now) (control_rows (map numbers_of controls.now)) }
    requires levels { AreFeatureLevels (base_level mesh.now) 2 levels.now }
{
    let base = channel_of(rt, alloc, mesh, steps)?;
    let texture = levels_like(alloc, base, levels, controls, 2, steps)?;
    expect_counts(rt, &texture);
    Ok(())
}

fn expect_levels<L: Ledger>(
    rt: &impl Abort,
    alloc: Global,
    mesh: &RawMesh,
    controls: &[Point3],
    steps: &mut Steps<L>,
) -> Result<(), Fail>
    requires { AreControls (channel_by mesh.now) (control_rows (map numbers_of controls.now)) }
{
    let base = channel_of(rt, alloc, mesh, steps)?;
    let levels = feature_levels(alloc, base, controls, 2, steps)?;
    expect_counts(rt, &levels);
    expect_texture(rt, alloc, mesh, &levels, controls, steps)
}

fn expect_cube<L: Ledger>(
    rt: &impl Abort,
    alloc: Global,
    mesh: &RawMesh,
    blank: Blank,
) -> Result<(), Fail>
    requires name { blank.name ≡ L.name }
    requires parts { blank.parts ≡ L.parts }
    requires some { 0 < blank.parts }
{
    let controls = controls_of(alloc, mesh)?;
    let mut steps = Steps::start(blank.open::<L>());
    expect_levels(rt, alloc, mesh, &controls, &mut steps)
}

#[test]
fn selects_the_faces_of_the_cube_in_a_texture(rt: HostRuntime) -> Result<(), Fail> {
    let mesh = read_obj(rt.alloc(), CUBE.as_bytes(), 0)?;
    expect_cube::<Brand>(&rt, rt.alloc(), &mesh, Blank::new(1))
}
