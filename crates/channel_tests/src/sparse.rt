// Sparse levels of the cube: their counts, the map of their leaves, and a single step.

ghost use Rattle.std.specs.Prelude.{◌≡◌, ◌<◌, IfOk};
ghost use Rattle.std.specs.List.Sorted.{IsStrictlyIncreasing};

use crate::base::level_of;
use crate::expect::expect_same;
use crate::inputs::CUBE;
use feature_select::{Feature, SelectRule, is_feature};
use level_topology::FaceFacts;
use obj_tags::read_obj;
use patch_map::{Leaf, PatchMap};
use ratio128::{Memory, Steps};
use raw_mesh::RawMesh;
use sparse_face_varying::{refine_like, selected_numbers};
use sparse_level::{SparseFaces, SparseLevel, SparseStep};
use sparse_refiner::refine_selected;
use sparse_walk::{map_sparse, sparse_levels};
use std::alloc::Global;
use std::marker::Brand;
use std::process::Abort;
use std::sync::ledger::{Blank, Ledger};
use std::test::Fail;

// The levels of a mesh around its features, to depth 3.
fn levels_of<L: Ledger>(
    rt: &impl Abort,
    alloc: Global,
    mesh: &RawMesh,
    steps: &mut Steps<L>,
) -> Result<Vec<SparseFaces>, Fail> {
    let level = level_of(rt, alloc, mesh, steps)?;
    let rule = SelectRule::<Feature, _>::new(|facts: &FaceFacts| is_feature(facts));
    Ok(sparse_levels(alloc, level, &rule, 3, steps)?)
}

// The numbers of points and faces that each level of the cube writes.
const COUNTS: &[(u32, u32)] = &[(8, 6), (26, 24), (98, 96), (296, 216)];

pub fn counts() -> &'static [(u32, u32)] {
    COUNTS
}

// The level has these counts.
pub fn expect_count(rt: &impl Abort, level: &SparseFaces, count: &(u32, u32)) {
    expect_same(rt, &(level.points(), level.len()), count, count);
}

fn expect_counts(rt: &impl Abort, levels: &[SparseFaces]) {
    expect_same(rt, &levels.len(), &4, &"levels");
    for (level, count) in levels.iter().zip(counts()) {
        expect_count(rt, level, count);
    }
}

// The map of the levels of a mesh around its features, to depth 1.
fn map_of<L: Ledger>(
    rt: &impl Abort,
    alloc: Global,
    mesh: &RawMesh,
    steps: &mut Steps<L>,
) -> Result<PatchMap, Fail> {
    let level = level_of(rt, alloc, mesh, steps)?;
    let rule = SelectRule::<Feature, _>::new(|facts: &FaceFacts| is_feature(facts));
    Ok(map_sparse(alloc, level, &rule, 1, steps)?)
}

// A pair over the size of a grid, on face 0.
type Pair = (u64, u64, u64);

// The leaf of a pair on face 0, which is a quad.
fn leaf_at(rt: &impl Abort, map: &PatchMap, pair: Pair) -> Leaf {
    let (i, j, grid) = pair;
    assert!(rt; 0 < map.faces());
    assert!(rt; map.size(0) == 4);
    assert!(rt; grid <= 1 << 16);
    assert!(rt; i <= grid);
    assert!(rt; j <= grid);
    map.find(0, 0, i, j, grid)
}

// The leaf with a number at level 1, and a pair there.
macro_rules! leaf {
    ($number:literal, $s:literal, $t:literal) => {
        Leaf { level: 1, number: $number, corner: 0, s: $s, t: $t }
    };
}

// The leaf of each pair after the cube is refined once.
const LEAVES: &[(Pair, Leaf)] = &[
    ((1, 1, 2), leaf!(0, 2, 2)),
    ((2, 0, 2), leaf!(1, 0, 0)),
    ((2, 2, 2), leaf!(2, 0, 0)),
    ((1, 2, 2), leaf!(2, 2, 0)),
    ((0, 2, 2), leaf!(3, 0, 0)),
];

fn leaves() -> &'static [(Pair, Leaf)] {
    LEAVES
}

fn expect_leaves(rt: &impl Abort, map: &PatchMap) {
    for (pair, leaf) in leaves() {
        expect_same(rt, &leaf_at(rt, map, *pair), leaf, pair);
    }
}

// The map grown by a step has the leaves of the cube.
fn expect_grown(
    rt: &impl Abort,
    map: &mut PatchMap,
    base: &SparseLevel,
    step: &SparseStep,
) -> Result<(), Memory> {
    map.grow(base, step)?;
    expect_leaves(rt, map);
    Ok(())
}

// The map of level 0 has the leaves of the cube after it grows by a step.
fn expect_map(
    rt: &impl Abort,
    alloc: Global,
    base: &SparseLevel,
    step: &SparseStep,
) -> Result<(), Memory>
    requires { base.now.depth ≡ 0 }
{
    let mut map = PatchMap::start(alloc, base)?;
    expect_grown(rt, &mut map, base, step)
}

// A step around the features gives the map of level 0 the leaves of the cube.
fn expect_growth<L: Ledger>(
    rt: &impl Abort,
    alloc: Global,
    base: &SparseLevel,
    steps: &mut Steps<L>,
) -> Result<(), Fail>
    requires { base.now.depth ≡ 0 }
{
    let rule = SelectRule::<Feature, _>::new(|facts: &FaceFacts| is_feature(facts));
    let step = refine_selected(alloc, base, &rule, steps)?;
    Ok(expect_map(rt, alloc, base, &step)?)
}

// Two faces of the cube that share an edge.
const CHOSEN: &[u64] = &[0, 4];

fn chosen() -> &'static [u64]
    ensures { IsStrictlyIncreasing result.now }
{
    CHOSEN
}

// A step that selects the two faces has 18 faces, and names these two.
fn expect_chosen(
    rt: &impl Abort,
    alloc: Global,
    base: &SparseLevel,
    step: &SparseStep,
) -> Result<(), Memory> {
    assert!(rt; step.selected().len() == base.level().faces() as usize);
    expect_same(rt, &step.child().level().faces(), &18, &"faces");
    let numbers = selected_numbers(alloc, base, step)?;
    expect_same(rt, &numbers.as_slice(), &chosen(), &"numbers");
    Ok(())
}

// A sparse level 0 of a mesh.
fn base_of<L: Ledger>(
    rt: &impl Abort,
    alloc: Global,
    mesh: &RawMesh,
    steps: &mut Steps<L>,
) -> Result<SparseLevel, Fail>
    ensures { IfOk result (λ base. base.depth ≡ 0) }
{
    let level = level_of(rt, alloc, mesh, steps)?;
    Ok(SparseLevel::base(alloc, level)?)
}

fn expect_steps<L: Ledger>(
    rt: &impl Abort,
    alloc: Global,
    base: &SparseLevel,
    steps: &mut Steps<L>,
) -> Result<(), Fail>
    requires { base.now.depth ≡ 0 }
{
    expect_growth(rt, alloc, base, steps)?;
    let step = refine_like(alloc, base, chosen(), steps)?;
    Ok(expect_chosen(rt, alloc, base, &step)?)
}

fn expect_cube<L: Ledger>(
    rt: &impl Abort,
    alloc: Global,
    mesh: &RawMesh,
    blank: Blank,
) -> Result<(), Fail>
    requires name { blank.name ≡ L.name }
    requires parts { blank.parts ≡ L.parts }
    requires some { 0 < blank.parts }
{
    let mut steps = Steps::start(blank.open::<L>());
    expect_counts(rt, &levels_of(rt, alloc, mesh, &mut steps)?);
    expect_leaves(rt, &map_of(rt, alloc, mesh, &mut steps)?);
    let base = base_of(rt, alloc, mesh, &mut steps)?;
    expect_steps(rt, alloc, &base, &mut steps)
}

#[test]
fn refines_the_cube_in_sparse_levels(rt: HostRuntime) -> Result<(), Fail> {
    let mesh = read_obj(rt.alloc(), CUBE.as_bytes(), 0)?;
    expect_cube::<Brand>(&rt, rt.alloc(), &mesh, Blank::new(1))
}
