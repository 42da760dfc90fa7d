//! The sparse levels of a mesh in arrays.

ghost use Rattle.std.specs.Prelude.{◌≡◌, ◌<◌, ◌≤◌, ℕ, Some, IfSome, MatchResult, option_map};
ghost use Rattle.far_model.specs.Command as model;
ghost use Rattle.far_words.specs.View.{select_of_code, sparse_of_code};
ghost use Rattle.array_answers.specs.Sparse.{AreSparseFound, AreSparseIn, AreSparseOf, IsSparseRefused, select_of_number, sparse_asked, sparse_options};
ghost use Rattle.array_answers.specs.Refused.{IsRefusedBy};
ghost use Rattle.mesh_answers.specs.SparseLevels.{sparse_position_faults};

use crate::record::FaultRecord;
use crate::record_table::record_of;
use crate::refused::{bad_request, record_of_arrays};
use far_words::{Select, SparseOptions, SparseUv};
use mesh_answers::sparse_points;
use mesh_arrays::{MeshArrays, mesh_of_arrays};
use ratio128::{Point3, Steps};
use raw_mesh::RawMesh;
use sparse_level::SparseValues;
use std::alloc::Global;
use std::marker::Brand;
use std::sync::ledger::{Blank, Ledger};

const DEPTH_LIMIT: u32 = 10;

/// A request for sparse levels of a mesh.
#[repr(C)]
#[derive(Clone, Copy, Debug, PartialEq, Eq)]
pub struct SparseRequest {
    /// The last level, counted from 0, at most 10.
    pub depth: u32,
    /// The faces to refine. 0: the features. 1: all but holes.
    pub select: u32,
}

/// The sparse levels of a mesh from level 0 on. The numerators of a point are over its own denominator times the common one. Its own
/// denominator is that of its row in the table of the whole level.
#[derive(Drop)]
pub struct SparseArrays {
    /// The common denominator of the mesh.
    pub common: u128,
    /// The levels with the points that each writes.
    pub levels: Vec<SparseValues<Point3>>,
}

// The faces to refine, by their number.
fn select_of(number: u32) -> Option<Select>
    ensures { option_map select_of_code result ≡ select_of_number number }
{
    match number {
        0 => Some(Select::Feature),
        1 => Some(Select::All),
        _ => None,
    }
}

// The options of the command `sparse`, without texture and decimals.
fn options_with(depth: u32, select: Select) -> SparseOptions
    ensures { sparse_of_code result ≡ sparse_options depth (select_of_code select) }
{
    SparseOptions {
        depth,
        select,
        decimals: None,
        uv: SparseUv::NoTexture,
    }
}

// The options of a request, if its numbers are in their ranges.
fn options_of(request: &SparseRequest) -> Option<SparseOptions>
    ensures options { option_map sparse_of_code result ≡ sparse_asked request.now }
    ensures depth { IfSome result (λ options. options.depth ≤ 10) }
{
    if request.depth > DEPTH_LIMIT {
        return None;
    }
    match select_of(request.select) {
        Some(select) => Some(options_with(request.depth, select)),
        None => None,
    }
}

// The sparse levels of a mesh.
fn sparse_of_mesh<L: Ledger>(
    alloc: Global,
    mesh: &RawMesh,
    options: &SparseOptions,
    steps: &mut Steps<L>,
) -> Result<SparseArrays, FaultRecord>
    requires { options.now.depth ≤ 10 }
    ensures { MatchResult result
        (AreSparseOf (sparse_of_code options.now) mesh.now)
        (IsRefusedBy (sparse_position_faults (sparse_of_code options.now) mesh.now) mesh.now) }
{
    match sparse_points(alloc, mesh, options, steps) {
        Ok(levels) => Ok(SparseArrays {
            common: mesh.scale(),
            levels,
        }),
        Err(fault) => Err(record_of(&fault)),
    }
}

// The sparse levels of a mesh in arrays, with a new counter of steps.
fn sparse_counted<L: Ledger>(
    alloc: Global,
    blank: Blank,
    arrays: &MeshArrays,
    options: &SparseOptions,
) -> Result<SparseArrays, FaultRecord>
    requires name { blank.name ≡ L.name }
    requires parts { blank.parts ≡ L.parts }
    requires some { 0 < blank.parts }
    requires depth { options.now.depth ≤ 10 }
    ensures { MatchResult result
        (AreSparseIn (sparse_of_code options.now) arrays.now)
        (IsSparseRefused (Some (sparse_of_code options.now)) arrays.now) }
{
    match mesh_of_arrays(alloc, arrays) {
        Ok(mesh) => {
            let mut steps = Steps::start(blank.open::<L>());
            sparse_of_mesh(alloc, &mesh, options, &mut steps)
        }
        Err(fault) => Err(record_of_arrays(&fault)),
    }
}

/// Returns the sparse levels of a mesh in arrays from level 0 to a depth, with the points that each level writes.
///
/// The record is that of the first fault; `Memory` may come at any time:
///
/// - `BAD_ARGUMENT` for a number of the request out of its range;
/// - a fault of the arrays;
/// - a fault of the command `sparse` without texture, in its order.
pub fn sparse_of_arrays(
    alloc: Global,
    arrays: &MeshArrays,
    request: &SparseRequest,
) -> Result<SparseArrays, FaultRecord>
    ensures { AreSparseFound request.now arrays.now result }
{
    match options_of(request) {
        Some(options) => sparse_counted::<Brand>(alloc, Blank::new(1), arrays, &options),
        None => Err(bad_request()),
    }
}
