//! Answers requests about a mesh in a caller's arrays, exactly. The answers are its level at a depth, the points there, tables of rows,
//! its texture, its origins, its sparse levels, and all its faults. The arrays are a `MeshArrays` of `mesh_arrays`. An error is a
//! [`FaultRecord`]. Depths are at most 10.
//!
//! The crate also turns the faults of the library into flat records that C can hold, and back. A [`FaultRecord`] has the layout of a C
//! struct of four numbers. It covers the faults of a run, refused arrays and refused floats. No call about records takes memory.
#![tactic(auto)]

mod compose;
mod faults;
mod mesh_faults;
mod origins;
mod points;
mod record;
mod record_fault;
pub mod record_laws;
mod record_line;
mod record_table;
mod refused;
mod request;
mod rows;
mod sparse;
mod textures;

pub use compose::{RefinedArrays, refine_arrays};
pub use faults::faults_of_arrays;
pub use mesh_faults::put_mesh_faults;
pub use origins::origins_of_arrays;
pub use points::{RefinedPoints, refine_points};
pub use record::{BAD_ARGUMENT, BAD_ARRAYS, BAD_NUMBER, DONE, FaultRecord, TOO_SHORT};
pub use record_fault::fault_of_record;
pub use record_line::put_line;
pub use record_table::record_of;
pub use request::RowRequest;
pub use rows::rows_of_arrays;
pub use sparse::{SparseArrays, SparseRequest, sparse_of_arrays};
pub use textures::{TextureArrays, texture_of_arrays};
