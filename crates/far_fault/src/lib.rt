//! The faults of a run, with their exit status, their words and their line on standard error. It turns the fault of a walk over levels
//! into one of a run. Other crates have the words of parts: `mesh_check` of mesh faults, `level_topology` of counts, `obj_tags` of lines
//! of OBJ files, `table_file` of stored tables. No call takes memory.
#![tactic(auto)]

mod fault;
mod line;
mod walk;

pub use fault::{FarFault, LimitCause, PlaceFault, Track, status};
pub use level_walk::OverflowKind;
pub use line::report;
pub use table_file::TableCause;
pub use walk::fault_of_walk;
