//! Gives each edge of the next level a slot, so that a table finds its number without a map.
//!
//! The slots come from the parts of the level. The crate numbers the edges of a part of the next level as the part's faces
//! name them first. It also writes the sharpness of each half at its slot. The split of a face is that of Catmull and Clark
//! 1978; the halves of sharp edges follow DeRose, Kass and Truong 1998.
#![tactic(auto)]

mod corners;
mod fault;
mod halves;
mod numbering;
mod points;
mod row;
mod walk;

pub use corners::{
    child_corners, edge_point_of, first_child_of, half_slot_of, inner_slot_of, side_slots,
};
pub use fault::HalfFault;
pub use halves::{half_table, put_all_halves};
pub use numbering::SlotEdges;
pub use points::{AllPoints, ChildPoints};
pub use row::{put_corner, put_ends};
pub use walk::{no_edges, number_edges};
