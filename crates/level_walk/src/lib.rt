//! Walks over the levels of a subdivision with one loop for every kind of level.
//!
//! A step (`NextLevel`) makes each level from the one before. A `Carrier` brings data along, such as values or a table. A
//! `Visitor` takes each level that is left behind. The walk keeps two levels at a time.
//!
//! `Uniform` is the step to the whole next level, and `with_cause` serves other steps. The specifications connect the faults of
//! its walk with the first fault of a channel in the definitions.
//!
//! `count_levels` walks to count the parts of each level: points, edges, faces, holes, boundary edges, sharp edges and
//! extraordinary points. `find_origins` walks to find the origin of each point and face of a later level. An origin is the
//! part of the mesh on which it lies: a point, the inside of an edge, or the inside of a face of level 0.
#![tactic(auto)]

mod along;
mod base_origins;
mod carried_origins;
mod carrier;
mod counted_levels;
mod counts;
mod edges;
mod faces;
mod fault;
mod level_origins;
mod origin;
pub mod origin_laws;
mod origin_places;
mod points;
mod reached;
mod round;
mod step;
mod uniform_step;
mod visitor;

pub use along::walk;
pub use carrier::{Carrier, Nothing};
pub use counted_levels::count_levels;
pub use counts::LevelCounts;
pub use fault::{Cause, OverflowKind, WalkFault};
pub use level_origins::find_origins;
pub use origin::{Origin, Origins};
pub use origin_places::{OriginCounts, OriginPlaces, origin_counts_of, put_origins};
pub use reached::Reached;
pub use step::NextLevel;
pub use uniform_step::{Uniform, with_cause};
pub use visitor::{Dropped, Visitor};
