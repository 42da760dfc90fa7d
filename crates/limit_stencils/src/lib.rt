//! Composes the table of the limit points of a level of quads. A limit point is the point of the limit surface to which a point of the
//! level moves under further steps. The calls compose the limit mask of each point with the rows of the level's points.
//!
//! Source: Halstead, Kass and DeRose 1993 for smooth points; the knot averages of the uniform cubic B-spline for points of a crease. This
//! profile decides which points have no limit mask.
#![tactic(auto)]

mod bound;
mod cause;
mod fault;
mod lasting;
mod masks;
mod points;
mod quads;
mod semi;
mod smooth;
mod table;
mod weigh;

pub use bound::denominator_bound;
pub use fault::{LimitFault, QuadFault};
pub use points::limit_points_of_quads;
pub use table::{limit_table, limit_table_of_quads};
