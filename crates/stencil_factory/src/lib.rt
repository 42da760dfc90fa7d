//! Composes stencil tables: of a refinement step, of masks that the caller supplies, or of the control points themselves.
//!
//! A new table has the control points of the given table. A row gives its common denominator, then the control points it depends
//! on, ascending, each with its numerator above 0. A table has at most 2^27 entries. Points and rows are counted from 0.
//! [`evaluate_masks`] gives the values of the rows of masks without their table.
//!
//! Source: stencil tables of OpenSubdiv's Far layer, with exact weights.
#![tactic(auto)]

mod child_rows;
mod compose;
mod controls;
mod count;
mod denominators;
mod evaluate;
mod fault;
mod flat;
mod mask_table;
mod name;
mod narrow;
mod place_set;
mod point_masks;
mod point_rows;
mod row_fault;
mod rows;
mod step;
mod weigh;
mod weighted_rows;
mod weights;

pub use controls::identity;
pub use evaluate::evaluate_masks;
pub use fault::TableFault;
pub use mask_table::compose_masks;
pub use point_masks::{PointMasks, PointWeights};
pub use row_fault::RowFault;
pub use step::compose_level;
