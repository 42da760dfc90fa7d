//! Computes the values of a level's points from those of the level before it.
//!
//! A value is some numerators over one denominator, such as a position or a texture point. The masks are those of Catmull and
//! Clark 1978 and of DeRose, Kass and Truong 1998; the common denominators are this library's own. The numerators are not
//! reduced.
#![tactic(auto)]

mod bound;
mod dens;
mod face_puts;
mod fault;
mod mask_values;
mod places;
mod point_puts;
mod puts;
mod refine;
mod sums;
mod survey;
mod values;

pub use fault::ValueFault;
pub use ratio128::Valued;
pub use refine::refine_values;
