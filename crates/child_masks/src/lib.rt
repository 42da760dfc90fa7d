//! Finds the mask of each point of a child of a level, and the common denominators of its values.
//!
//! A survey computes all denominators and reports the first fault of a mask or a denominator before any value is made. It
//! keeps the masks of vertices that are not plain. The masks are those of Catmull and Clark 1978 and of DeRose, Kass and
//! Truong 1998; the common denominators are this library's own.
#![tactic(auto)]

mod common;
mod dens;
mod face;
mod fault;
mod kept;
mod masks;
mod survey;
mod terms;
mod transition;

pub use common::common_multiple;
pub use fault::SurveyFault;
pub use kept::{KeptMask, KeptMasks};
pub use masks::{PointMask, TermMask};
pub use survey::{Survey, survey_over};
