//! Rules that select the faces to refine: the closure of a caller, together with the meaning of its results.
//!
//! `Feature` selects the features of a mesh, `Every` selects all faces but holes, and a caller may add a type of its own. No call takes
//! memory or fails. No clause limits how often a closure is called.
//!
//! Source: the Far layer of OpenSubdiv for features; which corners are regular is this profile's.
#![tactic(auto)]

mod face_test;
mod rule;

pub use face_test::{Every, FaceTest, Feature, is_feature, is_selectable};
pub use rule::SelectRule;
