//! The sharpness of edges and vertices, its decay from level to level, the rule of a vertex, and the weight between two levels.
//!
//! A sharpness is smooth, infinite (from 10 on), or a fraction in lowest terms over at most 2^60. The ring of a vertex lists the sharpness
//! of its edges, counted from 0. No call takes memory, and each takes time linear in the ring.
//!
//! Source: DeRose, Kass and Truong 1998. The method `Chaikin` and the weight are this profile's.
#![tactic(auto)]

mod child;
mod halves;
mod overflow;
mod rule;
mod shares;
mod sharpness;
mod sums;
mod total;
mod weight;

pub use child::{Method, chaikin_child, uniform_child};
pub use halves::Halves;
pub use overflow::SharpOverflow;
pub use rule::{Rule, vertex_rule};
pub use sharpness::{Semi, Sharpness};
pub use weight::{Weight, transition_weight};
