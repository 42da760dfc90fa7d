//! Exact arithmetic of 128 bits that never overflows: quotients, divisors, bounded products, fractions in lowest terms, points
//! and the project's limits.
//!
//! Signed numbers are `i128`; amounts and denominators are `u128`. No call uses memory or returns an error: `None` of
//! `times_within` and `lcm_within` means that the answer passes the bound. Types that are refined implement `Primvar`.
#![tactic(auto)]

mod division;
mod divisor;
mod euclid;
pub mod limits;
mod memory;
mod multiple;
mod point;
mod primvar;
mod steps;
mod valued;

pub use division::quotient;
pub use divisor::{Frac, gcd, lowest};
pub use memory::Memory;
pub use multiple::{lcm_within, times_within};
pub use point::{Point2, Point3};
pub use primvar::Primvar;
pub use steps::Steps;
pub use valued::Valued;
