//! The definitions that all contracts use: meshes, levels, masks, refined values, stencil tables, and the texts that are read and
//! written.
//!
//! They are functions over plain lists and whole numbers without bound. The public functions have empty bodies: their clauses are
//! worked examples, proved by computing both sides. Crates such as `mask_laws` prove laws of these definitions.
#![tactic(auto)]

pub mod levels;
pub mod limits;
pub mod masks;
pub mod meshes;
pub mod numerals;
pub mod obj;
pub mod patches;
pub mod sparse;
pub mod tables;
pub mod texts;
pub mod texture;
pub mod values;
