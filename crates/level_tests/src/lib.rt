//! Tests levels and one step of refinement, on small meshes from tables.
//!
//! Levels are built, shown, joined to their parents, and walked in part. A step has masks, a next level, its values and limit
//! points.
#![tactic(auto)]

#[cfg(test)]
mod builder;
#[cfg(test)]
mod built_levels;
#[cfg(test)]
mod expect;
#[cfg(test)]
mod levels;
#[cfg(test)]
mod mask_tables;
#[cfg(test)]
mod meshes;
#[cfg(test)]
mod near;
#[cfg(test)]
mod parts_walked;
#[cfg(test)]
mod shown;
#[cfg(test)]
mod solids;
#[cfg(test)]
mod steps;
#[cfg(test)]
mod vertex_rows;
