//! Tests channels: refined to a depth, in sparse levels with their maps, and with textures.
//!
//! A rule of selection is tested too.
#![tactic(auto)]

#[cfg(test)]
mod base;
#[cfg(test)]
mod channels;
#[cfg(test)]
mod cuts;
#[cfg(test)]
mod expect;
#[cfg(test)]
mod inputs;
#[cfg(test)]
mod select_rules;
#[cfg(test)]
mod sparse;
#[cfg(test)]
mod sparse_texture;
