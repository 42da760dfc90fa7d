//! Tests the calls that read, and tables of stencils. The calls read numbers, sharpness, words, lines, meshes and stored tables. The tables
//! are put together, evaluated, and moved in sessions with their marks.
#![tactic(auto)]

#[cfg(test)]
mod expect;
#[cfg(test)]
mod floats;
#[cfg(test)]
mod frame_lines;
#[cfg(test)]
mod lines;
#[cfg(test)]
mod marks;
#[cfg(test)]
mod meshes;
#[cfg(test)]
mod number_lists;
#[cfg(test)]
mod numbers;
#[cfg(test)]
mod numerals;
#[cfg(test)]
mod parts;
#[cfg(test)]
mod sessions;
#[cfg(test)]
mod sharpness;
#[cfg(test)]
mod stored;
#[cfg(test)]
mod tables;
#[cfg(test)]
mod widths;
