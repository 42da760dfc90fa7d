//! Tests the crates that read and fill a caller's arrays: meshes and answers, numbers, points and rows, records of faults, and streams.
#![tactic(auto)]

#[cfg(test)]
mod answers;
#[cfg(test)]
mod cages;
#[cfg(test)]
mod fault_records;
#[cfg(test)]
mod mesh_faults;
#[cfg(test)]
mod meshes;
#[cfg(test)]
mod nearest;
#[cfg(test)]
mod origins;
#[cfg(test)]
mod points;
#[cfg(test)]
mod requests;
#[cfg(test)]
mod rows;
#[cfg(test)]
mod scales;
#[cfg(test)]
mod sparse;
#[cfg(test)]
mod stored;
#[cfg(test)]
mod streams;
#[cfg(test)]
mod words;
