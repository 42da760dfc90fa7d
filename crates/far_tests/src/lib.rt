//! Tests the program: its words, runs over slices, and streams that fail in the middle of a run.
#![tactic(auto)]

#[cfg(test)]
mod engine;
#[cfg(test)]
mod expect;
#[cfg(test)]
mod hostile;
#[cfg(test)]
mod in_memory;
#[cfg(test)]
mod inputs;
#[cfg(test)]
mod moves;
#[cfg(test)]
mod words;
