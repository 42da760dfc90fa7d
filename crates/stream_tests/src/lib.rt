//! Tests what is read and written: streams, readers of lines, texts, and the lines of faults.
#![tactic(auto)]

#[cfg(test)]
mod expect;
#[cfg(test)]
mod failing;
#[cfg(test)]
mod faults;
#[cfg(test)]
mod io;
#[cfg(test)]
mod readers;
#[cfg(test)]
mod texts;
