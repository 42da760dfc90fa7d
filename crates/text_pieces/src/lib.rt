//! Short texts made of words and decimal numbers, without memory: the messages of all faults are made of them.
//!
//! A fault gives its words as `Pieces`. `Display` writes them, or a program copies them piece by piece into its own buffer.
#![tactic(auto)]

mod piece;
mod pieces;

pub use piece::Piece;
pub use pieces::Pieces;
