use std::fmt;

/// The result would need a denominator above 2^60.
#[derive(Clone, Copy, Debug, PartialEq, Eq)]
pub struct SharpOverflow;

impl fmt::Display for SharpOverflow {
    ghost use Rattle.std.specs.Prelude.{Some, codes};

    ghost output = { λ _. Some (codes "a denominator passes 2^60") };

    fn fmt<W: fmt::Write>(&self, f: &mut fmt::Formatter<W>) -> fmt::Result {
        write!(f, "a denominator passes 2^60")
    }
}

impl std::error::Error for SharpOverflow {}
