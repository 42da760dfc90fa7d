//! Faces with numbered edges.

ghost use Rattle.std.specs.Prelude.{◌≡◌};
ghost use Rattle.point_fans.specs.Parts.{AreLevelParts, built_in};

use crate::parts::FaceParts;
use std::alloc::Global;
use std::marker::Model;

/// The faces of a level with their numbered edges, before the lists at its points are made.
#[derive(Drop)]
pub struct NumberedFaces {
    pub(crate) alloc: Global,
    pub(crate) parts: FaceParts,
}

impl Model for NumberedFaces {
    ghost use Rattle.point_fans.specs.Built.{Built};
    ghost use Rattle.point_fans.specs.Parts.{AreLevelParts, built_in};

    ghost Value = { Built };

    ghost view = { λ n. built_in n.parts };

    ghost invariant = { λ n. AreLevelParts n.parts };
}

impl NumberedFaces {
    /// Returns the faces of these parts, which must be those of one level. The call makes no copy and takes no memory. `finish` takes its
    /// memory from `alloc`.
    pub fn of(alloc: Global, parts: FaceParts) -> NumberedFaces
        requires { AreLevelParts parts }
        ensures { result ≡ built_in parts }
    {
        NumberedFaces { alloc, parts }
    }
}
