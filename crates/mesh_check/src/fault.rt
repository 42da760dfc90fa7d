//! The faults of a mesh, and the faults of a check.

ghost use Rattle.std.specs.Prelude.{◌≡◌, Some};
ghost use Rattle.subdiv_model.specs.Fault.{mesh_fault_text, fault_text};
ghost use Rattle.mesh_check.specs.View.{mesh_fault_of, check_fault_of};

use level_topology::Counted;
use ratio128::Memory;
use std::fmt;
use text_pieces::Pieces;

/// A fault of a mesh. A check reports the first kind of this list that the mesh has. Faces and vertices are counted from 0.
#[derive(Clone, Copy, Debug, PartialEq, Eq)]
pub enum MeshFault {
    /// This face has fewer than three corners.
    FaceTooSmall(u32),
    /// This face has a vertex twice.
    RepeatedVertex(u32),
    /// Three or more sides of faces are this edge. Its ends have the order in which a face first names them.
    NonManifoldEdge(u32, u32),
    /// Two sides of faces are this edge in one direction. Its ends have the order in which a face first names them.
    WindingClash(u32, u32),
    /// The faces at this vertex are more than one fan.
    SplitVertex(u32),
}

impl MeshFault {
    /// Returns the text of the fault.
    pub fn pieces(&self) -> Pieces
        ensures { result ≡ mesh_fault_text (mesh_fault_of self.now) }
    {
        match *self {
            MeshFault::FaceTooSmall(face) => {
                Pieces::about("face ", u64::from(face), " has fewer than three corners")
            }
            MeshFault::RepeatedVertex(face) => {
                Pieces::about("face ", u64::from(face), " repeats a vertex")
            }
            MeshFault::NonManifoldEdge(a, b) => Pieces::about_two(
                "edge ",
                u64::from(a),
                " ",
                u64::from(b),
                " has more than two faces",
            ),
            MeshFault::WindingClash(a, b) => Pieces::about_two(
                "edge ",
                u64::from(a),
                " ",
                u64::from(b),
                " is used twice in one direction",
            ),
            MeshFault::SplitVertex(v) => {
                Pieces::about("vertex ", u64::from(v), " joins more than one fan")
            }
        }
    }
}

impl fmt::Display for MeshFault {
    ghost output = { λ fault. Some (mesh_fault_text (mesh_fault_of fault)) };

    fn fmt<W: fmt::Write>(&self, f: &mut fmt::Formatter<W>) -> fmt::Result {
        write!(f, "{}", self.pieces())
    }
}

impl std::error::Error for MeshFault {}

/// The fault of a check that returns no level.
#[derive(Clone, Copy, Debug, PartialEq, Eq)]
pub enum CheckFault {
    /// The mesh is not a manifold.
    Mesh(MeshFault),
    /// The mesh is a manifold, but one of its counts exceeds its limit.
    TooLarge(Counted),
    /// Memory ran out.
    Memory,
}

impl CheckFault {
    /// Returns the text of the fault.
    pub fn pieces(&self) -> Pieces
        ensures { result ≡ fault_text (check_fault_of self.now) }
    {
        match self {
            CheckFault::Mesh(fault) => fault.pieces(),
            CheckFault::TooLarge(counted) => counted.pieces(),
            CheckFault::Memory => Pieces::plain(Memory.text()),
        }
    }
}

impl fmt::Display for CheckFault {
    ghost output = { λ fault. Some (fault_text (check_fault_of fault)) };

    fn fmt<W: fmt::Write>(&self, f: &mut fmt::Formatter<W>) -> fmt::Result {
        write!(f, "{}", self.pieces())
    }
}

impl std::error::Error for CheckFault {}

impl From<Memory> for CheckFault {
    ghost use Rattle.mesh_check.specs.declared.fault.CheckFault.TheVariants as fault;

    ghost from_gives = { λ _ e. e ≡ fault.Memory };

    fn from(_: Memory) -> CheckFault {
        CheckFault::Memory
    }
}
