ghost use Rattle.std.specs.Prelude.{Some, ◌≡◌};
ghost use Rattle.raw_mesh.specs.FaultText.{bad_part_text, parts_fault_text};

use ratio128::Memory;
use std::alloc::{AllocError, AllocFailed};
use std::fmt;

/// The fault of a part of a mesh. The parts are tested in the order of these variants, each over its whole array. Places are counted from
/// 0.
#[derive(Clone, Copy, Debug, PartialEq, Eq)]
pub enum BadPart {
    /// The common denominator of the points is not from 1 to 10^37.
    PointScale,
    /// The common denominator of the texture values is not from 1 to 10^37.
    TextureScale,
    /// The point at this place has a numerator of 10^37 or more in amount.
    Point(usize),
    /// The texture value at this place has a numerator of 10^37 or more in amount.
    TextureValue(usize),
    /// There are more than 2^28 faces.
    FaceCount,
    /// There are 2^27 corners or more.
    CornerCount,
    /// The sizes of the faces do not add up to the number of corners.
    FaceSizes,
    /// There are texture corners, but not one for each corner.
    TextureCornerCount,
    /// The corner at this place names no point.
    Corner(usize),
    /// The texture corner at this place names no texture value.
    TextureCorner(usize),
    /// An end of the crease at this place names no point.
    Crease(usize),
    /// The corner tag at this place names no point.
    CornerTag(usize),
    /// The hole at this place names no face.
    Hole(usize),
}

impl fmt::Display for BadPart {
    ghost output = { λ fault. Some (bad_part_text fault) };

    fn fmt<W: fmt::Write>(&self, f: &mut fmt::Formatter<W>) -> fmt::Result {
        match *self {
            BadPart::PointScale => f.write_str("the scale of the points is not from 1 to 10^37"),
            BadPart::TextureScale => {
                f.write_str("the scale of the texture values is not from 1 to 10^37")
            }
            BadPart::Point(place) => write!(f, "point {place} has more than 37 digits"),
            BadPart::TextureValue(place) => write!(
                f,
                "texture value {place} has more than 37 digits"
            ),
            BadPart::FaceCount => f.write_str("more than 2^28 faces"),
            BadPart::CornerCount => f.write_str("2^27 corners or more"),
            BadPart::FaceSizes => f.write_str(
                "the face sizes do not add up to the number of corners",
            ),
            BadPart::TextureCornerCount => { f.write_str("not as many texture corners as corners") }
            BadPart::Corner(place) => write!(f, "corner {place} names no point"),
            BadPart::TextureCorner(place) => {
                write!(f, "texture corner {place} names no texture value")
            }
            BadPart::Crease(place) => write!(f, "crease {place} names no point"),
            BadPart::CornerTag(place) => write!(f, "corner tag {place} names no point"),
            BadPart::Hole(place) => write!(f, "hole {place} names no face"),
        }
    }
}

impl std::error::Error for BadPart {}

/// The fault that kept parts from becoming a mesh.
#[derive(Clone, Copy, Debug, PartialEq, Eq)]
pub enum PartsFault {
    /// The first part at fault.
    Bad(BadPart),
    /// Memory ran out.
    Memory,
}

impl fmt::Display for PartsFault {
    ghost output = { λ fault. Some (parts_fault_text fault) };

    fn fmt<W: fmt::Write>(&self, f: &mut fmt::Formatter<W>) -> fmt::Result {
        match self {
            PartsFault::Bad(bad) => write!(f, "{bad}"),
            PartsFault::Memory => f.write_str(Memory.text()),
        }
    }
}

impl std::error::Error for PartsFault {}

impl From<AllocError> for PartsFault {
    ghost use Rattle.raw_mesh.specs.declared.fault.PartsFault.TheVariants.{Memory};

    ghost from_gives = { λ _ e. e ≡ Memory };

    fn from(_: AllocError) -> PartsFault {
        PartsFault::Memory
    }
}

impl<T: Drop> From<AllocFailed<T>> for PartsFault {
    ghost use Rattle.raw_mesh.specs.declared.fault.PartsFault.TheVariants.{Memory};

    ghost from_gives = { λ _ e. e ≡ Memory };

    fn from(_: AllocFailed<T>) -> PartsFault {
        PartsFault::Memory
    }
}
