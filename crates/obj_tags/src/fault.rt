ghost use Rattle.std.specs.Prelude.{◌≡◌, Some};
ghost use Rattle.subdiv_model.specs.Fault.{cause_text, obj_fault_text, fault_text};
ghost use Rattle.obj_tags.specs.View.{cause_of, fault_of, read_fault_of};

use ratio128::Memory;
use std::alloc::{AllocError, AllocFailed};
use std::fmt;
use text_pieces::Pieces;

/// The fault of a line.
#[derive(Clone, Copy, Debug, PartialEq, Eq)]
pub enum ObjCause {
    /// A word that should be a numeral, a decimal or a fraction, is not one.
    BadNumeral,
    /// A number is out of range. A decimal has more than 37 digits in its mantissa or its decimals, in normal form, or a fraction has more
    /// in a part. If every line is good by itself, the common denominator of a channel exceeds 10^37 at this line. Or a number of this line
    /// has more than 37 digits over it.
    NumberRange,
    /// The first word of the line is not a keyword.
    UnknownKeyword,
    /// The last word of the line ends with a backslash.
    Continuation,
    /// The line has too few words for its keyword.
    ShortLine,
    /// A face corner has an unknown form, or a form other than that of the first corner of its line.
    BadCorner,
    /// A face corner names no `v` line or no `vt` line.
    IndexRange,
    /// A tag has an unknown name, counts that do not fit, or a word that does not fit.
    BadTag,
    /// A tag names no point or no face.
    TagIndex,
    /// A sharpness is below 0. Or it is below 10 and too fine: it has more than six decimals, or a fraction has a denominator above 10^6 in
    /// lowest terms.
    SharpnessRange,
    /// A move names no control point. `read_obj` never returns this; it is for lines of moves.
    MoveIndex,
    /// The denominator of a moved coordinate, in lowest terms, does not divide the common denominator. `read_obj` never returns this.
    TooFine,
    /// A line of moves is too long. `read_obj` never returns this.
    LongLine,
}

impl ObjCause {
    /// The cause in words, as in the message that `far` prints.
    pub fn text(&self) -> &'static str
        ensures { result.now ≡ cause_text (cause_of self.now) }
    {
        match self {
            ObjCause::BadNumeral => "bad numeral",
            ObjCause::NumberRange => "number out of range",
            ObjCause::UnknownKeyword => "unknown keyword",
            ObjCause::Continuation => "line continuation",
            ObjCause::ShortLine => "line too short",
            ObjCause::BadCorner => "bad face corner",
            ObjCause::IndexRange => "index out of range",
            ObjCause::BadTag => "bad tag",
            ObjCause::TagIndex => "tag index out of range",
            ObjCause::SharpnessRange => "sharpness out of range",
            ObjCause::MoveIndex => "move index out of range",
            ObjCause::TooFine => "move finer than the scale",
            ObjCause::LongLine => "line too long",
        }
    }
}

impl fmt::Display for ObjCause {
    ghost output = { λ cause. Some (cause_text (cause_of cause)) };

    fn fmt<W: fmt::Write>(&self, f: &mut fmt::Formatter<W>) -> fmt::Result {
        f.write_str(self.text())
    }
}

impl std::error::Error for ObjCause {}

/// A faulty line, counted from 1, and the cause.
#[derive(Clone, Copy, Debug, PartialEq, Eq)]
pub struct ObjFault {
    pub line: u32,
    pub cause: ObjCause,
}

impl ObjFault {
    /// The fault in words: the line and its cause.
    pub fn pieces(&self) -> Pieces
        ensures { result ≡ obj_fault_text (fault_of self.now) }
    {
        Pieces::about_with("line ", u64::from(self.line), ": ", self.cause.text())
    }
}

impl fmt::Display for ObjFault {
    ghost output = { λ fault. Some (obj_fault_text (fault_of fault)) };

    fn fmt<W: fmt::Write>(&self, f: &mut fmt::Formatter<W>) -> fmt::Result {
        write!(f, "{}", self.pieces())
    }
}

impl std::error::Error for ObjFault {}

/// The fault that stopped the reading of a text.
#[derive(Clone, Copy, Debug, PartialEq, Eq)]
pub enum ReadFault {
    /// The first faulty line.
    Obj(ObjFault),
    /// Memory ran out.
    Memory,
}

impl ReadFault {
    /// The fault in words.
    pub fn pieces(&self) -> Pieces
        ensures { result ≡ fault_text (read_fault_of self.now) }
    {
        match self {
            ReadFault::Obj(fault) => fault.pieces(),
            ReadFault::Memory => Pieces::plain(Memory.text()),
        }
    }
}

impl fmt::Display for ReadFault {
    ghost output = { λ fault. Some (fault_text (read_fault_of fault)) };

    fn fmt<W: fmt::Write>(&self, f: &mut fmt::Formatter<W>) -> fmt::Result {
        write!(f, "{}", self.pieces())
    }
}

impl std::error::Error for ReadFault {}

impl From<AllocError> for ReadFault {
    ghost use Rattle.obj_tags.specs.declared.fault.ReadFault.TheVariants.{Memory};

    ghost from_gives = { λ _ e. e ≡ Memory };

    fn from(_: AllocError) -> ReadFault {
        ReadFault::Memory
    }
}

/// The fault of a line.
#[derive(Clone, Copy)]
pub(crate) enum LineFault {
    Cause(ObjCause),
    Memory,
}

impl From<AllocError> for LineFault {
    ghost use Rattle.obj_tags.specs.declared.fault.LineFault.TheVariants.{Memory};

    ghost from_gives = { λ _ e. e ≡ Memory };

    fn from(_: AllocError) -> LineFault {
        LineFault::Memory
    }
}

impl<T: Drop> From<AllocFailed<T>> for LineFault {
    ghost use Rattle.obj_tags.specs.declared.fault.LineFault.TheVariants.{Memory};

    ghost from_gives = { λ _ e. e ≡ Memory };

    fn from(_: AllocFailed<T>) -> LineFault {
        LineFault::Memory
    }
}

impl From<ObjCause> for LineFault {
    ghost use Rattle.obj_tags.specs.declared.fault.LineFault.TheVariants.{Cause};

    ghost from_gives = { λ cause e. e ≡ Cause cause };

    fn from(cause: ObjCause) -> LineFault {
        LineFault::Cause(cause)
    }
}
