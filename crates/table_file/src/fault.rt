//! The fault that keeps a text from being a stored table.

ghost use Rattle.std.specs.Prelude.{◌≡◌, ◌++◌, codes, Some};
ghost use Rattle.subdiv_model.specs.Fault.{fault_text, table_cause_text, table_fault_text};
ghost use Rattle.table_file.specs.View.{cause_of, fault_of, read_fault_of};

use ratio128::Memory;
use std::fmt;
use text_pieces::Pieces;

/// The fault of a line of a stored table: the first of these that applies.
#[derive(Clone, Copy, Debug, PartialEq, Eq)]
pub enum TableCause {
    /// The line is missing, does not end with LF, or does not have the words of such a line. A number with a zero before
    /// other digits is not such a word.
    Form,
    /// A number exceeds its limit, a denominator or a numerator is 0, or the control points of a row do not ascend. A control
    /// point that the table does not have also exceeds its limit.
    Range,
    /// The numerators of a row do not sum to its denominator.
    Sum,
    /// There are more entries up to this line than the first line states, or fewer after the last line.
    Count,
}

/// The first bad line of a stored table, counted from 1, and its fault.
#[derive(Clone, Copy, Debug, PartialEq, Eq)]
pub struct TableFault {
    /// The line, counted from 1.
    pub line: u32,
    /// The fault of the line.
    pub cause: TableCause,
}

/// The fault that kept a stored table from being read.
#[derive(Clone, Copy, Debug, PartialEq, Eq)]
pub enum TableReadFault {
    /// A line is bad; `line` is the first bad line, counted from 1.
    Table { line: u32, cause: TableCause },
    /// Memory ran out.
    Memory,
}

impl TableCause {
    /// Returns the cause in a few words, as the program `far` prints it.
    pub fn text(&self) -> &'static str
        ensures { result.now ≡ table_cause_text (cause_of self.now) }
    {
        match self {
            TableCause::Form => "table form",
            TableCause::Range => "table number out of range",
            TableCause::Sum => "table row does not sum",
            TableCause::Count => "table entry count",
        }
    }
}

impl fmt::Display for TableCause {
    ghost output = { λ cause. Some (table_cause_text (cause_of cause)) };

    fn fmt<W: fmt::Write>(&self, f: &mut fmt::Formatter<W>) -> fmt::Result {
        f.write_str(self.text())
    }
}

impl std::error::Error for TableCause {}

impl TableFault {
    /// Returns the text of the line and its cause.
    pub fn pieces(&self) -> Pieces
        ensures { result ≡ table_fault_text (fault_of self.now) }
    {
        Pieces::about_with("line ", u64::from(self.line), ": ", self.cause.text())
    }
}

impl fmt::Display for TableFault {
    ghost output = { λ fault. Some (table_fault_text (fault_of fault)) };

    fn fmt<W: fmt::Write>(&self, f: &mut fmt::Formatter<W>) -> fmt::Result {
        write!(f, "{}", self.pieces())
    }
}

impl std::error::Error for TableFault {}

impl TableReadFault {
    /// Returns the text of the fault.
    pub fn pieces(&self) -> Pieces
        ensures { result ≡ fault_text (read_fault_of self.now) }
    {
        match *self {
            TableReadFault::Table { line, cause } => TableFault { line, cause }.pieces(),
            TableReadFault::Memory => Pieces::plain(Memory.text()),
        }
    }
}

impl fmt::Display for TableReadFault {
    ghost output = { λ fault. Some (fault_text (read_fault_of fault)) };

    fn fmt<W: fmt::Write>(&self, f: &mut fmt::Formatter<W>) -> fmt::Result {
        write!(f, "{}", self.pieces())
    }
}

impl std::error::Error for TableReadFault {}

impl From<Memory> for TableReadFault {
    ghost use Rattle.table_file.specs.declared.fault.TableReadFault.TheVariants as fault;

    ghost from_gives = { λ _ e. e ≡ fault.Memory };

    fn from(_: Memory) -> TableReadFault {
        TableReadFault::Memory
    }
}
