//! The entries of columns, packed into flat arrays: 12 or 20 bytes an entry, and 4 bytes a column.

ghost use Rattle.std.specs.Prelude.{◌≡◌, ◌+◌, ◌<◌, ◌≤◌, ◌^◌, ◌∷◌, length, get_or, set, replicate, slice_range, IfOk};
ghost use Rattle.number_width.specs.Numbers.{most_of, numbers_in, width_for};
ghost use Rattle.stencil_apply.specs.Table.{entries_of, greatest_of};
ghost use Rattle.stencil_session.specs.Columns.{ArePacked};

use number_width::{NumberList, NumberSlice, width_of};
use ratio128::Memory;
use std::alloc::Global;
use stencil_apply::StencilTable;

// The columns as arrays. The entries of a column end where those of the next begin. While entries are written, an end is the
// place of the next entry.
#[derive(Drop)]
pub(crate) struct Parts {
    pub(crate) ends: Vec<u32>,
    pub(crate) rows: Vec<u32>,
    pub(crate) numerators: NumberList,
}

impl Parts {
    // Returns zeros, as many as the table has controls and entries. The numerators have the width of the greatest
    // denominator.
    pub(crate) fn zeros(alloc: Global, table: &StencilTable) -> Result<Parts, Memory>
        ensures ends { IfOk result (λ parts. parts.ends.items ≡ replicate table.now.controls 0) }
        ensures rows { IfOk result (λ parts. parts.rows.items ≡ replicate (entries_of table.now.rows) 0) }
        ensures numerators { IfOk result (λ parts. parts.numerators.items ≡ replicate (entries_of table.now.rows) 0) }
        ensures width { IfOk result (λ parts. parts.numerators.width ≡ width_for (greatest_of table.now)) }
    {
        let entries = table.entries() as usize;
        Ok(Parts {
            ends: vec![in alloc; 0; table.controls() as usize]?,
            rows: vec![in alloc; 0; entries]?,
            numerators: NumberList::zeros(alloc, width_of(table.greatest()), entries)?,
        })
    }

    // Adds an entry to its column.
    pub(crate) fn put(&mut self, control: u32, row: u32, numerator: u128)
        requires control { control < length self.old.ends.items }
        requires row { get_or self.old.ends.items control 0 < length self.old.rows.items }
        requires numerator { get_or self.old.ends.items control 0 < length self.old.numerators.items }
        requires short { length self.old.rows.items ≤ 2 ^ 27 }
        requires small { numerator ≤ most_of self.old.numerators.width }
        ensures ends { self.new.ends.items ≡ set self.old.ends.items control (get_or self.old.ends.items control 0 + 1) }
        ensures rows { self.new.rows.items ≡ set self.old.rows.items (get_or self.old.ends.items control 0) row }
        ensures numerators { self.new.numerators.items ≡ set self.old.numerators.items (get_or self.old.ends.items control 0) numerator }
        ensures width { self.new.numerators.width ≡ self.old.numerators.width }
    {
        let at = self.ends[control as usize] as usize;
        self.rows[at] = row;
        self.numerators.set(at, numerator);
        self.ends[control as usize] += 1;
    }

    // Returns the start of the entries of a column.
    fn start(&self, control: u32) -> usize
        requires { control < length self.now.ends.items }
        ensures { result ≡ get_or (0 ∷ self.now.ends.items) control 0 }
    {
        if control == 0 {
            0
        } else {
            self.ends[control as usize - 1] as usize
        }
    }

    // Returns the start and the end of the entries of a column.
    fn part(&self, control: u32) -> (usize, usize)
        requires inside { control < length self.now.ends.items }
        requires packed { ArePacked self.now }
        ensures from { result.0 ≡ get_or (0 ∷ self.now.ends.items) control 0 }
        ensures to { result.1 ≡ get_or self.now.ends.items control 0 }
        ensures forward { result.0 ≤ result.1 }
        ensures within { result.1 ≤ length self.now.rows.items }
    {
        (self.start(control), self.ends[control as usize] as usize)
    }

    // Returns the rows of a column.
    pub(crate) fn rows_of(&self, control: u32) -> &[u32]
        requires inside { control < length self.now.ends.items }
        requires packed { ArePacked self.now }
        ensures { result.now ≡ slice_range self.now.rows.items (get_or (0 ∷ self.now.ends.items) control 0) (get_or self.now.ends.items control 0) }
    {
        let (from, to) = self.part(control);
        &self.rows[from..to]
    }

    // Returns the numerators of a column.
    pub(crate) fn numerators_of(&self, control: u32) -> NumberSlice<'_>
        requires inside { control < length self.now.ends.items }
        requires packed { ArePacked self.now }
        ensures { numbers_in result ≡ slice_range self.now.numerators.items (get_or (0 ∷ self.now.ends.items) control 0) (get_or self.now.ends.items control 0) }
    {
        let (from, to) = self.part(control);
        self.numerators.range(from, to)
    }
}
