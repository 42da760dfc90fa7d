//! A stored table read from bytes.

ghost use Rattle.std.specs.Prelude.{◌≡◌};
ghost use Rattle.table_arrays.specs.Texts.{IsReadStored};

use array_answers::{FaultRecord, record_of};
use far_fault::FarFault;
use std::alloc::Global;
use table_file::{ReadTable, TableReadFault, read_table};

const TEXT_LIMIT: usize = 1 << 28;

/// Returns the table whose text these bytes begin with, and the length of that text in bytes. The call does not look at bytes behind the
/// text.
///
/// The record is that of the first fault: `Long` for more than 2^28 bytes; `Table` with the first bad line, counted from 1, and its
/// cause. `Memory` may come at any time.
pub fn read_stored(alloc: Global, text: &[u8]) -> Result<ReadTable, FaultRecord>
    ensures { IsReadStored text.now result }
{
    if text.len() > TEXT_LIMIT {
        return Err(record_of(&FarFault::Long));
    }
    match read_table(alloc, text) {
        Ok(read) => Ok(read),
        Err(TableReadFault::Table { line, cause }) => {
            Err(record_of(&FarFault::Table { line, cause }))
        }
        Err(TableReadFault::Memory) => Err(record_of(&FarFault::Memory)),
    }
}
