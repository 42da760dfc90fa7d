//! The text of a table, written into bytes.

ghost use Rattle.std.specs.Prelude.{◌≡◌, ◌++◌};
ghost use Rattle.far_io.specs.Writes.{Writes};
ghost use Rattle.memory_streams.specs.Text.{KeepsSlice, text_of, IsStored, count_of};
ghost use Rattle.subdiv_model.specs.TableText.{text_of_table};

use far_io::{Sink, WriteFailed};
use memory_streams::SliceSink;
use obj_out::Out;
use stencil_apply::StencilTable;
use table_file::put_table;

// Writes the text of a table and flushes it.
fn write_table<K: Sink>(table: &StencilTable, sink: &mut K) -> Result<(), WriteFailed>
    ensures { Writes K.Sink sink.old sink.new (text_of_table table.now) result }
{
    let mut out = Out::new(sink);
    put_table(table, &mut out)?;
    out.end()
}

// Writes the text of a table into a sink, which keeps its slice.
fn write_into(table: &StencilTable, sink: &mut SliceSink)
    ensures added { text_of sink.new ≡ text_of sink.old ++ text_of_table table.now }
    ensures kept { KeepsSlice sink.old sink.new }
{
    let _ = write_table(table, sink);
}

/// Writes as much of the text of a table as fits to the front of `out`. Returns the length of the whole text in bytes. The call takes no
/// memory.
///
/// A longer slice keeps its bytes behind the text. A table over more than 2^20 control points has a text too, but [`read_stored`] refuses
/// it.
pub fn write_stored(table: &StencilTable, out: &mut [u8]) -> u64
    ensures stored { IsStored (text_of_table table.now) out.old out.new }
    ensures written { result ≡ count_of (text_of_table table.now) }
{
    let mut sink = SliceSink::new(out);
    write_into(table, &mut sink);
    sink.finish()
}
