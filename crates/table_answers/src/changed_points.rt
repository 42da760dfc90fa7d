//! The answer of `go`: the changed points, line by line.

ghost use Rattle.std.specs.Prelude.{◌≡◌, ◌*◌, ◌<◌, ◌≤◌, false, length, OnOk, IfErr};
ghost use Rattle.subdiv_model.specs.Channel.{number_bound};
ghost use Rattle.ratio128.specs.Numbers.{greatest_amount};
ghost use Rattle.far_io.specs.Writes.{Writes};
ghost use Rattle.far_fault.specs.declared.fault.FarFault.TheVariants.{Write};
ghost use Rattle.obj_out.specs.Puts.{Puts};
ghost use Rattle.stencil_apply.specs.Table.{greatest_of};
ghost use Rattle.stencil_session.specs.Session.{numbers_of, row_value};
ghost use Rattle.table_answers.specs.FrameLines.{row_line, marked_lines, marked_text, unmarked};

use far_fault::FarFault;
use far_io::{Sink, WriteFailed};
use far_text::{put_changed, put_frame_count};
use obj_out::Out;
use ratio128::{Point3, Valued};
use stencil_session::Session;

// Puts the line of a row with its present numbers.
fn put_row<K: Sink>(
    out: &mut Out<'_, K>,
    session: &Session,
    row: u32,
    value: Point3,
    common: u128,
) -> Result<(), WriteFailed>
    requires inside { row < length session.now.table.rows }
    requires value { numbers_of value ≡ row_value session.now row }
    requires short { greatest_amount (numbers_of value) ≤ number_bound }
    requires some { 0 < common }
    requires fits { greatest_of session.now.table * common ≤ number_bound }
    ensures { Puts K.Sink out.old out.new (row_line common session.now row) result }
{
    session.facts();
    let den = session.denominator(row);
    put_changed(out, row, &Valued { value, den }, common)
}

// Puts the line of each marked row, ascending, and unmarks it.
fn put_rows<K: Sink>(
    out: &mut Out<'_, K>,
    session: &mut Session,
    common: u128,
) -> Result<(), WriteFailed>
    requires fine { out.old.failed ≡ false }
    requires some { 0 < common }
    requires fits { greatest_of session.old.table * common ≤ number_bound }
    ensures lines { Puts K.Sink out.old out.new (marked_lines common session.old) result }
    ensures session { OnOk result (session.new ≡ unmarked session.old) }
    ensures table { session.new.table ≡ session.old.table }
{
    while let Some((row, value)) = session.next_changed() {
        put_row(out, session, row, value, common)?;
    }
    Ok(())
}

// Puts the number of marked rows, and the line of each.
fn put_frame<K: Sink>(
    out: &mut Out<'_, K>,
    session: &mut Session,
    common: u128,
) -> Result<(), WriteFailed>
    requires some { 0 < common }
    requires fits { greatest_of session.old.table * common ≤ number_bound }
    ensures text { Puts K.Sink out.old out.new (marked_text common session.old) result }
    ensures session { OnOk result (session.new ≡ unmarked session.old) }
    ensures table { session.new.table ≡ session.old.table }
{
    put_frame_count(out, session.changed())?;
    put_rows(out, session, common)
}

// Writes the number of marked rows, and the line of each.
fn write_frame<K: Sink>(
    sink: &mut K,
    session: &mut Session,
    common: u128,
) -> Result<(), WriteFailed>
    requires some { 0 < common }
    requires fits { greatest_of session.old.table * common ≤ number_bound }
    ensures text { Writes K.Sink sink.old sink.new (marked_text common session.old) result }
    ensures session { OnOk result (session.new ≡ unmarked session.old) }
    ensures table { session.new.table ≡ session.old.table }
{
    let mut out = Out::new(sink);
    put_frame(&mut out, session, common)?;
    out.end()
}

/// Writes the number of marked rows and the line of each, ascending, then unmarks them. The numerators of a row are over its denominator
/// times the common one. The fault is `Write`. The call takes no memory.
pub(crate) fn answer_go<K: Sink>(
    sink: &mut K,
    session: &mut Session,
    common: u128,
) -> Result<(), FarFault>
    requires some { 0 < common }
    requires fits { greatest_of session.old.table * common ≤ number_bound }
    ensures text { Writes K.Sink sink.old sink.new (marked_text common session.old) result }
    ensures session { OnOk result (session.new ≡ unmarked session.old) }
    ensures table { session.new.table ≡ session.old.table }
    ensures fault { IfErr result (λ fault. fault ≡ Write) }
{
    match write_frame(sink, session, common) {
        Ok(()) => Ok(()),
        Err(WriteFailed) => Err(FarFault::Write),
    }
}
