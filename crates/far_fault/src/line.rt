//! The line of a fault on standard error.

ghost use Rattle.std.specs.Prelude.{◌≡◌, ◌++◌, false, codes};
ghost use Rattle.std.specs.List.{flat_map};
ghost use Rattle.subdiv_model.specs.Fault.{fault_line};
ghost use Rattle.far_io.specs.Writes.{Writes};
ghost use Rattle.obj_out.specs.Puts.{Puts};
ghost use Rattle.text_pieces.specs.Text.{piece_text};
ghost use Rattle.far_fault.specs.View.{fault_of};

use crate::fault::FarFault;
use far_io::{Sink, WriteFailed};
use itoa::Buffer;
use obj_out::Out;
use text_pieces::{Piece, Pieces};

// Puts the text of a piece.
fn put_piece<K: Sink>(out: &mut Out<'_, K>, piece: &Piece) -> Result<(), WriteFailed>
    ensures { Puts K.Sink out.old out.new (piece_text piece.now) result }
{
    let mut buffer = Buffer::new();
    out.put_bytes(piece.text(&mut buffer).as_bytes())
}

// Puts the pieces, one after another.
fn put_pieces<K: Sink>(out: &mut Out<'_, K>, pieces: &[Piece]) -> Result<(), WriteFailed>
    requires { out.old.failed ≡ false }
    ensures { Puts K.Sink out.old out.new (flat_map piece_text pieces.now) result }
{
    for piece in pieces {
        put_piece(out, piece)?;
    }
    Ok(())
}

// Puts the pieces as a line of the program.
fn put_line<K: Sink>(out: &mut Out<'_, K>, pieces: &Pieces) -> Result<(), WriteFailed>
    ensures { Puts K.Sink out.old out.new (codes "far: " ++ (pieces.now ++ codes "\n")) result }
{
    put_piece(out, &Piece::Text("far: "))?;
    put_pieces(out, pieces.as_slice())?;
    put_piece(out, &Piece::Text("\n"))
}

/// Writes the line of a fault, from `far: ` to the line feed, and flushes. It takes no memory.
///
/// The error `WriteFailed` comes only if the sink's count of faults rose. The sink then holds a prefix of the line, or the whole line if
/// the flush failed.
pub fn report<K: Sink>(fault: &FarFault, sink: &mut K) -> Result<(), WriteFailed>
    ensures { Writes K.Sink sink.old sink.new (fault_line (fault_of fault.now)) result }
{
    let mut out = Out::new(sink);
    put_line(&mut out, &fault.pieces())?;
    out.end()
}
