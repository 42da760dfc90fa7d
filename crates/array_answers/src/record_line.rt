//! The line of a fault in a caller's bytes.

ghost use Rattle.std.specs.Prelude.{◌≡◌, ◌+◌, ◌≤◌, [], ◌++◌, codes, length, take, drop};
ghost use Rattle.subdiv_model.specs.Fault.{Fault, fault_line};
ghost use Rattle.text_pieces.specs.Text.{piece_text, pieces_text};
ghost use Rattle.far_fault.specs.View.{fault_of};
ghost use Rattle.array_answers.specs.RecordBack.{IsOfNone, IsRecordOf};
ghost use Rattle.array_answers.specs.RecordLines.{IsPut};

use crate::record::FaultRecord;
use crate::record_fault::fault_of_record;
use far_fault::FarFault;
use flat_arrays::put_items;
use itoa::Buffer;
use text_pieces::{Piece, Pieces};

// Writes the text of a piece after the first `at` bytes, and returns its end.
fn put_piece(line: &mut [u8], at: usize, piece: &Piece) -> usize
    requires { at + length (piece_text piece.now) ≤ length line.old }
    ensures written { take result line.new ≡ take at line.old ++ piece_text piece.now }
    ensures end { result ≡ at + length (piece_text piece.now) }
{
    let mut buffer = Buffer::new();
    let text = piece.text(&mut buffer).as_bytes();
    put_items(line, at, text);
    at + text.len()
}

// Writes the pieces one after another after the first `at` bytes, and returns their end.
fn put_pieces(line: &mut [u8], at: usize, pieces: &[Piece]) -> usize
    requires { at + length (pieces_text pieces.now) ≤ length line.old }
    ensures written { take result line.new ≡ take at line.old ++ pieces_text pieces.now }
    ensures end { result ≡ at + length (pieces_text pieces.now) }
{
    let mut end = at;
    let mut rest = pieces;
    while let [piece, others @ ..] = rest {
        end = put_piece(line, end, piece);
        rest = others;
    }
    end
}

// Writes the pieces as a line of the program, and returns its end.
fn put_as_line(line: &mut [u8], pieces: &Pieces) -> usize
    requires { length (codes "far: " ++ (pieces.now ++ codes "\n")) ≤ length line.old }
    ensures written { take result line.new ≡ codes "far: " ++ (pieces.now ++ codes "\n") }
    ensures end { result ≡ length (codes "far: " ++ (pieces.now ++ codes "\n")) }
{
    let start = put_piece(line, 0, &Piece::Text("far: "));
    let end = put_pieces(line, start, pieces.as_slice());
    put_piece(line, end, &Piece::Text("\n"))
}

// Writes as much of a text as fits, and leaves the bytes behind it.
fn put_front(text: &[u8], out: &mut [u8])
    ensures { out.new ≡ take (length out.old) text.now ++ drop (length text.now) out.old }
{
    let count = text.len().min(out.len());
    out[..count].copy_from_slice(&text[..count]);
}

// Writes as much of the line of a fault as fits, and returns the length of the whole line.
fn put_fault_line(fault: &FarFault, out: &mut [u8]) -> u64
    requires { length (fault_line (fault_of fault.now)) ≤ 128 }
    ensures { IsPut (fault_line (fault_of fault.now)) out.old out.new result }
{
    let mut line = [0u8; 128];
    let end = put_as_line(&mut line, &fault.pieces());
    put_front(&line[..end], out);
    end as u64
}

/// Writes the line of a record's fault to the front of `out`, and returns the length of the whole line, at most 128 bytes. It is the line
/// that a run writes on standard error, from `far: ` to the line feed.
///
/// If `out` is shorter than the line, it gets the first bytes of the line. Bytes behind the line stay. If no fault of a run has the
/// record, the call writes nothing and returns 0.
pub fn put_line(held: &FaultRecord, out: &mut [u8]) -> u64
    ensures line { (fault : Fault) → IsRecordOf held.now fault → IsPut (fault_line fault) out.old out.new result }
    ensures none { IsOfNone held.now → IsPut [] out.old out.new result }
    ensures short { result ≤ 128 }
{
    match fault_of_record(held) {
        Some(fault) => put_fault_line(&fault, out),
        None => 0,
    }
}
