//! The mesh at the beginning of a source: its lines up to the line `frames`, or up to the end of the input.

ghost use Rattle.std.specs.Prelude.{◌≡◌, ℕ, suc, ◌^◌, ◌+◌, ◌<◌, ◌≤◌, List, [], length, Ok, None, IfOk, OnOk, MatchResult};
ghost use Rattle.subdiv_model.specs.ObjLine.{line_words};
ghost use Rattle.far_model.specs.Frames.{is_frames_line, words_after};
ghost use Rattle.stream_laws.specs.Handled.{text_of_lines};
ghost use Rattle.far_fault.specs.View.{fault_of};
ghost use Rattle.far_words.specs.View.{frames_of_code};
ghost use Rattle.mesh_answers.specs.MeshText.{IsMeshText, IsTextFault};
ghost use Rattle.far_engine.specs.MeshPart.{AreLinesAfter, EndsMesh, FindsMeshEnd, IsMeshLines, IsPartOr};

use crate::frame_lines::FrameLines;
use crate::input::{LIMIT, fault_of_input};
use far_fault::FarFault;
use far_io::{InputFault, NextText, Source, TextReader};
use far_words::FramesOptions;
use mesh_answers::mesh_of_text;
use obj_tags::skip_mark;
use obj_text::words_of;
use raw_mesh::RawMesh;
use std::alloc::Global;

/// The end of the lines of a mesh.
#[derive(Clone, Copy, Debug, PartialEq, Eq)]
pub(crate) enum MeshEnd {
    /// A line `frames` that a line feed closes, with its number, counted from 1.
    Closed { number: u32 },
    /// A line `frames` at the end of the input, without a line feed.
    Last,
    /// The end of the input.
    Input,
}

/// A mesh that was read, and the frame lines, if a closed line `frames` follows it.
#[derive(Drop)]
pub(crate) struct MeshPart {
    pub(crate) mesh: RawMesh,
    pub(crate) lines: Option<FrameLines>,
}

// Whether the first word of a line is `frames`.
fn is_frames(line: &[u8]) -> bool
    ensures { result ≡ is_frames_line (line_words line.now) }
{
    match words_of(line).next() {
        Some(word) => word == b"frames".as_slice(),
        None => false,
    }
}

// Whether the first word of a line is `frames`. `before` has the bytes before the line, none for the first line.
fn is_frames_after(before: &[u8], line: &[u8]) -> bool
    ensures { (lines : List (List ℕ)) → before.now ≡ text_of_lines lines → result ≡ is_frames_line (words_after lines line.now) }
{
    if before.is_empty() {
        is_frames(skip_mark(line))
    } else {
        is_frames(line)
    }
}

// Moves on to the next line, and returns the end of the mesh if it is there.
fn next_mesh_line<S: Source>(
    text: &mut TextReader,
    number: u32,
    source: &mut S,
) -> Result<Option<MeshEnd>, InputFault>
    requires few { length text.old.pending ≤ 4096 }
    ensures found { (s : S) (lines : List (List ℕ)) → IsMeshLines S.Source s source.old text.old lines → number ≡ suc (length lines)
        → FindsMeshEnd S.Source s source.new lines text.new result }
    ensures few { OnOk result (length text.new.pending ≤ 4096) }
    ensures shorter { result ≡ Ok None → length text.new.pending + text.new.allowed < length text.old.pending + text.old.allowed }
{
    match text.next(source)? {
        NextText::Closed => Ok(if is_frames_after(text.before(), text.line()) {
            Some(MeshEnd::Closed { number })
        } else {
            None
        }),
        NextText::Last => Ok(Some(if is_frames_after(text.before(), text.line()) {
            MeshEnd::Last
        } else {
            MeshEnd::Input
        })),
        NextText::End => Ok(Some(MeshEnd::Input)),
    }
}

// Reads the lines of a mesh.
fn seek_frames<S: Source>(text: &mut TextReader, source: &mut S) -> Result<MeshEnd, InputFault>
    requires before { text.old.before ≡ [] }
    requires line { text.old.line ≡ [] }
    requires end { text.old.end ≡ [] }
    requires pending { text.old.pending ≡ [] }
    requires allowed { text.old.allowed ≡ 2 ^ 28 }
    ensures found { EndsMesh S.Source source.old source.new text.new result }
    ensures few { OnOk result (length text.new.pending ≤ 4096) }
{
    let mut number = 0;
    loop {
        number += 1;
        if let Some(end) = next_mesh_line(text, number, source)? {
            return Ok(end);
        }
    }
}

// The mesh of a text, with its frame lines.
fn part_of(
    alloc: Global,
    text: &[u8],
    scale: u32,
    lines: Option<FrameLines>,
) -> Result<MeshPart, FarFault>
    requires short { length text.now ≤ 2 ^ 28 }
    requires scale { scale ≤ 18 }
    ensures lines { IfOk result (λ part. part.lines ≡ lines) }
    ensures mesh { MatchResult result (λ part. IsMeshText text.now scale part.mesh) (λ fault. IsTextFault text.now scale (fault_of fault)) }
{
    let mesh = mesh_of_text(alloc, text, scale)?;
    Ok(MeshPart { mesh, lines })
}

// The mesh before a line `frames`, with the frame lines behind it.
fn part_before(
    alloc: Global,
    text: &TextReader,
    scale: u32,
    number: u32,
) -> Result<MeshPart, FarFault>
    requires short { length text.now.before ≤ 2 ^ 28 }
    requires few { length text.now.pending ≤ 4096 }
    requires scale { scale ≤ 18 }
    ensures lines { IfOk result (λ part. AreLinesAfter text.now number part.lines) }
    ensures mesh { MatchResult result (λ part. IsMeshText text.now.before scale part.mesh) (λ fault. IsTextFault text.now.before scale (fault_of fault)) }
{
    let lines = FrameLines::after(alloc, text, number)?;
    part_of(alloc, text.before(), scale, Some(lines))
}

// Reads the lines of a mesh, and makes the mesh from them.
fn part_of_text<S: Source>(
    alloc: Global,
    options: &FramesOptions,
    text: &mut TextReader,
    source: &mut S,
) -> Result<MeshPart, FarFault>
    requires scale { options.now.scale ≤ 18 }
    requires before { text.old.before ≡ [] }
    requires line { text.old.line ≡ [] }
    requires end { text.old.end ≡ [] }
    requires pending { text.old.pending ≡ [] }
    requires allowed { text.old.allowed ≡ 2 ^ 28 }
    ensures { IsPartOr S.Source (frames_of_code options.now) source.old source.new result }
{
    match seek_frames(text, source) {
        Ok(MeshEnd::Closed { number }) => part_before(alloc, text, options.scale, number),
        Ok(MeshEnd::Last) => part_of(alloc, text.before(), options.scale, None),
        Ok(MeshEnd::Input) => part_of(alloc, text.passed(), options.scale, None),
        Err(fault) => Err(fault_of_input(fault)),
    }
}

/// Reads the mesh of a source up to the line `frames`, or to the end of the input. The function drops the text before it returns.
///
/// The error is `Obj` with the first bad line, `Long` for more than 2^28 bytes, `Read` if a read failed, or `Memory`.
pub(crate) fn read_part<S: Source>(
    alloc: Global,
    options: &FramesOptions,
    source: &mut S,
) -> Result<MeshPart, FarFault>
    requires { options.now.scale ≤ 18 }
    ensures { IsPartOr S.Source (frames_of_code options.now) source.old source.new result }
{
    let mut text = TextReader::new(alloc, LIMIT);
    part_of_text(alloc, options, &mut text, source)
}
