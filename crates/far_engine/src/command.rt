//! A run of a command that is already read.

ghost use Rattle.std.specs.Prelude.{IfOk};
ghost use Rattle.far_model.specs.Command.{IsInRange, IsStoredInRange, Stored};
ghost use Rattle.far_fault.specs.View.{outcome_of};
ghost use Rattle.far_text.specs.Reply.{CanPut};
ghost use Rattle.far_words.specs.View.{command_of_code, stored_of_code};
ghost use Rattle.far_engine.specs.Input.{FindsReply, PutsFound};
ghost use Rattle.far_engine.specs.Runs.{RunsCommand};
ghost use Rattle.far_engine.specs.StepCounts.{TakesSteps};

use crate::frames::run_frames;
use crate::input::{bytes_of, read_mesh};
use far_fault::FarFault;
use far_io::{Sink, Source, WriteFailed};
use far_text::{Reply, write_reply};
use far_words::{Command, MakeCommand, ReadCommand, StoredCommand, StreamCommand};
use mesh_answers::{generate, leaves, levels, limit, patch, refine, sparse, stencils};
use ratio128::Steps;
use std::alloc::Global;
use std::sync::ledger::Ledger;
use table_answers::{apply, verify};

// Writes a reply into the sink.
fn put_reply<K: Sink>(reply: &Reply, sink: &mut K) -> Result<(), FarFault>
    requires { CanPut reply.now }
    ensures { PutsFound K.Sink (Ok reply.now) sink.old sink.new result }
{
    match write_reply(sink, reply) {
        Ok(()) => Ok(()),
        Err(WriteFailed) => Err(FarFault::Write),
    }
}

// Writes a reply into the sink, or returns its fault.
fn put_found<K: Sink>(found: Result<Reply, FarFault>, sink: &mut K) -> Result<(), FarFault>
    requires { IfOk found (λ reply. CanPut reply) }
    ensures { PutsFound K.Sink found sink.old sink.new result }
{
    let reply = found?;
    put_reply(&reply, sink)
}

// The reply of `verify` or `apply`, which read their input to its end.
fn find_stored<S: Source, L: Ledger>(
    alloc: Global,
    command: &StoredCommand,
    source: &mut S,
    steps: &mut Steps<L>,
) -> Result<Reply, FarFault>
    requires { IsStoredInRange (stored_of_code command.now) }
    ensures { FindsReply S.Source (Stored (stored_of_code command.now)) source.old source.new result steps.old steps.new }
{
    let bytes = bytes_of(alloc, source)?;
    match *command {
        StoredCommand::Verify { depth } => verify(alloc, &bytes, depth, steps),
        StoredCommand::Apply => apply(alloc, &bytes, steps),
    }
}

/// Runs a command: reads the source, and writes the answer into the sink. The numbers of the command are in the ranges of its options, as
/// [`Command::is_in_range`] tests. [`run`](crate::run) describes the answers, the errors and the steps; `Usage` never comes here.
///
/// A command that reads a mesh or a stored table reads the source to its end before it writes. `gen` does not call the source. `frames`
/// answers each line before it reads the next.
pub fn run_command<S: Source, K: Sink, L: Ledger>(
    alloc: Global,
    command: &Command,
    source: &mut S,
    sink: &mut K,
    steps: &mut Steps<L>,
) -> Result<(), FarFault>
    requires { IsInRange (command_of_code command.now) }
    ensures run { RunsCommand S.Source K.Sink (command_of_code command.now) source.old source.new sink.old sink.new (outcome_of result) }
    ensures steps { TakesSteps S.Source (command_of_code command.now) source.old source.new (outcome_of result) steps.old steps.new }
{
    match command {
        Command::Read(command) => {
            let mesh = read_mesh(alloc, source)?;
            match command {
                ReadCommand::Refine(options) => put_found(
                    refine(alloc, &mesh, options, steps),
                    sink,
                ),
                ReadCommand::Sparse(options) => put_found(
                    sparse(alloc, &mesh, options, steps),
                    sink,
                ),
                ReadCommand::Stencils { depth } => put_found(
                    stencils(alloc, &mesh, *depth, steps),
                    sink,
                ),
                ReadCommand::Limit(options) => put_found(limit(alloc, &mesh, options, steps), sink),
                ReadCommand::Levels { depth } => put_found(
                    levels(alloc, &mesh, *depth, steps),
                    sink,
                ),
                ReadCommand::Patch(options) => put_found(patch(alloc, &mesh, options, steps), sink),
                ReadCommand::Map(options) => put_found(leaves(alloc, &mesh, options, steps), sink),
            }
        }
        Command::Stored(command) => put_found(find_stored(alloc, command, source, steps), sink),
        Command::Make(MakeCommand::Gen(options)) => {
            put_found(generate(alloc, options, steps), sink)
        }
        Command::Stream(StreamCommand::Frames(options)) => {
            run_frames(alloc, options, source, sink, steps)
        }
    }
}
