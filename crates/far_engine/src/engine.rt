//! Runs of the program from its words.

ghost use Rattle.std.specs.Prelude.{map, string_bytes};
ghost use Rattle.far_fault.specs.View.{outcome_of};
ghost use Rattle.far_engine.specs.Runs.{ReportsStatus, Runs, RunsProgram};
ghost use Rattle.far_engine.specs.StepCounts.{RunSteps};

use crate::command::run_command;
use far_fault::{FarFault, report, status};
use far_io::{Sink, Source};
use far_words::read_words;
use ratio128::Steps;
use std::alloc::Global;
use std::sync::ledger::Ledger;

/// Runs the command that the words spell: reads the source, and writes the answer into the sink. `words` are the words after the
/// program's name. `docs/help.txt` lists the options.
///
/// - `refine` writes the points and faces of the last level, its texture if the mesh has one, and its tags if asked.
/// - `sparse` writes the sparse levels from level 0 to the depth: counts, points, texture points if asked, and present faces. The texture
///   refines the faces that the positions select.
/// - `stencils` writes the table of the last level over the control points.
/// - `limit` writes the limit points of the last level, and its faces.
/// - `levels` writes a line with the counts of each level.
/// - `patch` writes the points of the limit surface on a regular face of the last level, at the places of a grid.
/// - `map` writes, for each place of a grid on a face of the mesh, the leaf of the sparse levels that contains it, and its position
///   there.
/// - `verify` compares a stored table with the table of the mesh before it, and writes their number of rows.
/// - `apply` writes the points of a stored table over the points of the text behind it.
/// - `gen` writes a summary of a sheet that it makes from a seed. It never calls the source.
/// - `frames` reads a mesh up to the line `frames`, then answers line by line. `move` moves a control point; `go` writes the points that
///   depend on those moved since the last `go`. It flushes each answer before it reads on, and takes no memory once the mesh is refined.
///
/// # Errors
///
/// Words count from 0, lines and levels from 1, faces and vertices from 0. Except with `frames`, every fault but `Write` comes before the
/// first byte of the answer. If the source gives all its bytes, the fault is the first of these:
///
/// - `Usage`: exactly if the words are not a command; the run calls neither source nor sink;
/// - `Long`: more than 2^28 bytes came;
/// - `Obj`: the first bad line of a mesh;
/// - `Mesh`: the first fault of a mesh that is not a manifold;
/// - `TooLarge`: a count of the mesh passes its limit, or a level would have more than 2^22 faces. `sparse` and `map` check the present
///   faces of a level before its numbers;
/// - `Overflow` of the positions, or `TooLarge` for a table with more than 2^27 entries: the first level at which a number passes its
///   bound. Within a level the order is `Chaikin`, `Transition`, `Denominator`, entries, `Value`. `levels` and `map` look only at
///   `Chaikin`, and `refine` level by level has no table;
/// - with `refine` and `sparse`: `Overflow` of the texture, or `TooLarge`, at its first such level;
/// - with `limit`: `Limit`, the least point of the last level without a limit point; then `Overflow` (denominator), `TooLarge` (entries),
///   `Overflow` (numerator) of the limit points;
/// - with `patch`: `Place`, if the last level has no such face or the face has no patch. Then `Overflow`, `TooLarge`, `Overflow` of the
///   patch, at the depth, which may be 0;
/// - with `map`: `Place`, if the mesh has no such face, the face has no places with the corner, or it is a hole;
/// - with `verify`: `Table`, the first bad line of the stored table or the line behind it; then `Differs`, the first row that differs,
///   counted from 0.
///
/// `apply` reads a table and a text of points. Its faults, in this order, are `Table`, `Obj`, `Controls` for another number of points
/// than of control points, and `Overflow` of the positions at level 0.
///
/// `frames` refuses its mesh as `stencils` does, at the line `frames` or at the end of the input. Then it answers lines up to the first
/// of these faults:
///
/// - `Obj`: a bad line, or one of 65,536 bytes or more;
/// - `Overflow` of the positions at the depth: a coordinate that is too great;
/// - `Long`: a byte after 2^28 others.
///
/// `Read` and `Write` come only if the count of faults of the source or the sink rose. `Memory` may come at any time after valid words,
/// but with `frames` before the first answer. After `Read`, `frames` has written the answers to all closed lines. After `Write` the sink
/// contains a prefix of the answer.
///
/// # Steps
///
/// A run counts at most one step for each face of the levels that it makes; `sparse` and `map` count present faces. For their values they
/// add, for the positions and for a texture:
///
/// - `gen`, `frames` and `refine` by table: one for each entry of the last table;
/// - `refine` level by level: one for each mask term;
/// - `limit` and `patch`: one for each entry of their rows;
/// - `sparse`: at most one for each entry of its present points.
///
/// `apply` counts one for each entry of its table, and a line `move` one for each point that depends on its control point. If `refine`,
/// `limit`, `patch`, `apply`, `gen` or `frames` answers, it took one step for each of these entries or mask terms.
pub fn run<S: Source, K: Sink, L: Ledger>(
    alloc: Global,
    words: &Vec<String>,
    source: &mut S,
    sink: &mut K,
    steps: &mut Steps<L>,
) -> Result<(), FarFault>
    ensures run { Runs S.Source K.Sink (map string_bytes words.now.items) source.old source.new sink.old sink.new (outcome_of result) }
    ensures steps { RunSteps S.Source (map string_bytes words.now.items) source.old source.new (outcome_of result) steps.old steps.new }
{
    match read_words(words) {
        Ok(command) => run_command(alloc, &command, source, sink, steps),
        Err(word) => Err(FarFault::Usage { word }),
    }
}

// The exit status of an outcome: 0 for `Ok`, without a call of `errors`; else that of the fault, whose line goes to `errors`. A failed
// report changes no status.
fn conclude<E: Sink>(outcome: Result<(), FarFault>, errors: &mut E) -> u8
    ensures { ReportsStatus E.Sink errors.old errors.new (outcome_of outcome) result }
{
    match outcome {
        Ok(()) => 0,
        Err(fault) => {
            // Only the count of `errors` can report that this failed.
            let _ = report(&fault, errors);
            status(&fault)
        }
    }
}

/// Runs the command that the words spell, as [`run`] does, reports its fault, and returns the exit status.
///
/// The status is 0 if the run succeeds, without a call of `errors`. Else it is the status of the fault, and the fault's line is appended
/// to `errors`. Only if the count of faults of `errors` rose, a prefix of that line is there.
pub fn program<S: Source, K: Sink, E: Sink, L: Ledger>(
    alloc: Global,
    words: &Vec<String>,
    source: &mut S,
    sink: &mut K,
    errors: &mut E,
    steps: &mut Steps<L>,
) -> u8
    ensures { RunsProgram S.Source K.Sink E.Sink (map string_bytes words.now.items) source.old source.new sink.old sink.new errors.old errors.new steps.old steps.new result }
{
    conclude(run(alloc, words, source, sink, steps), errors)
}
