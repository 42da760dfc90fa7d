//! A mesh whose control points move.

ghost use Rattle.std.specs.Prelude.{◌≡◌, ◌+◌, ◌-◌, ◌≤◌, [], MatchResult};
ghost use Rattle.subdiv_model.specs.ObjMesh.{ObjMesh};
ghost use Rattle.far_fault.specs.declared.fault.FarFault.TheVariants as answered;
ghost use Rattle.ratio128.specs.StepsTaken.{StepsTaken};
ghost use Rattle.table_answers.specs.Posed.{IsPosedAfter};
ghost use Rattle.table_answers.specs.FrameAnswers.{IsStart, AnswersAfter};
ghost use Rattle.table_answers.specs.FramesKept.{IsTableWithin};
ghost use Rattle.table_answers.specs.FrameStepCounts.{start_least};

use crate::changed_points::answer_go;
use crate::frame_line::{FrameLine, read_frame_line};
use crate::moves::move_control;
use far_fault::FarFault;
use far_io::Sink;
use mesh_answers::compose;
use ratio128::Steps;
use raw_mesh::RawMesh;
use std::alloc::Global;
use std::marker::Model;
use std::sync::ledger::Ledger;
use stencil_apply::StencilTable;
use stencil_session::Session;

/// A mesh whose control points move, with its refined points.
#[derive(Drop)]
pub struct PosedMesh {
    session: Session,
    common: u128,
    depth: u32,
}

impl Model for PosedMesh {
    ghost use Rattle.table_answers.specs.Posed.{Posed};
    ghost use Rattle.table_answers.specs.FramesKept.{CanStandOver};

    ghost Value = { Posed };

    ghost view = { λ p. record { session = p.session; common = p.common; depth = p.depth } };

    ghost invariant = { λ p. CanStandOver p.common p.session.table };
}

impl PosedMesh {
    /// Returns the mesh refined to a depth of at most 10, with no point marked. No later call takes memory. The call counts one step for
    /// each entry of the table at the depth. It adds at most one for each face of the levels from 0 to the depth.
    ///
    /// The errors are those of [`stencils`](mesh_answers::stencils), in its order.
    pub fn start<L: Ledger>(
        alloc: Global,
        mesh: &RawMesh,
        depth: u32,
        steps: &mut Steps<L>,
    ) -> Result<PosedMesh, FarFault>
        requires { depth ≤ 10 }
        ensures { IsStart mesh.now depth result (λ posed. posed) steps.old steps.new }
    {
        let composed = compose(alloc, mesh, depth, steps)?;
        // The prover proves a named drop once for each type.
        drop(composed.level);
        PosedMesh::at_rest(alloc, mesh, composed.table, depth, steps)
    }

    // The mesh without moves, from its table.
    fn at_rest<L: Ledger>(
        alloc: Global,
        mesh: &RawMesh,
        table: StencilTable,
        depth: u32,
        steps: &mut Steps<L>,
    ) -> Result<PosedMesh, FarFault>
        requires { IsTableWithin mesh.now depth table }
        ensures posed { MatchResult result (λ posed. (posed.depth ≡ depth) × IsPosedAfter mesh.now [] posed) (λ fault. fault ≡ answered.Memory) }
        ensures steps { StepsTaken result steps.old steps.new (start_least depth mesh.now) (start_least depth mesh.now) }
    {
        mesh.facts();
        let session = Session::start(alloc, table, mesh.points(), steps)?;
        session.facts();
        Ok(PosedMesh {
            session,
            common: mesh.scale(),
            depth,
        })
    }

    /// Answers a frame line. `number` is its number, counted from 1.
    ///
    /// A move puts a control point at its new place and marks the points that depend on it. It counts at most one step for each. The word
    /// `go` writes the number of marked points and a line for each, ascending, then unmarks them. A line without words does nothing. The
    /// call takes no memory.
    ///
    /// Errors:
    ///
    /// - `Obj`: the number of the line and the first cause of [`read_frame_line`](crate::read_frame_line);
    /// - `Overflow` of the positions at the depth and `Value`: the greatest denominator there times a numerator of the move is above
    ///   2^126 - 1;
    /// - `Write`: the sink failed; it holds a prefix of the text.
    ///
    /// After `Obj` and `Overflow` the sink and the posed mesh are as they were.
    pub fn answer_line<K: Sink, L: Ledger>(
        &mut self,
        number: u32,
        line: &[u8],
        sink: &mut K,
        steps: &mut Steps<L>,
    ) -> Result<(), FarFault>
        ensures answers { AnswersAfter K.Sink number line.now self.old self.new sink.old sink.new result (steps.new - steps.old) }
        ensures later { steps.old ≤ steps.new }
    {
        match read_frame_line(line, self.session.controls(), self.common) {
            Ok(FrameLine::Empty) => Ok(()),
            Ok(FrameLine::Move { index, point }) => {
                move_control(&mut self.session, index, point, self.depth, steps)
            }
            Ok(FrameLine::Go) => answer_go(sink, &mut self.session, self.common),
            Err(cause) => Err(FarFault::Obj {
                line: number,
                cause,
            }),
        }
    }
}
