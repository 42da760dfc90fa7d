//! The session of a table.

ghost use Rattle.std.specs.Prelude.{◌≡◌, ℕ, ◌+◌, ◌*◌, ◌<◌, ◌≤◌, [], false, Some, None, length, map, replicate, get_or, IfOk, OnOk, OnErr, IfSome, MatchResult};
ghost use Rattle.std.specs.List.{All};
ghost use Rattle.std.specs.Option.{option_map};
ghost use Rattle.subdiv_model.specs.Channel.{number_bound};
ghost use Rattle.ratio128.specs.Numbers.{greatest_amount};
ghost use Rattle.ratio128.specs.declared.point.Point3.{Point3};
ghost use Rattle.stencil_session.specs.Tree.{least_mark, mark_count};
ghost use Rattle.stencil_apply.specs.Table.{row_at, entries_of, greatest_of};
ghost use Rattle.stencil_session.specs.Session.{IsState, numbers_of, rows_with, after_move, move_fault, after_moves, move_of, moves_made, first_fault, rows_visited, row_value, sum_of_three, without_mark};

use crate::add::{add_column, difference};
use crate::columns::Columns;
use crate::fault::{MoveFault, TooGreat, test_move};
use crate::marks::Marks;
use ratio128::{Memory, Point3, Primvar, Steps};
use std::alloc::Global;
use std::marker::Model;
use std::sync::ledger::Ledger;
use stencil_apply::{StencilTable, apply_range, scale_fits};

/// A stencil table over control points that move: the controls, the value of each point, and marks of the points that moves
/// changed. A point is a row of the table. Controls and points are counted from 0. A value is three numerators over its row's
/// denominator.
#[derive(Drop)]
pub struct Session {
    table: StencilTable,
    columns: Columns,
    controls: Vec<Point3>,
    values: Vec<Point3>,
    marks: Marks,
}

impl Model for Session {
    ghost use Rattle.stencil_session.specs.Session.{State};
    ghost use Rattle.stencil_session.specs.Kept.{state_of, AreKept};

    ghost Value = { State };

    ghost view = { λ s. state_of s.table s.controls.items s.marks };

    ghost invariant = { λ s. AreKept s.table s.columns s.controls.items s.values.items s.marks };
}

// Returns the values of all points. Each entry of the table is one step.
fn evaluate<L: Ledger>(
    table: &StencilTable,
    controls: &[Point3],
    values: &mut Vec<Point3>,
    steps: &mut Steps<L>,
)
    requires controls { length controls.now ≡ table.now.controls }
    requires fits { All (λ p. greatest_of table.now * greatest_amount (numbers_of p) ≤ number_bound) controls.now }
    requires places { length values.old.items ≡ length table.now.rows }
    ensures sums { (row : ℕ) (d : Point3) → row < length table.now.rows → numbers_of (get_or values.new.items row d) ≡ sum_of_three (map numbers_of controls.now) (row_at table.now row) }
    ensures long { length values.new.items ≡ length table.now.rows }
    ensures steps { steps.new ≡ steps.old + entries_of table.now.rows }
{
    apply_range(table, controls, 0, table.rows(), values, steps);
}

impl Session {
    /// Returns the session of a table at these controls, with no point marked. There is a control for each control point of
    /// the table. The greatest denominator times each amount in them is at most 2^126 - 1.
    ///
    /// The call takes all memory of the session. Each entry of the table is one step. The time is proportional to the number
    /// of controls, rows and entries. Reports [`Memory`] where memory runs out.
    pub fn start<L: Ledger>(
        alloc: Global,
        table: StencilTable,
        controls: &[Point3],
        steps: &mut Steps<L>,
    ) -> Result<Session, Memory>
        requires controls { length controls.now ≡ table.controls }
        requires fits { All (λ p. greatest_of table * greatest_amount (numbers_of p) ≤ number_bound) controls.now }
        ensures state { IfOk result (λ s. s ≡ record { table = table; controls = map numbers_of controls.now; marks = replicate (length table.rows) false }) }
        ensures taken { OnOk result (steps.new ≡ steps.old + entries_of table.rows) }
        ensures most { steps.new ≤ steps.old + entries_of table.rows }
        ensures later { steps.old ≤ steps.new }
    {
        table.facts();
        let first = Vec::from_slice(alloc, controls)?;
        let mut values = vec![in alloc; Point3 { x: 0, y: 0, z: 0 }; table.rows() as usize]?;
        let marks = Marks::new(alloc, table.rows())?;
        let columns = Columns::of(alloc, &table)?;
        evaluate(&table, controls, &mut values, steps);
        Ok(Session {
            table,
            columns,
            controls: first,
            values,
            marks,
        })
    }

    /// States the facts of every session to a proof; at run time it does nothing.
    pub fn facts(&self)
        ensures { IsState self.now }
    {
        let _ = &self.table;
    }

    /// Moves control point `i`, and marks the points whose rows have it, even if their values do not change. Each of these
    /// rows is one step; the call visits no other row. It takes no memory.
    ///
    /// Reports [`MoveFault::IndexRange`] where there is no such control point. Otherwise reports [`MoveFault::Overflow`]
    /// where the greatest denominator of the table times an amount in the value is above 2^126 - 1. After a fault nothing has
    /// changed, and no step was taken.
    pub fn move_point<L: Ledger>(
        &mut self,
        i: u32,
        value: Point3,
        steps: &mut Steps<L>,
    ) -> Result<(), MoveFault>
        ensures moved { OnOk result (self.new ≡ after_move self.old (i, numbers_of value)) }
        ensures unchanged { OnErr result (self.new ≡ self.old) }
        ensures cause { MatchResult result (λ _. move_fault self.old.table (i, numbers_of value) ≡ None) (λ fault. move_fault self.old.table (i, numbers_of value) ≡ Some fault) }
        ensures steps { OnOk result (steps.new ≡ steps.old + rows_with i self.old.table) }
        ensures none { OnErr result (steps.new ≡ steps.old) }
    {
        test_move::<L>(&self.table, i, &value)?;
        self.move_within(i, value, steps);
        Ok(())
    }

    /// Moves control point `i`, which must exist, and marks the points whose rows have it. Each of these rows is one step.
    /// The call takes no memory.
    ///
    /// Reports [`TooGreat`] where the greatest denominator of the table times an amount in the value is above 2^126 - 1. Then
    /// nothing has changed, and no step was taken.
    pub fn move_known<L: Ledger>(
        &mut self,
        i: u32,
        value: Point3,
        steps: &mut Steps<L>,
    ) -> Result<(), TooGreat>
        requires { i < self.old.table.controls }
        ensures moved { OnOk result (self.new ≡ after_move self.old (i, numbers_of value)) }
        ensures unchanged { OnErr result (self.new ≡ self.old) }
        ensures within { OnOk result (greatest_of self.old.table * greatest_amount (numbers_of value) ≤ number_bound) }
        ensures above { OnErr result (number_bound < greatest_of self.old.table * greatest_amount (numbers_of value)) }
        ensures steps { OnOk result (steps.new ≡ steps.old + rows_with i self.old.table) }
        ensures none { OnErr result (steps.new ≡ steps.old) }
    {
        if !scale_fits(&self.table, Primvar::<L>::greatest(&value)) {
            return Err(TooGreat);
        }
        self.move_within(i, value, steps);
        Ok(())
    }

    // Moves a control point to a value within the bound of numbers.
    fn move_within<L: Ledger>(&mut self, i: u32, value: Point3, steps: &mut Steps<L>)
        requires { move_fault self.old.table (i, numbers_of value) ≡ None }
        ensures moved { self.new ≡ after_move self.old (i, numbers_of value) }
        ensures steps { steps.new ≡ steps.old + rows_with i self.old.table }
    {
        let moved = difference(&value, &self.controls[i as usize]);
        add_column(
            &self.columns,
            i,
            &moved,
            &mut self.values,
            &mut self.marks,
            steps,
        );
        self.controls[i as usize] = value;
    }

    /// Makes moves in their order, each of a control point to a value. Each works like [`Session::move_point`]. The call
    /// takes no memory.
    ///
    /// Reports the fault of the first move that has one, and stops there. The moves before it are made; those after it are
    /// not.
    pub fn move_points<L: Ledger>(
        &mut self,
        moves: &[(u32, Point3)],
        steps: &mut Steps<L>,
    ) -> Result<(), MoveFault>
        ensures moved { OnOk result (self.new ≡ after_moves self.old (map move_of moves.now)) }
        ensures made { self.new ≡ after_moves self.old (moves_made self.old.table (map move_of moves.now)) }
        ensures cause { MatchResult result (λ _. first_fault self.old.table (map move_of moves.now) ≡ None) (λ fault. first_fault self.old.table (map move_of moves.now) ≡ Some fault) }
        ensures steps { steps.new ≡ steps.old + rows_visited self.old.table (moves_made self.old.table (map move_of moves.now)) }
    {
        for next in moves {
            self.move_point(next.0, next.1, steps)?;
        }
        Ok(())
    }

    /// Returns the number of marked points.
    pub fn changed(&self) -> u32
        ensures { result ≡ mark_count self.now.marks }
    {
        self.marks.count()
    }

    /// Returns the least marked point with its numerators, and removes its mark. Returns `None` exactly where no point is
    /// marked. The call takes no memory.
    pub fn next_changed(&mut self) -> Option<(u32, Point3)>
        ensures least { option_map (λ found. found.0) result ≡ least_mark self.old.marks }
        ensures value { IfSome result (λ found. numbers_of found.1 ≡ row_value self.old found.0) }
        ensures inside { IfSome result (λ found. found.0 < length self.old.table.rows) }
        ensures short { IfSome result (λ found. greatest_amount (numbers_of found.1) ≤ number_bound) }
        ensures state { self.new ≡ without_mark self.old (option_map (λ found. found.0) result) }
    {
        let point = self.marks.take_least()?;
        Some((point, self.values[point as usize]))
    }

    /// Returns the number of control points.
    pub fn controls(&self) -> u32
        ensures { result ≡ self.now.table.controls }
    {
        self.table.controls()
    }

    /// Returns the table.
    pub fn table(&self) -> &StencilTable
        ensures { result.now ≡ self.now.table }
    {
        &self.table
    }

    /// Returns the value of control point `i`.
    pub fn control(&self, i: u32) -> Point3
        requires { i < length self.now.controls }
        ensures { numbers_of result ≡ get_or self.now.controls i [] }
    {
        self.controls[i as usize]
    }

    /// Returns the numerators of a point, over the point's denominator.
    pub fn value(&self, point: u32) -> Point3
        requires { point < length self.now.table.rows }
        ensures { numbers_of result ≡ row_value self.now point }
    {
        self.values[point as usize]
    }

    /// Returns whether a point is marked.
    pub fn is_changed(&self, point: u32) -> bool
        requires { point < length self.now.table.rows }
        ensures { result ≡ get_or self.now.marks point false }
    {
        self.marks.is_marked(point)
    }

    /// Returns the denominator of a point.
    pub fn denominator(&self, point: u32) -> u128
        requires { point < length self.now.table.rows }
        ensures { result ≡ (row_at self.now.table point).den }
    {
        self.table.denominator(point)
    }
}
