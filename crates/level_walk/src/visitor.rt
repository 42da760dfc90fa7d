//! The receiver of the levels that a walk leaves behind.

ghost use Rattle.std.specs.Prelude.{IfOk};

use ratio128::Memory;

/// Takes each level that the walk leaves behind, with its data. It may keep, count, write or drop them.
pub trait Visitor<W, C> {
    /// Relates the visitor before, a level, its data, and the visitor after.
    ghost Takes: { Self → W → C → Self → Type 0 };

    /// Takes a level, once the next one is made. Reports `Memory` where memory runs out.
    fn leave(&mut self, level: W, carried: C) -> Result<(), Memory>
        ensures { IfOk result (λ _. Takes self.old level carried self.new) };
}

/// A visitor that drops each level.
#[derive(Clone, Copy)]
pub struct Dropped;

impl<W: Drop, C: Drop> Visitor<W, C> for Dropped {
    ghost Takes = { λ _ _ _ _. Unit {0} };

    fn leave(&mut self, level: W, carried: C) -> Result<(), Memory> {
        drop(level);
        drop(carried);
        Ok(())
    }
}
