ghost use Rattle.std.specs.Prelude.{◌≡◌, ℕ, ◌+◌, ◌<◌};

use std::marker::Model;
use std::sync::ledger::{Book, Ledger, Share};

/// A counter of steps that takes no bytes. Only contracts read the count, and only `tick` changes it.
#[derive(Drop)]
pub struct Steps<L: Ledger> {
    book: Book<L>,
    share: Share<L>,
}

impl<L: Ledger> Model for Steps<L> {
    ghost Value = { ℕ };

    ghost view = { λ s. s.book.total };

    ghost invariant = { λ s. 0 < s.share.parts };
}

impl<L: Ledger> Steps<L> {
    /// Returns the counter, at 0, of a ledger that was just opened. A ledger is opened once, so generic code cannot make a second
    /// counter of it.
    pub fn start(opened: (Book<L>, Share<L>)) -> Steps<L>
        requires fresh { opened.0.total ≡ 0 }
        requires parts { 0 < opened.1.parts }
        ensures { result ≡ 0 }
    {
        let (book, share) = opened;
        Steps { book, share }
    }

    /// Counts one step.
    pub fn tick(&mut self)
        ensures { self.new ≡ self.old + 1 }
    {
        self.book.add(&mut self.share, 1);
    }
}
