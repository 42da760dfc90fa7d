ghost use Rattle.std.specs.Prelude.{◌≡◌, ℕ, List, [], ◌++◌};
ghost use Rattle.std.specs.Borrow.{ftrue};

use std::marker::Model;

// Bytes that only clauses see. The value takes no memory, and its calls do nothing when they run.
#[derive(Drop)]
pub(crate) struct Written {
    pub ghost bytes: { List ℕ },
}

impl Model for Written {
    ghost also_owns = { λ _. ftrue };
}

impl Written {
    // Returns no bytes.
    pub(crate) fn new() -> Written
        ensures { result.bytes ≡ [] }
    {
        Written {}
    }

    // Returns these bytes followed by the piece.
    pub(crate) fn and(&self, piece: &[u8]) -> Written
        ensures { result.bytes ≡ self.now.bytes ++ piece.now }
    {
        let _ = piece;
        Written {}
    }
}
