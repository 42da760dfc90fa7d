ghost use Rattle.std.specs.Prelude.{◌≡◌, ℕ, ◌<◌, ◌≤◌, ◌↔◌, [], Contains, IsTrue, IsNone, IfSome};
ghost use Rattle.std.specs.List.{All};
ghost use Rattle.far_io.specs.Memory.{one_more, piece_of};

use std::marker::Model;

// The plan of a source or sink in memory: which calls fail, and how many bytes the others may pass on.
#[derive(Drop)]
pub(crate) struct Plan {
    fails: Vec<u32>,
    sizes: Vec<u32>,
    calls: u64,
}

impl Model for Plan {
    ghost use Rattle.std.specs.Prelude.{◌<◌};
    ghost use Rattle.std.specs.List.{All};
    ghost use Rattle.far_io.specs.Memory.{CallPlan};

    ghost Value = { CallPlan };

    ghost view = { λ p. record { fails = p.fails.items; sizes = p.sizes.items; calls = p.calls } };

    ghost invariant = { λ p. All (λ size. 0 < size) p.sizes.items };
}

impl Plan {
    // A plan whose calls pass on all the bytes they can.
    pub(crate) fn new(fails: Vec<u32>) -> Plan
        ensures fails { (result.fails ≡ fails.items) × (result.calls ≡ 0) }
        ensures sizes { result.sizes ≡ [] }
    {
        let sizes = Vec::new(*fails.allocator());
        Plan {
            fails,
            sizes,
            calls: 0,
        }
    }

    // A plan whose calls use these sizes in turn.
    pub(crate) fn in_pieces(fails: Vec<u32>, sizes: Vec<u32>) -> Plan
        requires { All (λ size. 0 < size) sizes.items }
        ensures fails { (result.fails ≡ fails.items) × (result.calls ≡ 0) }
        ensures sizes { result.sizes ≡ sizes.items }
    {
        Plan {
            fails,
            sizes,
            calls: 0,
        }
    }

    // Counts this call. Returns how many of `n` bytes it may pass on, or `None` if it fails.
    pub(crate) fn begin(&mut self, n: usize) -> Option<usize>
        ensures planned { IsNone result ↔ Contains self.old.fails self.old.calls }
        ensures piece { IfSome result (λ piece. piece ≡ piece_of self.old.sizes self.old.calls n) }
        ensures within { IfSome result (λ piece. piece ≤ n) }
        ensures some { IfSome result (λ piece. 0 < n → 0 < piece) }
        ensures same { (self.new.fails ≡ self.old.fails) × (self.new.sizes ≡ self.old.sizes) }
        ensures calls { self.new.calls ≡ one_more self.old.calls }
    {
        let call = self.calls;
        self.calls = self.calls.saturating_add(1);
        if is_planned(&self.fails, call) {
            return None;
        }
        Some(piece_size(&self.sizes, call, n))
    }
}

// Whether the plan makes this call fail.
fn is_planned(fails: &[u32], call: u64) -> bool
    ensures { IsTrue result ↔ Contains fails.now call }
{
    fails.iter().any(|f| u64::from(*f) == call)
}

// How many of `n` bytes this call passes on.
fn piece_size(sizes: &[u32], call: u64, n: usize) -> usize
    ensures { result ≡ piece_of sizes.now call n }
{
    if sizes.is_empty() {
        return n;
    }
    let at = (call % sizes.len() as u64) as usize;
    n.min(sizes[at] as usize)
}
