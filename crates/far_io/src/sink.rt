ghost use Rattle.std.specs.Prelude.{◌≡◌, ℕ, ◌-◌, ◌<◌, ◌≤◌, List, length, take, drop, Option, IfOk, OnOk, OnErr};
ghost use Rattle.far_io.specs.Bytes.{Rose, Added, AddedProperPrefix};

use std::fmt;

/// A write or a flush failed. The sink added nothing and counted the fault.
#[derive(Clone, Copy, Debug, PartialEq, Eq)]
pub struct WriteFailed;

impl fmt::Display for WriteFailed {
    ghost use Rattle.std.specs.Prelude.{Some, codes};

    ghost output = { λ _. Some (codes "writing failed") };

    fn fmt<W: fmt::Write>(&self, f: &mut fmt::Formatter<W>) -> fmt::Result {
        f.write_str("writing failed")
    }
}

impl std::error::Error for WriteFailed {}

/// Where bytes go. Clauses about held bytes apply to sinks that report them.
pub trait Sink {
    /// The held bytes, if the sink reports them.
    ghost held: { Self → Option (List ℕ) };

    /// How many calls have failed. The count never falls, and stops at 2^64 - 1.
    ghost faults: { Self → ℕ };

    /// A number that no call changes, such as the room of a sink of fixed size; 0 if there is none.
    ghost fixed: { Self → ℕ };

    /// Adds the first bytes of the piece after the held bytes. Returns how many: at least one, unless the piece is empty.
    ///
    /// `WriteFailed`: the call failed and added nothing.
    fn write(&mut self, piece: &[u8]) -> Result<usize, WriteFailed>
        ensures count { IfOk result (λ n. n ≤ length piece.now) }
        ensures some { IfOk result (λ n. 0 < length piece.now → 0 < n) }
        ensures added { IfOk result (λ n. Added (held self.old) (held self.new) (take n piece.now)) }
        ensures failed { OnErr result (held self.new ≡ held self.old) }
        ensures cause { OnErr result (Rose (faults self.old) (faults self.new)) }
        ensures later { faults self.old ≤ faults self.new }
        ensures fixed { fixed self.new ≡ fixed self.old };

    /// Passes on the held bytes and changes none of them. `WriteFailed`: the call failed.
    fn flush(&mut self) -> Result<(), WriteFailed>
        ensures same { held self.new ≡ held self.old }
        ensures cause { OnErr result (Rose (faults self.old) (faults self.new)) }
        ensures later { faults self.old ≤ faults self.new }
        ensures fixed { fixed self.new ≡ fixed self.old };
}

/// Adds the whole text. The call takes no memory and does not flush.
///
/// `WriteFailed`: a write failed. A prefix of the text, shorter than the text, then stays in the sink.
pub fn write_all_of<K: Sink>(sink: &mut K, text: &[u8]) -> Result<(), WriteFailed>
    ensures ok { OnOk result (Added (K.held sink.old) (K.held sink.new) text.now) }
    ensures prefix { OnErr result (AddedProperPrefix (K.held sink.old) (K.held sink.new) text.now) }
    ensures cause { OnErr result (Rose (K.faults sink.old) (K.faults sink.new)) }
    ensures later { K.faults sink.old ≤ K.faults sink.new }
    ensures fixed { K.fixed sink.new ≡ K.fixed sink.old }
{
    let mut at = 0usize;
    while at < text.len() {
        at = write_from(sink, text, at)?;
    }
    Ok(())
}

// Writes once from place `at` of the text. Returns the place after the added bytes.
fn write_from<K: Sink>(sink: &mut K, text: &[u8], at: usize) -> Result<usize, WriteFailed>
    requires { at < length text.now }
    ensures next { IfOk result (λ next. (at < next) × (next ≤ length text.now)) }
    ensures added { IfOk result (λ next. Added (K.held sink.old) (K.held sink.new) (take (next - at) (drop at text.now))) }
    ensures failed { OnErr result (K.held sink.new ≡ K.held sink.old) }
    ensures cause { OnErr result (Rose (K.faults sink.old) (K.faults sink.new)) }
    ensures later { K.faults sink.old ≤ K.faults sink.new }
    ensures fixed { K.fixed sink.new ≡ K.fixed sink.old }
{
    let n = sink.write(&text[at..])?;
    Ok(at + n)
}
