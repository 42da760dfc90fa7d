ghost use Rattle.std.specs.Prelude.{◌≡◌, ℕ, ◌+◌, ◌^◌, ◌<◌, ◌≤◌, List, [], length, take, Option, IfOk, OnOk, OnErr, Err, true, false};
ghost use Rattle.far_io.specs.declared.source.InputFault.TheVariants.{Read, Long};
ghost use Rattle.far_io.specs.Bytes.{Rose, Took, TookPrefix, TookMore, TookAtMost, IsDry};
ghost use Rattle.far_io.specs.Reads.{HasRead};

use std::alloc::{AllocError, Global};
use std::fmt;

/// A read failed. The source gave up no byte and counted the fault.
#[derive(Clone, Copy, Debug, PartialEq, Eq)]
pub struct ReadFailed;

impl fmt::Display for ReadFailed {
    ghost use Rattle.std.specs.Prelude.{Some, codes};

    ghost output = { λ _. Some (codes "reading failed") };

    fn fmt<W: fmt::Write>(&self, f: &mut fmt::Formatter<W>) -> fmt::Result {
        f.write_str("reading failed")
    }
}

impl std::error::Error for ReadFailed {}

/// Where bytes come from. Clauses about the bytes left apply to sources that report them.
pub trait Source {
    /// The bytes left, if the source reports them.
    ghost left: { Self → Option (List ℕ) };

    /// How many calls have failed. The count never falls, and stops at 2^64 - 1.
    ghost faults: { Self → ℕ };

    /// Moves the first bytes left to the start of the buffer. Returns how many.
    ///
    /// For a buffer that is not empty, 0 means the end of the input. `ReadFailed`: the call failed and took no byte. No clause describes
    /// the rest of the buffer, nor any of it after `ReadFailed`.
    fn read(&mut self, buf: &mut [u8]) -> Result<usize, ReadFailed>
        ensures count { IfOk result (λ n. n ≤ length buf.old) }
        ensures taken { IfOk result (λ n. Took (left self.old) (left self.new) (take n buf.new)) }
        ensures end { IfOk result (λ n. n ≡ 0 → 0 < length buf.old → IsDry (left self.old)) }
        ensures failed { OnErr result (left self.new ≡ left self.old) }
        ensures cause { OnErr result (Rose (faults self.old) (faults self.new)) }
        ensures later { faults self.old ≤ faults self.new };
}

/// The fault that stopped a read of a whole input.
#[derive(Clone, Copy, Debug, PartialEq, Eq)]
pub enum InputFault {
    /// A read of the source failed.
    Read,
    /// More bytes came than the bound allows.
    Long,
    /// Memory ran out.
    Memory,
}

impl fmt::Display for InputFault {
    ghost use Rattle.far_io.specs.Faults.{text_of_fault};
    ghost use Rattle.std.specs.Prelude.{Some};

    ghost output = { λ fault. Some (text_of_fault fault) };

    fn fmt<W: fmt::Write>(&self, f: &mut fmt::Formatter<W>) -> fmt::Result {
        f.write_str(match self {
            InputFault::Read => "reading failed",
            InputFault::Long => "input is too long",
            InputFault::Memory => "out of memory",
        })
    }
}

impl std::error::Error for InputFault {}

impl From<AllocError> for InputFault {
    ghost use Rattle.std.specs.Prelude.{◌≡◌};
    ghost use Rattle.far_io.specs.declared.source.InputFault.TheVariants.{Memory};

    ghost from_gives = { λ _ e. e ≡ Memory };

    fn from(_: AllocError) -> Self {
        InputFault::Memory
    }
}

// Whether `count` bytes are more than the bound allows.
fn is_long(count: usize, bound: usize) -> bool
    ensures long { result ≡ true → bound < count }
    ensures short { result ≡ false → count ≤ bound }
{
    count > bound
}

// Reads once to the start of the piece. Returns how many bytes came.
fn read_piece<S: Source>(source: &mut S, piece: &mut [u8]) -> Result<usize, InputFault>
    ensures count { IfOk result (λ n. n ≤ length piece.old) }
    ensures taken { IfOk result (λ n. Took (S.left source.old) (S.left source.new) (take n piece.new)) }
    ensures end { IfOk result (λ n. n ≡ 0 → 0 < length piece.old → IsDry (S.left source.old)) }
    ensures failed { OnErr result (S.left source.new ≡ S.left source.old) }
    ensures fault { OnErr result (result ≡ Err Read) }
    ensures cause { OnErr result (Rose (S.faults source.old) (S.faults source.new)) }
    ensures later { S.faults source.old ≤ S.faults source.new }
{
    match source.read(piece) {
        Ok(n) => Ok(n),
        Err(ReadFailed) => Err(InputFault::Read),
    }
}

// Reads all bytes up to the end of the input into an empty list. If memory runs out for a piece, the bytes of that piece are lost.
fn read_into<S: Source>(source: &mut S, bound: usize, bytes: &mut Vec<u8>) -> Result<(), InputFault>
    requires bound { bound < 2 ^ 32 }
    requires none { bytes.old.items ≡ [] }
    ensures read { HasRead result bound (S.left source.old) (S.left source.new) bytes.new.items }
    ensures failed { result ≡ Err Read → Rose (S.faults source.old) (S.faults source.new) }
    ensures later { S.faults source.old ≤ S.faults source.new }
{
    let mut piece = [0u8; 4096];
    // Each turn but the last takes at least one byte.
    for _ in 0..bound + 1 {
        let n = read_piece(source, &mut piece)?;
        if n == 0 {
            return Ok(());
        }
        bytes.extend_from_slice(&piece[..n])?;
        if is_long(bytes.len(), bound) {
            return Err(InputFault::Long);
        }
    }
    Err(InputFault::Long)
}

/// Returns all bytes up to the end of the input, at most `bound`, which is below 2^32.
///
/// - `Long`: more than `bound` bytes came.
/// - `Read`: a read of the source failed.
/// - `Memory`: memory ran out.
///
/// An input of more than `bound` bytes never gives `Ok`. After an error the bytes taken from the source are lost.
pub fn read_all<S: Source>(
    alloc: Global,
    source: &mut S,
    bound: usize,
) -> Result<Vec<u8>, InputFault>
    requires { bound < 2 ^ 32 }
    ensures all { IfOk result (λ bytes. Took (S.left source.old) (S.left source.new) bytes.items) }
    ensures dry { OnOk result (IsDry (S.left source.new)) }
    ensures short { IfOk result (λ bytes. length bytes.items ≤ bound) }
    ensures long { result ≡ Err Long → TookMore bound (S.left source.old) (S.left source.new) }
    ensures prefix { OnErr result (TookPrefix (S.left source.old) (S.left source.new)) }
    ensures failed { result ≡ Err Read → Rose (S.faults source.old) (S.faults source.new) }
    ensures within { result ≡ Err Read → TookAtMost bound (S.left source.old) (S.left source.new) }
    ensures later { S.faults source.old ≤ S.faults source.new }
{
    let mut bytes = Vec::new(alloc);
    read_into(source, bound, &mut bytes)?;
    Ok(bytes)
}
