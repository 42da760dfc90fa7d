//! Parts of the bytes read: the first LF, and reads of a bounded number of bytes.

ghost use Rattle.std.specs.Prelude.{◌≡◌, ℕ, ◌+◌, ◌<◌, ◌≤◌, [], ◌∷◌, length, take, drop, IfOk, OnErr, true, false};
ghost use Rattle.std.specs.List.{position};
ghost use Rattle.far_io.specs.Bytes.{Rose, Took, TookOne, IsDry};
ghost use Rattle.far_io.specs.Lines.{is_lf, HasNoLf};

use crate::{ReadFailed, Source};

// The place of the first LF. The first `searched` bytes contain none.
pub(crate) fn first_lf(bytes: &[u8], searched: usize) -> Option<usize>
    requires within { searched ≤ length bytes.now }
    requires plain { HasNoLf (take searched bytes.now) }
    ensures { result ≡ position is_lf bytes.now }
{
    match lf_of(&bytes[searched..]) {
        Some(at) => Some(searched + at),
        None => None,
    }
}

// The place of the first LF.
fn lf_of(bytes: &[u8]) -> Option<usize>
    ensures { result ≡ position is_lf bytes.now }
{
    bytes.iter().position(|byte| *byte == b'\n')
}

// Reads once, at most `most` bytes, to the start of the piece.
pub(crate) fn read_within<S: Source>(
    source: &mut S,
    piece: &mut [u8],
    most: usize,
) -> Result<usize, ReadFailed>
    requires room { 0 < length piece.old }
    requires some { 0 < most }
    ensures count { IfOk result (λ n. n ≤ length piece.old) }
    ensures few { IfOk result (λ n. n ≤ most) }
    ensures taken { IfOk result (λ n. Took (S.left source.old) (S.left source.new) (take n piece.new)) }
    ensures end { IfOk result (λ n. n ≡ 0 → IsDry (S.left source.new)) }
    ensures failed { OnErr result (S.left source.new ≡ S.left source.old) }
    ensures cause { OnErr result (Rose (S.faults source.old) (S.faults source.new)) }
    ensures later { S.faults source.old ≤ S.faults source.new }
{
    let size = most.min(piece.len());
    source.read(&mut piece[..size])
}

// Reads once, at most `most` bytes, into the buffer from place `end` on.
pub(crate) fn read_behind<S: Source>(
    source: &mut S,
    bytes: &mut [u8],
    end: usize,
    most: usize,
) -> Result<usize, ReadFailed>
    requires room { end < length bytes.old }
    requires some { 0 < most }
    ensures before { take end bytes.new ≡ take end bytes.old }
    ensures same { length bytes.new ≡ length bytes.old }
    ensures count { IfOk result (λ n. end + n ≤ length bytes.old) }
    ensures few { IfOk result (λ n. n ≤ most) }
    ensures taken { IfOk result (λ n. Took (S.left source.old) (S.left source.new) (take n (drop end bytes.new))) }
    ensures end { IfOk result (λ n. n ≡ 0 → IsDry (S.left source.new)) }
    ensures failed { OnErr result (S.left source.new ≡ S.left source.old) }
    ensures cause { OnErr result (Rose (S.faults source.old) (S.faults source.new)) }
    ensures later { S.faults source.old ≤ S.faults source.new }
{
    read_within(source, &mut bytes[end..], most)
}

// Reads one byte and drops it. Returns whether there was one.
pub(crate) fn has_more<S: Source>(source: &mut S) -> Result<bool, ReadFailed>
    ensures came { IfOk result (λ more. more ≡ true → TookOne (S.left source.old) (S.left source.new)) }
    ensures same { IfOk result (λ more. more ≡ false → Took (S.left source.old) (S.left source.new) []) }
    ensures end { IfOk result (λ more. more ≡ false → IsDry (S.left source.new)) }
    ensures failed { OnErr result (S.left source.new ≡ S.left source.old) }
    ensures cause { OnErr result (Rose (S.faults source.old) (S.faults source.new)) }
    ensures later { S.faults source.old ≤ S.faults source.new }
{
    let mut piece = [0u8; 1];
    let n = read_within(source, &mut piece, 1)?;
    Ok(n > 0)
}
