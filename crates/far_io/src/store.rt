ghost use Rattle.std.specs.Prelude.{◌≡◌, ℕ, ◌≤◌, ◌<◌, [], ◌++◌, length, take, drop, min, IfOk};
ghost use Rattle.far_io.specs.Memory.{Store, fitting};

use ratio128::Memory;
use std::alloc::Global;
use std::marker::Model;

// A buffer of fixed size, which takes all its memory when it is made.
#[derive(Drop)]
pub(crate) struct FixedBuffer {
    bytes: Vec<u8>,
    room: usize,
}

impl Model for FixedBuffer {
    ghost use Rattle.std.specs.Prelude.{◌≤◌, vec_len};
    ghost use Rattle.std.specs.Vec.{vec_capacity};
    ghost use Rattle.far_io.specs.Memory.{Store};

    ghost Value = { Store };

    ghost view = { λ s. record { held = s.bytes.items; room = s.room } };

    ghost invariant = { λ s. (vec_len s.bytes ≤ s.room) × (s.room ≤ vec_capacity s.bytes) };
}

impl FixedBuffer {
    pub(crate) fn with_room(alloc: Global, n: usize) -> Result<FixedBuffer, Memory>
        ensures { IfOk result (λ s. (s.held ≡ []) × (s.room ≡ n)) }
    {
        let bytes = Vec::with_capacity(alloc, n)?;
        Ok(FixedBuffer { bytes, room: n })
    }

    pub(crate) fn bytes(&self) -> &[u8]
        ensures { result.now ≡ self.now.held }
    {
        &self.bytes
    }

    // Adds as much of the piece as fits. Returns how many bytes that is.
    pub(crate) fn add(&mut self, piece: &[u8]) -> usize
        ensures count { result ≡ fitting self.old piece.now }
        ensures added { self.new.held ≡ self.old.held ++ take result piece.now }
        ensures room { self.new.room ≡ self.old.room }
        ensures within { length self.old.held ≤ self.old.room }
    {
        let n = piece.len().min(self.room - self.bytes.len());
        // The capacity suffices, so this call takes no memory and does not fail.
        let _ = self.bytes.extend_from_slice(&piece[..n]);
        n
    }
}

// Copies the longest prefix of the bytes that fits to the start of the buffer. Returns its length.
pub(crate) fn copy_prefix(bytes: &[u8], buf: &mut [u8]) -> usize
    ensures count { result ≡ min (length bytes.now) (length buf.old) }
    ensures copied { take result buf.new ≡ take result bytes.now }
    ensures rest { drop result buf.new ≡ drop result buf.old }
{
    let n = bytes.len().min(buf.len());
    buf[..n].copy_from_slice(&bytes[..n]);
    n
}
