ghost use Rattle.std.specs.Prelude.{◌≡◌, ℕ, ◌++◌, ◌≤◌, length, take, drop, min, IsOk, IfOk, Some};

use far_io::{ReadFailed, Source};
use std::marker::Model;

/// A source over the bytes of a slice. Its reads never fail. Contracts see the bytes left.
#[derive(Drop)]
pub struct SliceSource<'a> {
    bytes: &'a [u8],
}

impl<'a> Model for SliceSource<'a> {
    ghost use Rattle.std.specs.Prelude.{ℕ, List};

    ghost Value = { List ℕ };

    ghost view = { λ s. s.bytes.now };
}

// Copies the longest prefix of the bytes that fits to the start of the buffer. Returns its length.
fn copy_first(bytes: &[u8], buf: &mut [u8]) -> usize
    ensures count { result ≡ min (length bytes.now) (length buf.old) }
    ensures copied { take result buf.new ≡ take result bytes.now }
    ensures rest { drop result buf.new ≡ drop result buf.old }
{
    let n = bytes.len().min(buf.len());
    buf[..n].copy_from_slice(&bytes[..n]);
    n
}

impl<'a> SliceSource<'a> {
    /// Returns a source of these bytes.
    pub fn new(bytes: &'a [u8]) -> SliceSource<'a>
        ensures { result ≡ bytes.now }
    {
        SliceSource { bytes }
    }
}

impl<'a> Source for SliceSource<'a> {
    ghost left = { λ s. Some s };

    ghost faults = { λ _. 0 };

    /// Reads as many bytes as are left and fit into the buffer. The rest of the buffer keeps its bytes.
    fn read(&mut self, buf: &mut [u8]) -> Result<usize, ReadFailed>
        ensures fine { IsOk result }
        ensures count { IfOk result (λ n. n ≡ min (length self.old) (length buf.old)) }
        ensures taken { IfOk result (λ n. self.old ≡ take n buf.new ++ self.new) }
        ensures rest { IfOk result (λ n. drop n buf.new ≡ drop n buf.old) }
    {
        let bytes = self.bytes;
        let n = copy_first(bytes, buf);
        self.bytes = &bytes[n..];
        Ok(n)
    }
}
