//! The lines of a stored table. Each ends with LF.

ghost use Rattle.std.specs.Prelude.{◌≡◌, ◌+◌, ◌≤◌, false, nat_lt, length, drop, MatchOption};
ghost use Rattle.std.specs.List.{before_first};
ghost use Rattle.subdiv_model.specs.ObjLine.{is_lf};
ghost use Rattle.subdiv_model.specs.ReadTable.{has_line, behind_line};
ghost use Rattle.table_file.specs.Read.{IsLine};

use obj_text::line_end;

// Returns whether a line ends with LF; its end is a place of the bytes or their length.
fn is_closed(bytes: &[u8], end: usize) -> bool
    ensures { result ≡ nat_lt end (length bytes.now) }
{
    end < bytes.len()
}

// Returns the line that begins at a place, and the place after its LF. It returns `None` if no LF follows.
pub(crate) fn line_at(bytes: &[u8], at: usize) -> Option<(&[u8], usize)>
    requires { at ≤ length bytes.now }
    ensures { MatchOption result (has_line (drop at bytes.now) ≡ false) (λ found. IsLine bytes.now at found.0.now found.1) }
{
    let end = line_end(bytes, at);
    if !is_closed(bytes, end) {
        return None;
    }
    Some((&bytes[at..end], end + 1))
}
