//! The pieces of lines.

ghost use Rattle.std.specs.Prelude.{◌≡◌, ◌++◌, codes};
ghost use Rattle.subdiv_model.specs.NumberText.{number_text};
ghost use Rattle.obj_out.specs.Puts.{Puts};

use far_io::{Sink, WriteFailed};
use obj_out::Out;

// Puts two whole numbers with a slash between them.
pub(crate) fn put_pair<K: Sink>(
    out: &mut Out<'_, K>,
    first: u64,
    second: u64,
) -> Result<(), WriteFailed>
    ensures { Puts K.Sink out.old out.new (number_text first ++ (codes "/" ++ number_text second)) result }
{
    out.put_number(first)?;
    out.put_byte(b'/')?;
    out.put_number(second)
}
