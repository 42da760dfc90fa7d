//! The texts of sharpness.

ghost use Rattle.std.specs.Prelude.{◌≡◌, ◌∷◌};
ghost use Rattle.subdiv_model.specs.NumberText.{ratio_text};
ghost use Rattle.subdiv_model.specs.Text.{sharpness_text};
ghost use Rattle.sharpness_rules.specs.View.{sharpness_of};
ghost use Rattle.obj_out.specs.Puts.{Puts};

use crate::words::put_pair;
use far_io::{Sink, WriteFailed};
use obj_out::Out;
use sharpness_rules::Sharpness;

// Puts the numerator, and the denominator after it unless that is 1.
fn put_ratio<K: Sink>(out: &mut Out<'_, K>, num: u64, den: u64) -> Result<(), WriteFailed>
    ensures { Puts K.Sink out.old out.new (ratio_text (num, den)) result }
{
    if den == 1 {
        out.put_number(num)
    } else {
        put_pair(out, num, den)
    }
}

// Puts a sharpness in lowest terms, or 10 for an infinite one.
fn put_sharpness<K: Sink>(out: &mut Out<'_, K>, sharpness: Sharpness) -> Result<(), WriteFailed>
    ensures { Puts K.Sink out.old out.new (sharpness_text (sharpness_of sharpness)) result }
{
    match sharpness {
        Sharpness::Smooth => out.put_byte(b'0'),
        Sharpness::Semi(value) => put_ratio(out, value.num(), value.den()),
        Sharpness::Infinite => out.put_bytes(b"10"),
    }
}

// Puts a space and a sharpness.
pub(crate) fn put_sharpness_word<K: Sink>(
    out: &mut Out<'_, K>,
    sharpness: Sharpness,
) -> Result<(), WriteFailed>
    ensures { Puts K.Sink out.old out.new (32 ∷ sharpness_text (sharpness_of sharpness)) result }
{
    out.put_byte(b' ')?;
    put_sharpness(out, sharpness)
}
