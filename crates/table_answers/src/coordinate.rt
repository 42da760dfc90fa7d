ghost use Rattle.std.specs.Prelude.{◌≡◌, ◌^◌, ◌≤◌};
ghost use Rattle.far_model.specs.Frames.{coordinate_fault};
ghost use Rattle.subdiv_model.specs.ObjWord.{number_over};
ghost use Rattle.subdiv_model.specs.Short.{IsShort};
ghost use Rattle.obj_tags.specs.Kept.{ReadUnless};

use obj_tags::{ObjCause, numeral, numerator_over};

/// Returns the numerator of a coordinate over the common denominator, which the denominator of the coordinate must divide.
pub(crate) fn read_coordinate(word: &[u8], common: u128) -> Result<i128, ObjCause>
    requires { common ≤ 10 ^ 37 }
    ensures { ReadUnless result (coordinate_fault common word.now) (λ n. (n ≡ number_over common word.now) × IsShort n) }
{
    let number = numeral(word)?;
    if common % number.den != 0 {
        return Err(ObjCause::TooFine);
    }
    numerator_over(number, common).ok_or(ObjCause::NumberRange)
}
