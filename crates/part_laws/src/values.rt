//! Laws of the masks, values, denominators and supports of the points after a step from a part.

ghost use Rattle.std.specs.Prelude.{◌≡◌, ℕ};
ghost use Rattle.part_laws.specs.Masks.{mask_in};
ghost use Rattle.part_laws.specs.Values.{NextStep, mask_in_part, mask_in_whole};
ghost use Rattle.part_laws.specs.Values.{SharedValues, value_in_part, value_in_whole, SharedDenominators, denominator_in_part, denominator_in_whole};
ghost use Rattle.part_laws.specs.Values.{SharedSupports, support_in_part, support_in_whole};

/// If a part has all faces that the mask of a next point reads, this is the mask of its name in the whole.
pub fn masks_of_next_points_are_the_same()
    ensures { (step : NextStep) → mask_in_whole step ≡ mask_in step.part.name step.part.faces (mask_in_part step) }
{}

/// Let each corner of a part have the value of its name in the whole. Then so has each next point whose mask the part has.
pub fn values_of_next_points_are_the_same()
    ensures { (step : NextStep) (shared : SharedValues step) → value_in_part step shared ≡ value_in_whole step shared }
{}

/// Let each corner of a part have the common denominator of its name in the whole. Then so has each next point whose mask the
/// part has.
pub fn denominators_of_next_points_are_the_same()
    ensures { (step : NextStep) (shared : SharedDenominators step) → denominator_in_part step shared ≡ denominator_in_whole step shared }
{}

/// Let each corner of a part have the support of its name in the whole. Then so has each next point whose mask the part has.
pub fn supports_of_next_points_are_the_same()
    ensures { (controls : ℕ) (step : NextStep) (shared : SharedSupports step)
        → support_in_part controls step shared ≡ support_in_whole controls step shared }
{}
