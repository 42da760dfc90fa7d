//! Laws of numbers: whole numbers, values and sharpnesses are read back from their texts.

ghost use Rattle.std.specs.Prelude.{◌≡◌, ℕ, pos, ◌<◌, false, length, IsTrue};
ghost use Rattle.std.specs.Int.{◌∣◌};
ghost use Rattle.std.specs.List.{list_all};
ghost use Rattle.subdiv_model.specs.Digits.{is_digit, number_of_digits, has_minus};
ghost use Rattle.subdiv_model.specs.Index.{is_index, index_of};
ghost use Rattle.subdiv_model.specs.Numeral.{is_numeral, numeral_amount, numeral_form, terms_value};
ghost use Rattle.subdiv_model.specs.NumberText.{number_text, value_text};
ghost use Rattle.subdiv_model.specs.Sharpness.{Sharpness, sharpness_of_fraction, is_proper_sharpness};
ghost use Rattle.subdiv_model.specs.Text.{sharpness_text};
ghost use Rattle.subdiv_model.specs.Value.{Value, IsSameValue};
ghost use Rattle.text_laws.specs.Laws.{lowest_terms, read_over};

/// The text of a whole number is one or more digits. As digits and as an index it is read as the number.
pub fn whole_numbers_are_read_back()
    ensures digits { (n : ℕ) → IsTrue (list_all is_digit (number_text n)) }
    ensures some { (n : ℕ) → 0 < length (number_text n) }
    ensures number { (n : ℕ) → number_of_digits (number_text n) ≡ n }
    ensures index { (n : ℕ) → IsTrue (is_index (number_text n)) }
    ensures place { (n : ℕ) → index_of (number_text n) ≡ pos n }
{}

/// The text of a value is a numeral that is read as the value in lowest terms. Over a multiple of the lowest denominator, the
/// number that is read has the value.
pub fn values_are_read_back()
    ensures numeral { (value : Value) → 0 < value.den → IsTrue (is_numeral (value_text value)) }
    ensures terms { (value : Value) → 0 < value.den → numeral_form (value_text value) ≡ lowest_terms value }
    ensures same { (value : Value) → 0 < value.den → IsSameValue (terms_value (lowest_terms value)) value }
    ensures over { (common : ℕ) (value : Value) → 0 < value.den → (lowest_terms value).1 ∣ common → IsSameValue (read_over common value) value }
{}

/// The text of a sharpness is a numeral without a minus. It is read as the sharpness.
pub fn sharpnesses_are_read_back()
    ensures numeral { (s : Sharpness) → IsTrue (is_proper_sharpness s) → IsTrue (is_numeral (sharpness_text s)) }
    ensures unsigned { (s : Sharpness) → has_minus (sharpness_text s) ≡ false }
    ensures sharpness { (s : Sharpness) → IsTrue (is_proper_sharpness s) → sharpness_of_fraction (numeral_amount (sharpness_text s)) ≡ s }
{}
