//! Laws of numerals and their normal forms.

ghost use Rattle.std.specs.Prelude.{◌≡◌, ◌≤◌, ℕ, ℤ, true, false, List, IsTrue};
ghost use Rattle.subdiv_model.specs.Numeral.{is_numeral, is_decimal, is_fraction, numeral_value, decimal_value, normal_form, is_in_range, numeral_form, terms_value, form_value, form_text};
ghost use Rattle.subdiv_model.specs.Value.{IsSameValue};
ghost use Rattle.subdiv_model.specs.ObjWord.{is_representable};

/// The normal form of a decimal has its value.
pub fn normal_forms_keep_the_value()
    ensures { (word : List ℕ) → IsSameValue (form_value (normal_form word)) (decimal_value word) }
{}

/// The normal form of a decimal has the fewest decimals among all forms of its value.
pub fn normal_forms_have_the_least_decimals()
    ensures { (word : List ℕ) (mantissa : ℤ) (decimals : ℕ) → IsSameValue (form_value (mantissa, decimals)) (decimal_value word)
        → (normal_form word).1 ≤ decimals }
{}

/// Two decimals have the same normal form exactly where they have the same value.
pub fn normal_forms_tell_values_apart()
    ensures value { (v w : List ℕ) → normal_form v ≡ normal_form w → IsSameValue (decimal_value v) (decimal_value w) }
    ensures form { (v w : List ℕ) → IsSameValue (decimal_value v) (decimal_value w) → normal_form v ≡ normal_form w }
{}

/// Writing a normal form as a decimal and reading it returns the same normal form.
pub fn normal_forms_are_read_back()
    ensures decimal { (word : List ℕ) → is_decimal (form_text (normal_form word)) ≡ true }
    ensures form { (word : List ℕ) → normal_form (form_text (normal_form word)) ≡ normal_form word }
{}

/// The reader keeps a numeral exactly where it is in range.
pub fn kept_numerals_are_in_range()
    ensures { (word : List ℕ) → IsTrue (is_numeral word) → is_representable word ≡ is_in_range word }
{}

/// The terms of a numeral have its value. Two numerals have the same terms exactly where they have the same value, be they
/// decimals or fractions.
pub fn numerals_of_one_value_have_one_form()
    ensures value { (word : List ℕ) → IsTrue (is_numeral word) → IsSameValue (terms_value (numeral_form word)) (numeral_value word) }
    ensures form { (v w : List ℕ) → IsTrue (is_numeral v) → IsTrue (is_numeral w) → IsSameValue (numeral_value v) (numeral_value w)
        → numeral_form v ≡ numeral_form w }
    ensures same { (v w : List ℕ) → IsTrue (is_numeral v) → IsTrue (is_numeral w) → numeral_form v ≡ numeral_form w
        → IsSameValue (numeral_value v) (numeral_value w) }
{}

/// A decimal is no fraction.
pub fn decimals_are_no_fractions()
    ensures { (word : List ℕ) → IsTrue (is_decimal word) → is_fraction word ≡ false }
{}
