//! Examples and laws of the words, numerals and indices of OBJ text. Each function has an empty body: its clauses are the laws.

ghost use Rattle.std.specs.Prelude.{◌≡◌, ◌-◌, ◌^◌, pos, negsuc, true, false, [], ◌∷◌, codes};
ghost use Rattle.subdiv_model.specs.ObjLine.{line_end_of, line_words};
ghost use Rattle.subdiv_model.specs.Numeral.{is_numeral, is_fraction, normal_form, numeral_form, is_in_range, form_text};
ghost use Rattle.subdiv_model.specs.ObjWord.{number_over};
ghost use Rattle.subdiv_model.specs.Index.{is_index, index_of, nearest_index};

/// The ends of lines.
pub fn line_ends()
    ensures first { line_end_of (codes "v 1\n\nf") 0 ≡ 3 }
    ensures empty { line_end_of (codes "v 1\n\nf") 4 ≡ 4 }
    ensures last { line_end_of (codes "v 1\n\nf") 5 ≡ 6 }
    ensures end { line_end_of (codes "v") 1 ≡ 1 }
{}

/// Words, blanks and comments.
pub fn words_and_comments()
    ensures none { line_words (codes " \t \r") ≡ [] }
    ensures blanks { line_words (codes " v\t1  2\t \t3\r") ≡ codes "v" ∷ codes "1" ∷ codes "2" ∷ codes "3" ∷ [] }
    ensures comment { line_words (codes "f 1 # 2 3") ≡ codes "f" ∷ codes "1" ∷ [] }
    ensures joined { line_words (codes "f 1 #2 3") ≡ codes "f" ∷ codes "1" ∷ [] }
    ensures inner { line_words (codes "o x# y") ≡ codes "o" ∷ codes "x#" ∷ codes "y" ∷ [] }
    ensures other { line_words (11 ∷ 32 ∷ 200 ∷ []) ≡ (11 ∷ []) ∷ (200 ∷ []) ∷ [] }
{}

/// Words that are numerals.
pub fn words_that_are_numerals()
    ensures digits { is_numeral (codes "007") ≡ true }
    ensures plus { is_numeral (codes "+1") ≡ true }
    ensures before { is_numeral (codes "-1.") ≡ true }
    ensures after_digits { is_numeral (codes ".5") ≡ true }
    ensures exponent { is_numeral (codes "1.e5") ≡ true }
    ensures large { is_numeral (codes "0E+00") ≡ true }
{}

/// Words that are not numerals.
pub fn words_that_are_no_numerals()
    ensures none { is_numeral [] ≡ false }
    ensures sign { is_numeral (codes "+") ≡ false }
    ensures point { is_numeral (codes ".") ≡ false }
    ensures points { is_numeral (codes "1.2.3") ≡ false }
    ensures signs { is_numeral (codes "--1") ≡ false }
    ensures mark { is_numeral (codes "1e") ≡ false }
    ensures mantissa { is_numeral (codes "e5") ≡ false }
    ensures fraction { is_numeral (codes "1e5.") ≡ false }
    ensures letters { is_numeral (codes "nan") ≡ false }
    ensures gap { is_numeral (codes "1_0") ≡ false }
{}

/// Fractions: a sign, digits, a slash, and digits that are not all zero.
pub fn words_that_are_fractions()
    ensures fraction { is_fraction (codes "5/9") ≡ true }
    ensures plus { is_numeral (codes "+07/010") ≡ true }
    ensures nought { is_numeral (codes "-0/3") ≡ true }
    ensures decimal { is_fraction (codes "0.5") ≡ false }
{}

/// Words with a slash that are not numerals.
pub fn words_that_are_no_fractions()
    ensures none { is_numeral (codes "1/0") ≡ false }
    ensures noughts { is_numeral (codes "0/00") ≡ false }
    ensures sign { is_numeral (codes "1/-2") ≡ false }
    ensures point { is_numeral (codes "1.5/2") ≡ false }
    ensures exponent { is_numeral (codes "1/2e3") ≡ false }
    ensures before { is_numeral (codes "/2") ≡ false }
    ensures after_slash { is_numeral (codes "1/") ≡ false }
    ensures twice { is_numeral (codes "1/2/3") ≡ false }
{}

/// Numerals in lowest terms, and as whole numbers over a common denominator.
pub fn numerals_in_lowest_terms()
    ensures fraction { numeral_form (codes "-10/18") ≡ (negsuc 4, 9) }
    ensures decimal { numeral_form (codes "0.50") ≡ (pos 1, 2) }
    ensures tens { numeral_form (codes "12.34e1") ≡ (pos 617, 5) }
    ensures whole { numeral_form (codes "6/3") ≡ (pos 2, 1) }
    ensures zero { numeral_form (codes "-0/7") ≡ (pos 0, 1) }
    ensures over { number_over 36 (codes "-5/9") ≡ negsuc 19 }
    ensures itself { number_over 9 (codes "5/9") ≡ pos 5 }
{}

/// Normal forms: the mantissa and the number of decimals.
pub fn normal_forms_of_numerals()
    ensures half { normal_form (codes "0.50") ≡ (pos 5, 1) }
    ensures negative { normal_form (codes "-12.340e1") ≡ (negsuc 1233, 1) }
    ensures whole { normal_form (codes "1.e3") ≡ (pos 1000, 0) }
    ensures tens { normal_form (codes "1200e-2") ≡ (pos 12, 0) }
    ensures zero { normal_form (codes "-0.00e-5") ≡ (pos 0, 0) }
    ensures zero_far { normal_form (codes "0e-999999999999999999999") ≡ (pos 0, 0) }
    ensures small { normal_form (codes "1e-000000000000000000000000000000000000001") ≡ (pos 1, 1) }
{}

/// Normal forms as texts.
pub fn normal_forms_as_texts()
    ensures negative { form_text (normal_form (codes "-12.340e1")) ≡ codes "-1234e-1" }
    ensures zero { form_text (normal_form (codes "+0.0")) ≡ codes "0e-0" }
{}

/// Numerals at the bounds of the range.
pub fn bounds_of_the_range()
    ensures most { is_in_range (codes "9999999999999999999999999999999999999") ≡ true }
    ensures past { is_in_range (codes "10000000000000000000000000000000000000") ≡ false }
    ensures fine { is_in_range (codes "1e-37") ≡ true }
    ensures finer { is_in_range (codes "1e-38") ≡ false }
    ensures even { is_in_range (codes "10e-38") ≡ true }
    ensures high { is_in_range (codes "1e36") ≡ true }
    ensures higher { is_in_range (codes "1e37") ≡ false }
    ensures numerator { is_in_range (codes "10000000000000000000000000000000000000/10000000000000000000000000000000000000") ≡ false }
    ensures denominator { is_in_range (codes "1/10000000000000000000000000000000000000") ≡ false }
    ensures zeros { is_in_range (codes "09999999999999999999999999999999999999/09999999999999999999999999999999999999") ≡ true }
{}

/// Indices, and the numbers they name.
pub fn indices_and_their_ends()
    ensures digits { is_index (codes "007") ≡ true }
    ensures minus { is_index (codes "-0") ≡ true }
    ensures plus { is_index (codes "+1") ≡ false }
    ensures none { is_index [] ≡ false }
    ensures sign { is_index (codes "-") ≡ false }
    ensures point { is_index (codes "1.") ≡ false }
    ensures number { index_of (codes "-12") ≡ negsuc 11 }
    ensures zero { index_of (codes "-0") ≡ pos 0 }
    ensures greatest { nearest_index (codes "9223372036854775808") ≡ pos (2 ^ 63 - 1) }
    ensures least { nearest_index (codes "-9223372036854775809") ≡ negsuc (2 ^ 63 - 1) }
{}
