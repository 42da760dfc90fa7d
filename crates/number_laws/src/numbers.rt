//! Laws of divisors, multiples, lowest terms and the texts of fractions.

ghost use Rattle.std.specs.Prelude.{◌≡◌, ℕ, ◌<◌, List, All, ◌*◌};
ghost use Rattle.std.specs.List.{All};
ghost use Rattle.std.specs.Int.{IsGcd, ◌∣◌};
ghost use Rattle.subdiv_model.specs.Fractions.{gcd_of, lowest};
ghost use Rattle.subdiv_model.specs.Multiples.{lcm_of, lcm_of_all};
ghost use Rattle.subdiv_model.specs.Value.{Value, IsSameValue};
ghost use Rattle.subdiv_model.specs.NumberText.{value_text};

/// Euclid's algorithm gives the greatest common divisor.
pub fn gcd_is_greatest()
    ensures { (a b : ℕ) → IsGcd a b (gcd_of a b) }
{}

/// The least common multiple of numbers above 0: each number divides it, and it divides every common multiple. The clauses give
/// it for two numbers and for a list.
pub fn lcm_is_least()
    ensures first { (a b : ℕ) → 0 < a → 0 < b → a ∣ lcm_of a b }
    ensures second { (a b : ℕ) → 0 < a → 0 < b → b ∣ lcm_of a b }
    ensures least { (a b n : ℕ) → 0 < a → 0 < b → a ∣ n → b ∣ n → lcm_of a b ∣ n }
    ensures each { (numbers : List ℕ) → All (λ a. 0 < a) numbers → All (λ a. a ∣ lcm_of_all numbers) numbers }
    ensures least_of_all { (numbers : List ℕ) (n : ℕ) → All (λ a. 0 < a) numbers → All (λ a. a ∣ n) numbers → lcm_of_all numbers ∣ n }
{}

/// A fraction in lowest terms has the value it had before, and its terms have no common factor but 1.
pub fn lowest_terms()
    ensures same { (a b : ℕ) → 0 < b → a * (lowest (a, b)).1 ≡ (lowest (a, b)).0 * b }
    ensures coprime { (a b : ℕ) → 0 < b → IsGcd (lowest (a, b)).0 (lowest (a, b)).1 1 }
{}

/// Fractions of equal value have the same text, whatever their terms.
pub fn equal_values_have_one_text()
    ensures { (x y : Value) → 0 < x.den → 0 < y.den → IsSameValue x y → value_text x ≡ value_text y }
{}
