//! Laws of the first row at which tables differ.

ghost use Rattle.std.specs.Prelude.{◌≡◌, ◌≢◌, ◌↔◌, ℕ, take, slice_get, Some, None};
ghost use Rattle.subdiv_model.specs.Table.{Table};
ghost use Rattle.far_model.specs.Stored.{first_difference};

/// Two tables have no difference exactly where they are equal.
pub fn tables_without_difference_are_equal()
    ensures { (a b : Table) → (first_difference a b ≡ None) ↔ (a ≡ b) }
{}

/// The rows before the first difference are the same in both tables. There the rows differ, or one table has no row. Tables with
/// different numbers of control points differ at row 0.
pub fn rows_before_the_first_difference_are_equal()
    ensures before { (a b : Table) (row : ℕ) → a.controls ≡ b.controls → first_difference a b ≡ Some row → take row a.rows ≡ take row b.rows }
    ensures there { (a b : Table) (row : ℕ) → a.controls ≡ b.controls → first_difference a b ≡ Some row → slice_get a.rows row ≢ slice_get b.rows row }
    ensures controls { (a b : Table) → a.controls ≢ b.controls → first_difference a b ≡ Some 0 }
{}
