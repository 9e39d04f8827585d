//! What holds of every table, apart from any call.

ghost use Rattle.std.specs.Prelude.{◌≡◌, ◌↔◌, ◌≤◌, ℕ, List, Bool, true, length};
ghost use Rattle.coset_code.specs.Sums.{IsFreeSum, is_free_sum};
ghost use Rattle.coset_code.specs.Solution.{AtMostOneBasisSolution, IsBasisSolution, is_basis_solution};

/// At most one basis solution has a given sum, for every table and all old cells.
pub fn basis_solution_is_unique()
    ensures { (columns : List ℕ) (old : List Bool) → AtMostOneBasisSolution columns old }
{}

/// The test of a free sum holds exactly for the free sums.
pub fn free_sums_are_tested()
    ensures { (columns : List ℕ) (old : List Bool) (n v : ℕ) → is_free_sum columns old n v ≡ true ↔ IsFreeSum columns old n v }
{}

/// The test of a basis solution holds exactly for the basis solutions, at rows with no cell past the last column.
pub fn basis_solutions_are_tested()
    ensures { (columns : List ℕ) (old new : List Bool) → length new ≤ length columns → is_basis_solution columns old new ≡ true ↔ IsBasisSolution columns old new }
{}
