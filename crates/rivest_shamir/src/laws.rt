//! What the test of given cells means, apart from any call.

ghost use Rattle.std.specs.Prelude.{◌≡◌, ◌↔◌, List, Bool, true};
ghost use Rattle.rivest_shamir.specs.Words.{IsLeast, is_least};

/// The test holds of exactly those cells that are of least charge among all that carry the message over the old ones.
pub fn given_cells_are_least()
    ensures { (old message new : List Bool) → (is_least old message new ≡ true) ↔ IsLeast old message new }
{}
