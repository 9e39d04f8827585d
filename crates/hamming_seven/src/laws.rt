//! What the test of given cells means, apart from any call.

ghost use Rattle.std.specs.Prelude.{◌≡◌, ◌↔◌, List, Bool, true};
ghost use Rattle.hamming_seven.specs.Words.{IsFirst, is_first};

/// The test holds of exactly those cells that come before all others that carry the message over the old ones.
pub fn given_cells_come_first()
    ensures { (old message new : List Bool) → (is_first old message new ≡ true) ↔ IsFirst old message new }
{}
