//! What holds of images and of their readers, apart from any call.
ghost use Rattle.std.specs.Prelude.{◌≡◌, ℕ, ◌≤◌, Bool, false, List, ◌++◌, length, Ok};
ghost use Rattle.die_image.specs.declared.error.ImageError.{ImageError as Error};
ghost use Rattle.die_image.specs.declared.head.ImageHead.{ImageHead as Head};
ghost use Rattle.die_image.specs.Image.{image_read, wanted, AreCells, Fed};
ghost use Rattle.die_image.specs.Reach.{IsWithinReach, IsRefusedAnyway};

/// What is read of an image, in either version, are the cells of a device that may have its head, and no pad cell is charged.
pub fn read_cells_fit_their_head()
    ensures { (is_old : Bool) (bytes : List ℕ) (head : Head) (cells : List ℕ) → image_read is_old bytes ≡ Ok (head, cells) → AreCells head cells }
{}

/// A reader that is fed no more than it wants stays within its reach.
pub fn what_is_wanted_is_within_reach()
    ensures { (fed : Fed) (piece : List ℕ) → fed.is_failed ≡ false → IsWithinReach fed → length piece ≤ wanted fed
        → IsWithinReach (record fed { bytes = fed.bytes ++ piece }) }
{}

/// Where a reader that has not failed wants no more, what it was fed is refused, and no byte behind it changes that.
pub fn what_wants_no_more_is_refused()
    ensures { (fed : Fed) → fed.is_failed ≡ false → wanted fed ≡ 0 → (why : Error) × IsRefusedAnyway fed.is_old fed.bytes why }
{}
