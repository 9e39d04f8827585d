//! What an upgrade keeps.
ghost use Rattle.std.specs.Prelude.{◌≡◌, ℕ, List, Ok, true};
ghost use Rattle.die_image.specs.declared.head.ImageHead.{ImageHead as Head};
ghost use Rattle.die_image.specs.Image.{image_read};
ghost use Rattle.rssd_run.specs.Upgrades.{KeepsSectors};

/// Where bytes are an image of version 1, the image of version 2 of its head and cells is read again as the same head and cells,
/// and what is read of it stands for the same sectors.
pub fn upgrades_keep_the_sectors()
    ensures { (bytes : List ℕ) (head : Head) (cells : List ℕ) → image_read true bytes ≡ Ok (head, cells) → KeepsSectors head cells }
{}
