//! Which blocks have a live record.
ghost use Rattle.std.specs.Prelude.{◌≡◌, ◌<◌, true, false, IfOk};
ghost use Rattle.std.specs.List.{All};
ghost use Rattle.page_codec.specs.Geometry.{page_count};
ghost use Rattle.image_audit.specs.Said.{AllTaken, SomeUntaken};

use crate::OutOfMemory;
use crate::geometry::Geometry;
use crate::mark::Mark;
use std::alloc::Global;

/// Whether a live record stands in every block.
pub(crate) fn all_have_live(
    alloc: Global,
    geometry: &Geometry,
    live: &[Mark],
) -> Result<bool, OutOfMemory>
    requires { All (λ mark. mark.place.page < page_count geometry.now) live.now }
    ensures all { IfOk result (λ all. all ≡ true → AllTaken geometry.now live.now) }
    ensures some { IfOk result (λ all. all ≡ false → SomeUntaken geometry.now live.now) }
{
    let mut has_live = vec![in alloc; false; geometry.blocks as usize]?;
    for mark in live {
        has_live[(mark.place.page / geometry.pages) as usize] = true;
    }
    Ok(has_live.iter().all(|has| *has))
}
