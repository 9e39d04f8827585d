//! The first header whose seq stands in a later one. The headers are met from the last to the first, so that the one met last of
//! those with a seq is the first later one of the next that has it.
ghost use Rattle.std.specs.Prelude.{◌≡◌, IfOk};
ghost use Rattle.image_audit.specs.Marks.{first_repeat as first_repeat_of};

use crate::OutOfMemory;
use crate::mark::Mark;
use page_codec::Place;
use std::alloc::Global;
use std::collections::HashMap;

/// The first mark whose seq stands in a later one, and the first such later one.
pub(crate) fn first_repeat(
    alloc: Global,
    marks: &[Mark],
) -> Result<Option<(Place, Place)>, OutOfMemory>
    ensures { IfOk result (λ found. found ≡ first_repeat_of marks.now) }
{
    let mut later: HashMap<u64, Place> = HashMap::with_capacity(alloc, marks.len())?;
    let mut found = None;
    let mut left = marks.len();
    while left > 0 {
        left -= 1;
        let Mark { place, header, .. } = marks[left];
        if let Some(other) = later.insert(header.seq, place)? {
            found = Some((place, other));
        }
    }
    Ok(found)
}
