//! A node's place in its list is the time of its last change: what changes goes to the back.
ghost use Rattle.std.specs.Prelude.{◌≡◌, ◌<◌, false, length, IsTrue};
ghost use Rattle.block_links.specs.Lists.{appended, removed, IsFree, IsListed};
ghost use Rattle.block_state.specs.Kept.{relisted};

use block_links::Links;

/// Moves a node, which is in a list, to the back of a list.
pub(crate) fn move_to_back(links: &mut Links, bucket: u32, node: u32)
    requires bucket { bucket < length links.old.lists }
    requires node { node < links.old.nodes }
    requires listed { IsListed links.old.lists node }
    ensures { links.new ≡ record links.old { lists = appended (removed links.old.lists node) bucket node } }
{
    links.unlink(node);
    links.push_back(bucket, node);
}

/// Puts a node that is newly to be listed at the back of a list, and takes one out that no longer is.
pub(crate) fn relist(links: &mut Links, was: bool, now: bool, bucket: u32, node: u32)
    requires bucket { bucket < length links.old.lists }
    requires node { node < links.old.nodes }
    requires listed { IsTrue was → IsListed links.old.lists node }
    requires free { was ≡ false → IsFree links.old.lists node }
    ensures { links.new ≡ record links.old { lists = relisted was now links.old.lists bucket node } }
{
    match (was, now) {
        (false, true) => links.push_back(bucket, node),
        (true, false) => links.unlink(node),
        (false, false) | (true, true) => {}
    }
}
