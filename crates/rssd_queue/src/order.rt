//! The order of a queue's 32 nodes. A node stands in one of two lists: in the order, where a command waits in it, or among the
//! unused ones. It knows nodes, and nothing of commands.
ghost use Rattle.std.specs.Prelude.{◌≡◌, ◌<◌, ◌==◌, ◌∷◌, ◌++◌, ℕ, true, false, [], length, drop, slice_index_or};
ghost use Rattle.block_links.specs.Lists.{times, without, IsFront};
ghost use Rattle.rssd_queue.specs.Kept.{HasNodes, order_in, unused_in};

use block_links::Links;

/// The list of the nodes in which commands wait, in the order in which they were accepted.
pub(crate) const ORDER: u32 = 0;

/// The list of the other nodes.
pub(crate) const UNUSED: u32 = 1;

/// Whether a command waits in the node.
pub(crate) fn is_waiting(order: &Links, node: u32) -> bool
    requires nodes { HasNodes order.now }
    requires node { node < 32 }
    ensures waits { result ≡ true → 0 < times node (order_in order.now) }
    ensures unused { result ≡ false → times node (order_in order.now) ≡ 0 }
{
    match order.bucket_of(node) {
        Some(list) => list == ORDER,
        None => false,
    }
}

/// Whether the node is the first of the order.
pub(crate) fn is_oldest(order: &Links, node: u32) -> bool
    requires nodes { HasNodes order.now }
    requires node { node < 32 }
    ensures { result ≡ (slice_index_or (order_in order.now) 0 32 == node) }
{
    order.front(ORDER) == Some(node)
}

/// Moves the front of the order to its back.
pub(crate) fn turn(order: &mut Links) -> u32
    requires nodes { HasNodes order.old }
    requires some { 0 < length (order_in order.old) }
    ensures front { IsFront (order_in order.old) result }
    ensures turned { order.new ≡ record order.old { lists = (drop 1 (order_in order.old) ++ result ∷ []) ∷ unused_in order.old ∷ [] } }
    ensures nodes { HasNodes order.new }
{
    let Some(node) = order.front(ORDER) else {
        unreachable!()
    };
    order.unlink(node);
    order.push_back(ORDER, node);
    node
}

/// Moves the first unused node to the back of the order.
pub(crate) fn take_unused(order: &mut Links) -> u32
    requires nodes { HasNodes order.old }
    requires room { length (order_in order.old) < 32 }
    ensures unused { 0 < times result (unused_in order.old) }
    ensures taken { order.new ≡ record order.old { lists = (order_in order.old ++ result ∷ []) ∷ without result (unused_in order.old) ∷ [] } }
    ensures nodes { HasNodes order.new }
{
    let Some(node) = order.front(UNUSED) else {
        unreachable!()
    };
    order.unlink(node);
    order.push_back(ORDER, node);
    node
}

/// Moves a node of the order to the unused ones.
pub(crate) fn release(order: &mut Links, node: u32)
    requires nodes { HasNodes order.old }
    requires waits { 0 < times node (order_in order.old) }
    ensures released { order.new ≡ record order.old { lists = without node (order_in order.old) ∷ (unused_in order.old ++ node ∷ []) ∷ [] } }
    ensures nodes { HasNodes order.new }
{
    order.unlink(node);
    order.push_back(UNUSED, node);
}
