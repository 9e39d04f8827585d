//! The pick, over the fields of a queue. A read is free where it is the first of its sector's chain: the first free read of the
//! order is taken, or else the oldest.
//!
//! Links tell only the front of a list. So the order is turned once around, node by node from its front to its back, and is then
//! as before: at most 32 steps.
ghost use Rattle.std.specs.Prelude.{◌≡◌, ◌<◌, ◌∷◌, ℕ, [], length, MatchOption};
ghost use Rattle.std.specs.List.{find};
ghost use Rattle.std.specs.Option.{option_or};
ghost use Rattle.block_links.specs.Lists.{times};
ghost use Rattle.rssd_queue.specs.Kept.{HasNodes, HasChains, IsPickedNode, order_in, sector_in, is_free_node};

use crate::ask::Tagged;
use crate::order::{ORDER, turn};
use block_links::Links;

/// How often the oldest may be passed.
const MOST_PASSED: u32 = 32;

/// Whether the node's command is a read, and the first of its sector.
fn is_free(nodes: &[Tagged], chains: &Links, node: u32) -> bool
    requires node { node < length nodes.now }
    requires node_count { length nodes.now ≡ 32 }
    requires sector { sector_in nodes.now node < length chains.now.lists }
    ensures { result ≡ is_free_node nodes.now chains.now node }
{
    let ask = &nodes[node as usize].ask;
    ask.is_read() && chains.front(ask.sector()) == Some(node)
}

/// What was found, or else the node, if it is free.
fn found_or(found: Option<u32>, chains: &Links, nodes: &[Tagged], node: u32) -> Option<u32>
    requires node { node < length nodes.now }
    requires node_count { length nodes.now ≡ 32 }
    requires sector { sector_in nodes.now node < length chains.now.lists }
    ensures { result ≡ option_or found (find (is_free_node nodes.now chains.now) (node ∷ [])) }
{
    if found.is_some() || !is_free(nodes, chains, node) {
        found
    } else {
        Some(node)
    }
}

/// The first free read of the order, which is afterwards as before.
fn first_free(order: &mut Links, chains: &Links, nodes: &[Tagged], waiting: u32) -> Option<u32>
    requires nodes { HasNodes order.old }
    requires node_count { length nodes.now ≡ 32 }
    requires sectors { (n : ℕ) → 0 < times n (order_in order.old) → sector_in nodes.now n < length chains.now.lists }
    requires waiting { waiting ≡ length (order_in order.old) }
    ensures found { result ≡ find (is_free_node nodes.now chains.now) (order_in order.old) }
    ensures order { order.new ≡ order.old }
{
    let mut found = None;
    for _ in 0..waiting {
        let node = turn(order);
        found = found_or(found, chains, nodes, node);
    }
    found
}

/// The node of the pick, if a command waits. The order is afterwards as before.
pub(crate) fn pick(
    order: &mut Links,
    chains: &Links,
    nodes: &[Tagged],
    waiting: u32,
    passed: u32,
) -> Option<u32>
    requires nodes { HasNodes order.old }
    requires chains { HasChains nodes.now (order_in order.old) chains.now (length chains.now.lists) }
    requires node_count { length nodes.now ≡ 32 }
    requires sectors { (n : ℕ) → 0 < times n (order_in order.old) → sector_in nodes.now n < length chains.now.lists }
    requires waiting { waiting ≡ length (order_in order.old) }
    ensures picked { MatchOption result (order_in order.old ≡ []) (IsPickedNode nodes.now (order_in order.old) passed) }
    ensures order { order.new ≡ order.old }
{
    let oldest = order.front(ORDER)?;
    if passed >= MOST_PASSED {
        return Some(oldest);
    }
    match first_free(order, chains, nodes, waiting) {
        Some(node) => Some(node),
        None => Some(oldest),
    }
}
