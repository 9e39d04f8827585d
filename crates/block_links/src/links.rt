//! List `b` is a ring: from its end, which is place `nodes + b`, over its nodes in order, and back to the end.
//! So no write asks whether a node is the first or the last of its list.
ghost use Rattle.std.specs.Prelude.{◌≡◌, ◌<◌, [], length, replicate, slice_index, IfOk, MatchOption, EachIndex};
ghost use Rattle.block_links.specs.Lists.{Lists, IsValid, list_at, appended, removed, IsFree, IsListed, IsFront, IsHome};

use std::alloc::{AllocError, Global};
use std::marker::Model;

/// Want of memory.
pub type OutOfMemory = AllocError;

/// Lists of nodes, each node in one list at most. Nodes and lists go by numbers from 0.
#[derive(Drop)]
pub struct Links {
    // the places after and before each place: the nodes first, then the ends of the lists
    next: Vec<usize>,
    prev: Vec<usize>,
    // the list that each node is in
    home: Vec<Option<u32>>,
}

impl Model for Links {
    ghost use Rattle.std.specs.Prelude.{length};
    ghost use Rattle.block_links.specs.Lists.{Lists};
    ghost use Rattle.block_links.specs.Ring.{lists_of, IsLinked};

    ghost Value = { Lists };

    ghost view = { λ a. record { nodes = length a.home.items; lists = lists_of a.next.items (length a.home.items) } };

    ghost invariant = { λ a. IsLinked a.next.items a.prev.items a.home.items (lists_of a.next.items (length a.home.items)) };
}

/// The numbers below `len`, each at its own place: rings of one place each.
fn identity(alloc: Global, len: usize) -> Result<Vec<usize>, OutOfMemory>
    ensures { IfOk result (λ v. (length v.items ≡ len) × EachIndex v.items (λ k. slice_index v.items k ≡ k)) }
{
    let mut numbers = Vec::with_capacity(alloc, len)?;
    for k in 0..len {
        numbers.push(k)?;
    }
    Ok(numbers)
}

/// No node is in a list.
fn no_homes(alloc: Global, nodes: usize) -> Result<Vec<Option<u32>>, OutOfMemory>
    ensures { IfOk result (λ home. home.items ≡ replicate nodes None) }
{
    vec![in alloc; None; nodes]
}

impl Links {
    /// Makes `buckets` empty lists for the nodes below `nodes`.
    pub fn new(alloc: Global, nodes: u32, buckets: u32) -> Result<Links, OutOfMemory>
        ensures { IfOk result (λ links. links ≡ record { nodes = nodes; lists = replicate buckets [] }) }
    {
        let places = nodes as usize + buckets as usize;
        let next = identity(alloc, places)?;
        let prev = identity(alloc, places)?;
        let home = no_homes(alloc, nodes as usize)?;
        Ok(Links { next, prev, home })
    }

    /// Puts a node, which is in no list, at the back of a list.
    pub fn push_back(&mut self, bucket: u32, node: u32)
        requires bucket { bucket < length self.old.lists }
        requires node { node < self.old.nodes }
        requires free { IsFree self.old.lists node }
        ensures { self.new ≡ record self.old { lists = appended self.old.lists bucket node } }
    {
        let node_at = node as usize;
        let end = self.home.len() + bucket as usize;
        let last = self.prev[end];
        self.next[last] = node_at;
        self.prev[node_at] = last;
        self.next[node_at] = end;
        self.prev[end] = node_at;
        self.home[node_at] = Some(bucket);
    }

    /// Takes a node out of the list that it is in. All other nodes keep their places.
    pub fn unlink(&mut self, node: u32)
        requires { IsListed self.old.lists node }
        ensures lists { self.new ≡ record self.old { lists = removed self.old.lists node } }
        ensures free { IsFree self.new.lists node }
    {
        let node_at = node as usize;
        let before = self.prev[node_at];
        let after = self.next[node_at];
        self.next[before] = after;
        self.prev[after] = before;
        self.home[node_at] = None;
    }

    /// The first node of a list, if it has one.
    pub fn front(&self, bucket: u32) -> Option<u32>
        requires { bucket < length self.now.lists }
        ensures first { MatchOption result (list_at self.now.lists bucket ≡ []) (IsFront (list_at self.now.lists bucket)) }
        ensures valid { IsValid self.now }
    {
        let end = self.home.len() + bucket as usize;
        let first = self.next[end];
        if first == end {
            None
        } else {
            Some(first as u32)
        }
    }

    /// The list that a node is in, if it is in one.
    pub fn bucket_of(&self, node: u32) -> Option<u32>
        requires { node < self.now.nodes }
        ensures home { MatchOption result (IsFree self.now.lists node) (IsHome self.now.lists node) }
        ensures valid { IsValid self.now }
    {
        self.home[node as usize]
    }
}

#[cfg(test)]
mod tests;
