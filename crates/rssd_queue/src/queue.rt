//! The queue. Commands stand in 32 nodes. One list of nodes has the order in which they were accepted, and one for each sector,
//! its chain, the order of that sector's commands. Only `new` takes memory.
ghost use Rattle.std.specs.Prelude.{◌≡◌, ◌==◌, ◌≤◌, ◌<◌, ◌+◌, ◌∷◌, ◌++◌, ℕ, [], true, false, length, if◌then◌else◌, IfOk, IfSome, IfNone, IfErr, OnErr, OnOk};
ghost use Rattle.rssd_queue.specs.Asks.{sector_of, is_long};
ghost use Rattle.rssd_queue.specs.Waiting.{Accepts, Refuses, IsAsked, empty, no_command as nothing, waits, accepted};
ghost use Rattle.rssd_queue.specs.Pick.{Takes};
ghost use Rattle.rssd_queue.specs.Kept.{HasNodes, commands_in, order_in};

use crate::ask::{Ask, Tagged};
use crate::order::{UNUSED, is_oldest, is_waiting, release, take_unused};
use crate::pick::pick;
use block_links::Links;
use std::alloc::{AllocError, Global};
use std::marker::Model;
use std::mem;
use thiserror::Error;

/// Want of memory.
pub type OutOfMemory = AllocError;

/// How many commands may wait.
const NODES: u32 = 32;

/// Why a command was not accepted.
#[derive(Clone, Copy, Debug, PartialEq, Eq, Error)]
pub enum PutRefusal {
    #[error("as many commands wait as may")]
    Full = 1,
    #[error("a command with this tag waits")]
    TagBusy = 2,
    #[error("the sector is out of range")]
    BadSector = 3,
    #[error("a write has more bytes than a sector")]
    Long = 4,
}

/// Waiting commands, in the order in which they were accepted.
#[derive(Drop)]
pub struct Queue {
    nodes: Vec<Tagged>,
    // the nodes in which commands wait, in the order in which these were accepted, and the other nodes
    order: Links,
    // for each sector the part of the order with its commands
    chains: Links,
    // how many commands wait
    waiting: u32,
    // how often the oldest was passed
    passed: u32,
    sectors: u32,
    sector_bytes: u32,
}

impl Model for Queue {
    ghost use Rattle.rssd_queue.specs.Waiting.{Waiting};
    ghost use Rattle.rssd_queue.specs.Kept.{IsKept, commands_in, order_in};

    ghost Value = { Waiting };

    ghost view = { λ q. record {
      commands = commands_in q.nodes.items (order_in q.order);
      passed = q.passed;
      sectors = q.sectors;
      sector_bytes = q.sector_bytes;
    } };

    ghost invariant = { λ q. IsKept q.nodes.items q.order q.chains q.waiting q.passed q.sectors q.sector_bytes };
}

/// What an unused node holds.
fn no_command() -> Tagged
    ensures { result ≡ nothing }
{
    Tagged {
        tag: 0,
        ask: Ask::Read { sector: 0 },
    }
}

/// Nodes without commands.
fn unused_nodes(alloc: Global) -> Result<Vec<Tagged>, OutOfMemory>
    ensures { IfOk result (λ nodes. length nodes.items ≡ 32) }
{
    let mut nodes = Vec::with_capacity(alloc, NODES as usize)?;
    for _ in 0..NODES {
        nodes.push(no_command())?;
    }
    Ok(nodes)
}

/// The order of no commands: all nodes are unused.
fn unused_order(alloc: Global) -> Result<Links, OutOfMemory>
    ensures { IfOk result (λ order. HasNodes order × (order_in order ≡ [])) }
{
    let mut order = Links::new(alloc, NODES, 2)?;
    for node in 0..NODES {
        order.push_back(UNUSED, node);
    }
    Ok(order)
}

/// The command as it waits.
fn filled(command: Tagged, sector_bytes: u32) -> Tagged
    requires fits { is_long sector_bytes command.ask ≡ false }
    requires few_bytes { sector_bytes ≤ 512 }
    ensures { result ≡ accepted sector_bytes command }
{
    let Tagged { tag, mut ask } = command;
    ask.fill_up(sector_bytes);
    Tagged { tag, ask }
}

/// How often the oldest was passed after a serve.
fn passed_once_more(passed: u32, is_oldest: bool) -> u32
    requires { passed ≤ 32 }
    ensures { result ≡ (if is_oldest then 0 else passed + 1) }
{
    if is_oldest { 0 } else { passed + 1 }
}

/// Whether a command with this tag waits.
fn tag_waits(order: &Links, nodes: &[Tagged], tag: u32) -> bool
    requires nodes { HasNodes order.now }
    requires node_count { length nodes.now ≡ 32 }
    ensures { result ≡ waits (commands_in nodes.now (order_in order.now)) tag }
{
    for node in 0..NODES {
        if is_waiting(order, node) && nodes[node as usize].tag == tag {
            return true;
        }
    }
    false
}

impl Queue {
    /// A queue in which nothing waits, for the sectors below `sectors`, each of `sector_bytes` bytes.
    pub fn new(alloc: Global, sectors: u32, sector_bytes: u32) -> Result<Queue, OutOfMemory>
        requires some_sectors { 1 ≤ sectors }
        requires some_bytes { 1 ≤ sector_bytes }
        requires few_bytes { sector_bytes ≤ 512 }
        ensures { IfOk result (λ queue. queue ≡ empty sectors sector_bytes) }
    {
        let nodes = unused_nodes(alloc)?;
        let order = unused_order(alloc)?;
        let chains = Links::new(alloc, NODES, sectors)?;
        Ok(Queue {
            nodes,
            order,
            chains,
            waiting: 0,
            passed: 0,
            sectors,
            sector_bytes,
        })
    }

    /// Whether as many commands wait as may.
    pub fn is_full(&self) -> bool
        ensures { result ≡ (length self.now.commands == 32) }
    {
        self.waiting == NODES
    }

    /// Why a command would not be accepted now, if it would not.
    fn refusal(&self, command: &Tagged) -> Option<PutRefusal>
        ensures room { IfNone result (length self.now.commands < 32) }
        ensures new_tag { IfNone result (waits self.now.commands command.now.tag ≡ false) }
        ensures in_range { IfNone result (sector_of command.now.ask < self.now.sectors) }
        ensures fits { IfNone result (is_long self.now.sector_bytes command.now.ask ≡ false) }
        ensures refused { IfSome result (Refuses self.now command.now) }
    {
        if self.is_full() {
            Some(PutRefusal::Full)
        } else if tag_waits(&self.order, &self.nodes, command.tag) {
            Some(PutRefusal::TagBusy)
        } else if command.ask.sector() >= self.sectors {
            Some(PutRefusal::BadSector)
        } else if command.ask.is_long(self.sector_bytes) {
            Some(PutRefusal::Long)
        } else {
            None
        }
    }

    /// Puts a command last. A write's bytes are filled up with zero bytes.
    fn accept(&mut self, command: Tagged)
        requires room { length self.old.commands < 32 }
        requires in_range { sector_of command.ask < self.old.sectors }
        requires fits { is_long self.old.sector_bytes command.ask ≡ false }
        ensures { self.new ≡ record self.old { commands = self.old.commands ++ accepted self.old.sector_bytes command ∷ [] } }
    {
        let command = filled(command, self.sector_bytes);
        let node = take_unused(&mut self.order);
        self.chains.push_back(command.ask.sector(), node);
        self.nodes[node as usize] = command;
        self.waiting += 1;
    }

    /// Accepts a command, which then waits last. A write's bytes are filled up with zero bytes.
    ///
    /// # Errors
    ///
    /// `Full` where 32 commands wait, `TagBusy` where one with this tag does, `BadSector`, and `Long` for a write of more bytes than
    /// a sector, in this order. Nothing changes then.
    pub fn put(&mut self, command: Tagged) -> Result<(), PutRefusal>
        ensures accepted { OnOk result (Accepts self.old command self.new) }
        ensures refused { IfErr result (Refuses self.old command) }
        ensures same { OnErr result (self.new ≡ self.old) }
    {
        if let Some(why) = self.refusal(&command) {
            return Err(why);
        }
        self.accept(command);
        Ok(())
    }

    /// Takes out the command that is next, if one waits: the first free read where the oldest was passed fewer than 32 times, else
    /// the oldest. A read is free where no earlier command of its sector waits.
    pub fn next(&mut self) -> Option<Tagged>
        ensures none { IfNone result (self.old.commands ≡ []) }
        ensures same { IfNone result (self.new ≡ self.old) }
        ensures taken { IfSome result (λ command. Takes self.old command self.new) }
        ensures asked { IfSome result (λ command. IsAsked self.old.sectors self.old.sector_bytes command.ask) }
        ensures few_bytes { self.old.sector_bytes ≤ 512 }
    {
        let node = pick(
            &mut self.order,
            &self.chains,
            &self.nodes,
            self.waiting,
            self.passed,
        )?;
        self.passed = passed_once_more(self.passed, is_oldest(&self.order, node));
        release(&mut self.order, node);
        self.chains.unlink(node);
        self.waiting -= 1;
        Some(mem::replace(&mut self.nodes[node as usize], no_command()))
    }
}
