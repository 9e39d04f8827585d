//! Closed blocks stand in two lists: all in one, `order`, and those with live count `k` in list `k`, in the same order.
//! So the front of the first list that is not empty is the victim.
ghost use Rattle.std.specs.Prelude.{◌≡◌, ◌+◌, ◌-◌, ◌*◌, ◌<◌, ◌≤◌, ◌==◌, ℕ, true, [], length, replicate, if◌then◌else◌, IsTrue, IfOk, IfSome, IfNone};
ghost use Rattle.block_state.specs.State.{is_active, InRange};
ghost use Rattle.block_state.specs.Book.{IsValid, IsActive, IsSpare, HasOneSpare, NoneActive, NoneClosed, state_at, live_at, with_state, with_live};
ghost use Rattle.block_state.specs.Victim.{IsLeast, IsVictim, IsIdleVictim, NoneFits};
ghost use Rattle.block_state.specs.Lowest.{IsClean, IsRecycled, IsEmptyUsed, NoneCleanBelow, NoneRecycledBelow, NoneEmptyUsedBelow, recycled_count};
ghost use Rattle.block_state.specs.Kept.{is_at};

use crate::kinds::Kinds;
use crate::relist::{move_to_back, relist};
use crate::state::State;
use block_links::Links;
use std::alloc::{AllocError, Global};
use std::marker::Model;

/// Want of memory.
pub type OutOfMemory = AllocError;

/// Each block's state and live count, and the closed blocks in the order of their last change. Blocks go by numbers from 0.
#[derive(Drop)]
pub struct Book {
    states: Vec<State>,
    live: Vec<u32>,
    // the closed blocks, in one list
    order: Links,
    // list k has the part of the order with live count k
    by_live: Links,
    // the Active block
    active: Option<u32>,
    // the blocks that are looked for by their kind
    kinds: Kinds,
    pages: u32,
    units: u32,
    generations: u32,
}

impl Model for Book {
    ghost use Rattle.std.specs.Prelude.{ℕ};
    ghost use Rattle.block_links.specs.Lists.{list_at};
    ghost use Rattle.block_state.specs.Book.{BookValue};
    ghost use Rattle.block_state.specs.Kept.{IsBook};

    ghost Value = { BookValue };

    ghost view = { λ a. record {
      states = a.states.items;
      live = a.live.items;
      order = list_at a.order.lists 0;
      pages = a.pages;
      units = a.units;
      generations = a.generations;
    } };

    ghost invariant = { λ a. IsBook (record {
      states = a.states.items;
      live = a.live.items;
      order = list_at a.order.lists 0;
      pages = a.pages;
      units = a.units;
      generations = a.generations;
    }) a.order a.by_live a.active a.kinds };
}

/// The block that is Active after a block has taken a state.
fn active_after(active: Option<u32>, block: u32, state: State) -> Option<u32>
    requires { IsTrue (is_active state) → (b : ℕ) → is_at active b ≡ true → b ≡ block }
    ensures { (b : ℕ) → is_at result b ≡ (if block == b then is_active state else is_at active b) }
{
    if state.is_active() {
        Some(block)
    } else if active == Some(block) {
        None
    } else {
        active
    }
}

impl Book {
    /// Makes a book of `blocks` Clean blocks with no live records.
    ///
    /// A block has `pages` pages and `units` units, and each page takes at most `generations` records.
    pub fn new(
        alloc: Global,
        blocks: u32,
        pages: u32,
        units: u32,
        generations: u32,
    ) -> Result<Book, OutOfMemory>
        requires few_blocks { blocks ≤ 1024 }
        requires few_pages { pages ≤ 128 }
        requires few_units { units ≤ pages }
        requires two_generations { 2 ≤ generations }
        requires three_generations { generations ≤ 3 }
        ensures { IfOk result (λ book. book ≡ record {
          states = replicate blocks State.Clean;
          live = replicate blocks 0;
          order = [];
          pages = pages;
          units = units;
          generations = generations;
        }) }
    {
        let states = vec![in alloc; State::Clean; blocks as usize]?;
        let live = vec![in alloc; 0; blocks as usize]?;
        let order = Links::new(alloc, blocks, 1)?;
        let by_live = Links::new(alloc, blocks, generations * pages + 1)?;
        Ok(Book {
            states,
            live,
            order,
            by_live,
            active: None,
            kinds: Kinds::new(blocks),
            pages,
            units,
            generations,
        })
    }

    /// The state of a block.
    pub fn state_of(&self, block: u32) -> State
        requires { block < length self.now.states }
        ensures value { result ≡ state_at self.now block }
        ensures in_range { InRange self.now.pages self.now.units self.now.generations result }
    {
        self.states[block as usize]
    }

    /// The live count of a block: how many live records stand in it.
    pub fn live(&self, block: u32) -> u32
        requires { block < length self.now.states }
        ensures value { result ≡ live_at self.now block }
        ensures few { result ≤ self.now.generations * self.now.pages }
    {
        self.live[block as usize]
    }

    /// The number of blocks that the book was made with.
    pub fn blocks(&self) -> u32
        ensures value { result ≡ length self.now.states }
        ensures valid { IsValid self.now }
    {
        self.states.len() as u32
    }

    /// The number of pages of a block.
    pub fn pages(&self) -> u32
        ensures value { result ≡ self.now.pages }
        ensures valid { IsValid self.now }
    {
        self.pages
    }

    /// The number of units of a block.
    pub fn units(&self) -> u32
        ensures value { result ≡ self.now.units }
        ensures valid { IsValid self.now }
    {
        self.units
    }

    /// How many records a page takes at most, 2 or 3.
    pub fn generations(&self) -> u32
        ensures value { result ≡ self.now.generations }
        ensures valid { IsValid self.now }
    {
        self.generations
    }

    /// The Active block, if there is one.
    pub fn active(&self) -> Option<u32>
        ensures active { IfSome result (IsActive self.now) }
        ensures within { IfSome result (λ b. b < length self.now.states) }
        ensures none { IfNone result (NoneActive self.now) }
    {
        self.active
    }

    /// Gives a block another state.
    ///
    /// A block that is newly closed goes to the back of the order, one that no longer is leaves it, and any other keeps its place.
    pub fn set_state(&mut self, block: u32, state: State)
        requires block { block < length self.old.states }
        requires in_range { InRange self.old.pages self.old.units self.old.generations state }
        requires one_active { IsTrue (is_active state) → (b : ℕ) → IsActive self.old b → b ≡ block }
        ensures { self.new ≡ with_state self.old block state }
    {
        let was = self.states[block as usize].is_closed();
        let count = self.live[block as usize];
        relist(&mut self.order, was, state.is_closed(), 0, block);
        relist(&mut self.by_live, was, state.is_closed(), count, block);
        self.kinds.put(block, state, count);
        self.active = active_after(self.active, block, state);
        self.states[block as usize] = state;
    }

    /// Gives a block another live count, and if it is closed moves it to the back of the order.
    fn set_live(&mut self, block: u32, count: u32)
        requires block { block < length self.old.states }
        requires few { count ≤ self.old.generations * self.old.pages }
        ensures { self.new ≡ with_live self.old block count }
    {
        let state = self.states[block as usize];
        self.live[block as usize] = count;
        self.kinds.put(block, state, count);
        if state.is_closed() {
            move_to_back(&mut self.order, 0, block);
            move_to_back(&mut self.by_live, count, block);
        }
    }

    /// Counts one live record more. A closed block goes to the back of the order.
    pub fn add_live(&mut self, block: u32)
        requires block { block < length self.old.states }
        requires room { live_at self.old block < self.old.generations * self.old.pages }
        ensures { self.new ≡ with_live self.old block (live_at self.old block + 1) }
    {
        let count = self.live[block as usize];
        self.set_live(block, count + 1);
    }

    /// Counts one live record less. A closed block goes to the back of the order.
    pub fn drop_live(&mut self, block: u32)
        requires block { block < length self.old.states }
        requires some { 0 < live_at self.old block }
        ensures { self.new ≡ with_live self.old block (live_at self.old block - 1) }
    {
        let count = self.live[block as usize];
        self.set_live(block, count - 1);
    }

    /// Counts no live record any more. A closed block goes to the back of the order.
    pub fn zero_live(&mut self, block: u32)
        requires { block < length self.old.states }
        ensures { self.new ≡ with_live self.old block 0 }
    {
        self.set_live(block, 0);
    }

    /// Makes the Active block Used with level 0, and puts it at the back of the order.
    pub fn close(&mut self, block: u32)
        requires { IsActive self.old block }
        ensures { self.new ≡ with_state self.old block (State.Used 0) }
    {
        let _generations = self.generations;
        self.set_state(block, State::Used { level: 0 });
    }

    /// Of the closed blocks with at least `fewest` live records, the one of least (live count, stamp), if it has at most `most`.
    fn least(&self, fewest: u32, most: u32) -> Option<u32>
        requires { most ≤ self.now.generations * self.now.pages }
        ensures found { IfSome result (λ b. IsLeast self.now fewest b × (live_at self.now b ≤ most)) }
        ensures none { IfNone result (NoneFits self.now fewest most) }
    {
        let by_live = &self.by_live;
        for count in fewest..most + 1 {
            if let Some(block) = by_live.front(count) {
                return Some(block);
            }
        }
        None
    }

    /// The closed block of least (live count, stamp), if a block is closed.
    pub fn victim(&self) -> Option<u32>
        ensures found { IfSome result (IsVictim self.now) }
        ensures none { IfNone result (NoneClosed self.now) }
    {
        self.least(0, self.generations * self.pages)
    }

    /// Of the closed blocks with live records, the one of least (live count, stamp), if it has at most `room` of them.
    pub fn idle_victim(&self, room: u32) -> Option<u32>
        ensures found { IfSome result (IsIdleVictim self.now room) }
        ensures none { IfNone result (NoneFits self.now 1 room) }
    {
        self.least(1, room.min(self.generations * self.pages))
    }

    /// The lowest Clean block.
    pub fn lowest_clean(&self) -> Option<u32>
        ensures found { IfSome result (λ b. IsClean self.now b × NoneCleanBelow self.now b) }
        ensures none { IfNone result (NoneCleanBelow self.now (length self.now.states)) }
    {
        self.kinds.clean.lowest()
    }

    /// The lowest Recycled block.
    pub fn lowest_recycled(&self) -> Option<u32>
        ensures found { IfSome result (λ b. IsRecycled self.now b × NoneRecycledBelow self.now b) }
        ensures none { IfNone result (NoneRecycledBelow self.now (length self.now.states)) }
    {
        self.kinds.recycled.lowest()
    }

    /// The lowest Used block with no live record.
    pub fn lowest_empty_used(&self) -> Option<u32>
        ensures found { IfSome result (λ b. IsEmptyUsed self.now b × NoneEmptyUsedBelow self.now b) }
        ensures none { IfNone result (NoneEmptyUsedBelow self.now (length self.now.states)) }
    {
        self.kinds.empty_used.lowest()
    }

    /// How many blocks are Recycled.
    pub fn recycled_count(&self) -> u32
        ensures { result ≡ recycled_count self.now }
    {
        self.kinds.recycled_count
    }

    /// The one Spare block.
    pub fn spare(&self) -> u32
        requires { HasOneSpare self.now }
        ensures { IsSpare self.now result }
    {
        for block in 0..self.blocks() {
            if matches!(self.states[block as usize], State::Spare { .. }) {
                return block;
            }
        }
        unreachable!()
    }
}

#[cfg(test)]
mod tests;
