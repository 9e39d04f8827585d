//! The blocks of the three kinds that are looked for: Clean, Recycled, and Used with no live record. A set for each kind has its blocks,
//! so that the lowest one is found in sixteen words.
ghost use Rattle.std.specs.Prelude.{◌≡◌, ◌<◌, ◌≤◌, replicate, IsTrue};
ghost use Rattle.block_state.specs.BlockSet.{has};
ghost use Rattle.block_state.specs.Kinds.{AreKinds, ArePut};

use crate::block_set::BlockSet;
use crate::state::State;

/// The blocks of each kind, and how many are Recycled.
#[derive(Clone, Copy)]
pub(crate) struct Kinds {
    pub(crate) clean: BlockSet,
    pub(crate) recycled: BlockSet,
    // Used, with no live record
    pub(crate) empty_used: BlockSet,
    pub(crate) recycled_count: u32,
}

impl Kinds {
    /// The kinds where all blocks are Clean.
    pub(crate) fn new(blocks: u32) -> Kinds
        requires { blocks ≤ 1024 }
        ensures { AreKinds (replicate blocks State.Clean) (replicate blocks 0) result }
    {
        let mut clean = BlockSet::new();
        for block in 0..blocks {
            clean.insert(block);
        }
        Kinds {
            clean,
            recycled: BlockSet::new(),
            empty_used: BlockSet::new(),
            recycled_count: 0,
        }
    }

    /// Puts a block, with its state and live count, in the set of its kind and in no other.
    pub(crate) fn put(&mut self, block: u32, state: State, live: u32)
        requires block { block < 1024 }
        requires counted { IsTrue (has self.old.recycled.words block) → 0 < self.old.recycled_count }
        requires few { self.old.recycled_count ≤ 1024 }
        ensures { ArePut self.old block state live self.new }
    {
        let was = self.recycled.has(block);
        self.clean.put(block, state.is_clean());
        self.recycled.put(block, state.is_recycled());
        self.empty_used.put(block, state.is_used() && live == 0);
        self.recycled_count += u32::from(state.is_recycled());
        self.recycled_count -= u32::from(was);
    }
}
