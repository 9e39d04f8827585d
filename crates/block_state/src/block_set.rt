//! A set of blocks, one bit a block: block `b` is in it where bit `b % 64` of word `b / 64` is 1. It knows numbers, and nothing of states.
ghost use Rattle.std.specs.Prelude.{◌≡◌, ◌<◌, ℕ, true, false, IfSome, IfNone};
ghost use Rattle.block_state.specs.BlockSet.{has, IsPut, IsLowestIn};

/// Words of a set.
const WORDS: usize = 16;

/// A set of blocks below 1,024.
#[derive(Clone, Copy)]
pub(crate) struct BlockSet {
    words: [u64; WORDS],
}

impl BlockSet {
    /// A set with no block.
    pub(crate) fn new() -> BlockSet
        ensures { (b : ℕ) → has result.words b ≡ false }
    {
        BlockSet { words: [0; WORDS] }
    }

    /// Whether a block is in it.
    pub(crate) fn has(&self, block: u32) -> bool
        requires { block < 1024 }
        ensures { result ≡ has self.now.words block }
    {
        self.words[(block / 64) as usize] & 1 << (block % 64) != 0
    }

    /// Puts a block in.
    pub(crate) fn insert(&mut self, block: u32)
        requires { block < 1024 }
        ensures { IsPut self.old.words block true self.new.words }
    {
        self.words[(block / 64) as usize] |= 1 << (block % 64);
    }

    /// Takes a block out.
    pub(crate) fn remove(&mut self, block: u32)
        requires { block < 1024 }
        ensures { IsPut self.old.words block false self.new.words }
    {
        self.words[(block / 64) as usize] &= !(1 << (block % 64));
    }

    /// Puts a block in or takes it out.
    pub(crate) fn put(&mut self, block: u32, present: bool)
        requires { block < 1024 }
        ensures { IsPut self.old.words block present self.new.words }
    {
        if present {
            self.insert(block);
        } else {
            self.remove(block);
        }
    }

    /// The lowest block in it.
    pub(crate) fn lowest(&self) -> Option<u32>
        ensures found { IfSome result (IsLowestIn self.now.words) }
        ensures none { IfNone result ((b : ℕ) → has self.now.words b ≡ false) }
    {
        for word in 0..WORDS {
            let bits = self.words[word];
            if bits != 0 {
                return Some(64 * word as u32 + bits.trailing_zeros());
            }
        }
        None
    }
}

#[cfg(test)]
mod tests;
