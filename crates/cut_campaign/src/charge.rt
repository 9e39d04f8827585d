//! No cell's charge falls but by an erase of its block: the cells when they were last looked at, beside those of now.
ghost use Rattle.std.specs.Prelude.{◌≡◌, ◌<◌};
ghost use Rattle.mem_die.specs.MemState.{mem_state};

use cell_die::Die;
use mem_die::MemDie;
use std::alloc::{AllocError, Global};

/// The cells of a die and the erase counts of its blocks, as they were.
#[derive(Drop)]
pub struct Look {
    cells: Vec<u8>,
    erases: Vec<u64>,
}

impl Look {
    /// Looks at a die that no block of was erased yet.
    pub fn new(alloc: Global, die: &MemDie) -> Result<Self, AllocError> {
        Ok(Look {
            cells: Vec::from_slice(alloc, die.cells())?,
            erases: vec![in alloc; 0u64; die.shape().blocks as usize]?,
        })
    }

    /// Whether a charge fell in a block that was not erased since.
    fn fell_in(&self, die: &MemDie, block: u32) -> bool
        requires { block < (mem_state die.now).shape.blocks }
    {
        let size = self.cells.len() / self.erases.len().max(1);
        if size == 0 {
            return true;
        }
        let old = self.cells.chunks_exact(size).nth(block as usize);
        let new = die.cells().chunks_exact(size).nth(block as usize);
        match (old, new, self.erases.get(block as usize)) {
            (Some(old), Some(new), Some(count)) => *count == die.erases(block) && falls(old, new),
            _ => true,
        }
    }

    /// Looks again. Says whether all charges stand that are to stand.
    pub fn again(&mut self, die: &MemDie) -> bool {
        let mut stands = true;
        for block in 0..die.shape().blocks {
            if self.fell_in(die, block) {
                stands = false;
            }
        }
        for block in 0..die.shape().blocks {
            if let Some(count) = self.erases.get_mut(block as usize) {
                *count = die.erases(block);
            }
        }
        if self.cells.len() == die.cells().len() {
            self.cells.copy_from_slice(die.cells());
        }
        stands
    }
}

/// Whether a cell is charged in the old bytes and not in the new ones.
fn falls(old: &[u8], new: &[u8]) -> bool {
    for (old, new) in old.iter().zip(new) {
        if *old & !*new != 0 {
            return true;
        }
    }
    false
}
