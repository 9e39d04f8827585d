//! Room for the moves of one collection: of which sector each copy is, and whether it says zeros.
ghost use Rattle.std.specs.Prelude.{◌≡◌, IfOk};

use page_codec::OutOfMemory;
use std::alloc::Global;
use std::marker::Model;

/// A record that was copied.
#[derive(Clone, Copy, Debug, PartialEq, Eq)]
pub(crate) struct Move {
    pub(crate) sector: u32,
    /// The record says that the sector is zeros.
    pub(crate) zeros: bool,
}

/// Room for the moves of one block, seen as how many there is room for.
#[derive(Drop)]
pub struct Moves {
    pub(crate) moves: Vec<Move>,
}

impl Model for Moves {
    ghost use Rattle.std.specs.Prelude.{ℕ, length};

    ghost Value = { ℕ };

    ghost view = { λ a. length a.moves.items };
}

impl Moves {
    /// Room for the moves of a block of so many pages: no collection of such a block takes memory.
    pub fn new(alloc: Global, pages: u32) -> Result<Moves, OutOfMemory>
        ensures { IfOk result (λ moves. moves ≡ pages) }
    {
        let empty = Move {
            sector: 0,
            zeros: false,
        };
        Ok(Moves {
            moves: vec![in alloc; empty; pages as usize]?,
        })
    }
}
