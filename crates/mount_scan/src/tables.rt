//! The tables of a device: where each sector's live record stands, what each block is used for, and the next seq.
//! All memory of a mount is taken here, before the first read.
ghost use Rattle.std.specs.Prelude.{◌≤◌, IfOk};
ghost use Rattle.mount_scan.specs.New.{IsNew};

use block_state::{Book, State};
use cell_die::Shape;
use sector_map::SectorMap;
use std::alloc::{AllocError, Global};

/// Want of memory.
pub type OutOfMemory = AllocError;

/// The map, the book and the next seq of a device.
#[derive(Drop)]
pub struct Tables {
    /// Where the live record of each sector stands.
    pub map: SectorMap,
    /// What each block is used for, and how many live records stand in it.
    pub book: Book,
    /// The number that the next record draws.
    pub seq: u64,
    // the greatest seq met so far, for each sector that the map names
    pub(crate) seqs: Vec<u64>,
    // what the cells of each block make it, if it is not the Spare
    pub(crate) found: Vec<State>,
    pub(crate) span: u32,
}

impl Tables {
    /// Tables of a die that was not read yet, for `sectors` sectors, units of `span` pages and pages of `generations` slots.
    pub fn new(
        alloc: Global,
        shape: Shape,
        sectors: u32,
        span: u32,
        generations: u32,
    ) -> Result<Tables, OutOfMemory>
        requires blocks { shape.blocks ≤ 1024 }
        requires pages { (2 ≤ shape.pages) × (shape.pages ≤ 128) }
        requires span { (1 ≤ span) × (span ≤ 2) }
        requires generations { (2 ≤ generations) × (generations ≤ 3) }
        ensures { IfOk result (IsNew shape sectors span generations) }
    {
        Ok(Tables {
            map: SectorMap::new(alloc, sectors)?,
            book: Book::new(
                alloc,
                shape.blocks,
                shape.pages,
                shape.pages / span,
                generations,
            )?,
            seq: 1,
            seqs: vec![in alloc; 0; sectors as usize]?,
            found: vec![in alloc; State::Clean; shape.blocks as usize]?,
            span,
        })
    }
}
