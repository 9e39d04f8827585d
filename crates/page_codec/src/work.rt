//! The buffers of puts and gets: all memory that they use is taken here, once.

ghost use Rattle.std.specs.Prelude.{◌≡◌, ◌≤◌, IfOk};

use std::alloc::{AllocError, Global};
use std::marker::Model;

/// Want of memory.
pub type OutOfMemory = AllocError;

/// Buffers for the first page of a unit, for its further pages and for the main bytes of all of them, seen as the sizes that
/// they serve.
#[derive(Drop)]
pub struct Work {
    pub(crate) page: Vec<u8>,
    pub(crate) further: Vec<u8>,
    pub(crate) unit: Vec<u8>,
    pub(crate) page_bytes: u32,
    pub(crate) span: u32,
    pub(crate) sector_bytes: u32,
    pub(crate) generations: u32,
}

impl Model for Work {
    ghost use Rattle.std.specs.Prelude.{length};
    ghost use Rattle.page_codec.specs.Sizes.{Sizes, HaveRoom};

    ghost Value = { Sizes };

    ghost view = { λ work. record { page_bytes = work.page_bytes; span = work.span; sector_bytes = work.sector_bytes; generations = work.generations } };

    ghost invariant = { λ work. HaveRoom (record { page_bytes = work.page_bytes; span = work.span; sector_bytes = work.sector_bytes; generations = work.generations })
        (length work.page.items) (length work.further.items) (length work.unit.items) };
}

impl Work {
    /// Buffers for pages of `page_bytes` main bytes with a slot for each generation, units of `span` pages and sectors of
    /// `sector_bytes` bytes.
    pub fn new(
        alloc: Global,
        page_bytes: u32,
        span: u32,
        sector_bytes: u32,
        generations: u32,
    ) -> Result<Work, OutOfMemory>
        requires page_bytes { (1 ≤ page_bytes) × (page_bytes ≤ 1200) }
        requires span { (1 ≤ span) × (span ≤ 2) }
        requires sector_bytes { (1 ≤ sector_bytes) × (sector_bytes ≤ 512) }
        requires generations { (2 ≤ generations) × (generations ≤ 3) }
        ensures { IfOk result (λ work. work ≡ record { page_bytes = page_bytes; span = span; sector_bytes = sector_bytes; generations = generations }) }
    {
        let whole = page_bytes + 16 * generations;
        Ok(Work {
            page: vec![in alloc; 0; whole as usize]?,
            further: vec![in alloc; 0; ((span - 1) * whole) as usize]?,
            unit: vec![in alloc; 0; (span * page_bytes) as usize]?,
            page_bytes,
            span,
            sector_bytes,
            generations,
        })
    }
}
