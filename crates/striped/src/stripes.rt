//! A sector striped over chunks: each page holds its part of every chunk's cells, one chunk after
//! the other, and the cells past the last chunk stay as they are.

ghost use Rattle.std.specs.Prelude.{◌≡◌, ◌*◌, ◌/◌, ◌≤◌, IfOk, vec_len};
ghost use Rattle.striped.specs.Striping.{striping, page_bytes};
ghost use Rattle.striped.specs.Layouts.{IsLayout, IsFitting, meaning_of};

use crate::chunks::{Layout, read_chunks, write_chunks, write_or_keep};
use crate::scheme::Scheme;
use std::alloc::{AllocError, Global};
use wom_code::{Carry, FromBlank, PackedCode};

pub type OutOfMemory = AllocError;

/// The layout of a sector whose chunks have `cells` cells, of which each page has `page_cells`.
fn layout_of(message_bits: usize, page_cells: usize, cells: usize, sector_bytes: u32) -> Layout
    requires { IsFitting message_bits page_cells cells sector_bytes }
    ensures span { result.span ≡ cells / page_cells }
    ensures page_cells { result.page_cells ≡ page_cells }
    ensures layout { IsLayout message_bits cells sector_bytes result }
{
    let chunks = (8 * sector_bytes as usize).div_ceil(message_bits);
    let page_bytes = (chunks * page_cells).div_ceil(8);
    Layout {
        page_cells,
        span: cells / page_cells,
        page_bytes,
        chunks,
    }
}

/// A sector over the chunks of a first code on a page, and of a second code on a unit.
///
/// `K` is the bits of a message, `M` the cells of a chunk on one page, and `N` those on a unit.
#[derive(Drop)]
pub struct Striped<
    F: FromBlank<K, M>,
    S: PackedCode<K, N>,
    const K: usize,
    const M: usize,
    const N: usize,
> {
    first: F,
    second: S,
    sector_bytes: u32,
    generations: u32,
    unit: Vec<u8>,
    ghost fitting: { IsFitting K M N sector_bytes },
    ghost room: { vec_len unit ≡ N / M * page_bytes (striping K M N sector_bytes) },
}

impl<
    F: FromBlank<K, M> + Drop,
    S: PackedCode<K, N> + Drop,
    const K: usize,
    const M: usize,
    const N: usize,
> Striped<F, S, K, M, N> {
    /// A scheme of two generations.
    pub fn new(
        alloc: Global,
        first: F,
        second: S,
        sector_bytes: u32,
    ) -> Result<Striped<F, S, K, M, N>, OutOfMemory>
        requires { IsFitting K M N sector_bytes }
        ensures { let given = meaning_of K M N sector_bytes 2 (F.decoding first) (F.gives first) (S.decoding second) (S.gives second) in
            IfOk result (λ s. meaning_of K M N s.sector_bytes s.generations (F.decoding s.first) (F.gives s.first) (S.decoding s.second) (S.gives s.second) ≡ given) }
    {
        Self::with_generations(alloc, first, second, sector_bytes, 2)
    }

    /// A scheme of two or three generations, whose second code serves all writes after the first.
    pub fn with_generations(
        alloc: Global,
        first: F,
        second: S,
        sector_bytes: u32,
        generations: u32,
    ) -> Result<Striped<F, S, K, M, N>, OutOfMemory>
        requires fitting { IsFitting K M N sector_bytes }
        requires at_least_two { 2 ≤ generations }
        requires at_most_three { generations ≤ 3 }
        ensures { let given = meaning_of K M N sector_bytes generations (F.decoding first) (F.gives first) (S.decoding second) (S.gives second) in
            IfOk result (λ s. meaning_of K M N s.sector_bytes s.generations (F.decoding s.first) (F.gives s.first) (S.decoding s.second) (S.gives s.second) ≡ given) }
    {
        let layout = layout_of(K, M, N, sector_bytes);
        let unit = vec![in alloc; 0; layout.span * layout.page_bytes]?;
        Ok(Striped {
            first,
            second,
            sector_bytes,
            generations,
            unit,
        })
    }
}

impl<F: FromBlank<K, M>, S: PackedCode<K, N>, const K: usize, const M: usize, const N: usize> Scheme
    for Striped<F, S, K, M, N> {
    ghost use Rattle.striped.specs.Layouts.{meaning_of};
    ghost use Rattle.striped.specs.Carried.{decodes_law};

    ghost meaning = { λ s. meaning_of K M N s.sector_bytes s.generations (F.decoding s.first) (F.gives s.first) (S.decoding s.second) (S.gives s.second) };

    ghost decodes = { λ s. decodes_law K M N s.sector_bytes s.generations (F.decoding s.first) (F.gives s.first) (S.decoding s.second) (S.gives s.second) s.fitting.some_bits };

    fn sector_bytes(&self) -> u32 {
        self.sector_bytes
    }

    fn page_bytes(&self) -> u32 {
        layout_of(K, M, N, self.sector_bytes).page_bytes as u32
    }

    fn span(&self) -> u32 {
        (N / M) as u32
    }

    fn generations(&self) -> u32 {
        self.generations
    }

    fn first(&mut self, sector: &[u8], page: &mut [u8]) {
        page.fill(0);
        match write_chunks(
            &mut self.first,
            layout_of(K, M, M, self.sector_bytes),
            page,
            sector,
            true,
        ) {
            Carry::Carried => {}
            Carry::Declined => unreachable!(),
        }
    }

    fn read_first(&self, page: &[u8], sector: &mut [u8]) {
        read_chunks(
            &self.first,
            layout_of(K, M, M, self.sector_bytes),
            page,
            sector,
        );
    }

    fn over(&mut self, unit: &mut [u8], sector: &[u8]) -> Carry {
        let layout = layout_of(K, M, N, self.sector_bytes);
        write_or_keep(&mut self.second, layout, unit, &mut self.unit, sector)
    }

    fn read_second(&self, unit: &[u8], sector: &mut [u8]) {
        read_chunks(
            &self.second,
            layout_of(K, M, N, self.sector_bytes),
            unit,
            sector,
        );
    }
}
