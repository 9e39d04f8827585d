//! What was counted: for each block its reads, programs, charges and erases, and for each page its programs, and its programs
//! and charges, since the last erase of its block. Every count stands still at 2^64 - 1.
ghost use Rattle.std.specs.Prelude.{◌≡◌, ◌<◌, ◌≤◌, ◌+◌, ◌*◌, ◌^◌, length, slice_index};
ghost use Rattle.cell_die.specs.Counts.{sum_of};
ghost use Rattle.count_die.specs.Counted.{raised_at, at_least_at, BeginsAnew, HasSizes};

use std::alloc::{AllocError, Global};

/// The counts of the calls of a die. It takes all its memory at its making.
#[derive(Drop)]
pub struct Tally {
    blocks: u32,
    pages: u32,
    reads: Vec<u64>,
    programs: Vec<u64>,
    charges: Vec<u64>,
    erases: Vec<u64>,
    programs_since: Vec<u64>,
    changes_since: Vec<u64>,
    most_programs: Vec<u64>,
    most_changes: Vec<u64>,
    totals: Totals,
    ghost sum_reads: { totals.reads ≡ sum_of reads.items },
    ghost sum_programs: { totals.programs ≡ sum_of programs.items },
    ghost sum_charges: { totals.charges ≡ sum_of charges.items },
    ghost sum_erases: { totals.erases ≡ sum_of erases.items },
    ghost sizes: { HasSizes blocks pages (record {
      reads = reads.items;
      programs = programs.items;
      charges = charges.items;
      erases = erases.items;
      programs_since = programs_since.items;
      changes_since = changes_since.items;
      most_programs = most_programs.items;
      most_changes = most_changes.items;
    }) },
}

/// How many calls of each kind there were, over all blocks.
#[derive(Clone, Copy, Debug, PartialEq, Eq)]
pub struct Totals {
    pub reads: u64,
    pub programs: u64,
    pub charges: u64,
    pub erases: u64,
}

/// One more at this place.
fn raise(counts: &mut [u64], place: usize)
    requires { place < length counts.old }
    ensures raised { counts.new ≡ raised_at counts.old place }
    ensures small { slice_index counts.old place < 2 ^ 64 }
{
    counts[place] = counts[place].saturating_add(1);
}

/// One more at this place, and in the sum of all.
fn raise_in(counts: &mut [u64], place: usize, total: &mut u64)
    requires place { place < length counts.old }
    requires sum { total.old ≡ sum_of counts.old }
    ensures counts { counts.new ≡ raised_at counts.old place }
    ensures sum { total.new ≡ sum_of counts.new }
{
    raise(counts, place);
    *total = total.saturating_add(1);
}

/// No less than this at this place.
fn keep_most(counts: &mut [u64], place: usize, count: u64)
    requires { place < length counts.old }
    ensures { counts.new ≡ at_least_at counts.old place count }
{
    counts[place] = counts[place].max(count);
}

/// None for each page of a block.
fn begin_anew(counts: &mut [u64], pages: u32, block: u32)
    requires some_pages { 0 < pages }
    requires whole { (block + 1) * pages ≤ length counts.old }
    ensures { BeginsAnew pages block counts.old counts.new }
{
    let first = block as usize * pages as usize;
    for page in 0..pages as usize {
        counts[first + page] = 0;
    }
}

impl Tally {
    ghost use Rattle.std.specs.Prelude.{◌/◌, IfOk};
    ghost use Rattle.count_die.specs.Counted.{with_read, with_change, with_program, with_charge, with_erase, BlockBeginsAnew};
    ghost use Rattle.count_die.specs.Tallies.{counted_of, blocks_of, pages_of, IsZero};

    /// Counts for so many blocks of so many pages: nothing was counted yet.
    pub fn new(alloc: Global, blocks: u32, pages: u32) -> Result<Tally, AllocError>
        requires { 0 < pages }
        ensures zero { IfOk result (λ tally. IsZero blocks pages (counted_of tally)) }
        ensures blocks { IfOk result (λ tally. blocks_of tally ≡ blocks) }
        ensures pages { IfOk result (λ tally. pages_of tally ≡ pages) }
    {
        let (of_blocks, of_pages) = (blocks as usize, blocks as usize * pages as usize);
        Ok(Tally {
            blocks,
            pages,
            reads: vec![in alloc; 0u64; of_blocks]?,
            programs: vec![in alloc; 0u64; of_blocks]?,
            charges: vec![in alloc; 0u64; of_blocks]?,
            erases: vec![in alloc; 0u64; of_blocks]?,
            programs_since: vec![in alloc; 0u64; of_pages]?,
            changes_since: vec![in alloc; 0u64; of_pages]?,
            most_programs: vec![in alloc; 0u64; of_blocks]?,
            most_changes: vec![in alloc; 0u64; of_blocks]?,
            totals: Totals {
                reads: 0,
                programs: 0,
                charges: 0,
                erases: 0,
            },
        })
    }

    /// The block of a page.
    fn block_of(&self, page: u32) -> usize
        requires { page < self.now.blocks * self.now.pages }
        ensures block { result ≡ page / self.now.pages }
        ensures inside { result < self.now.blocks }
    {
        (page / self.pages) as usize
    }

    /// Counts a read of a page.
    pub(crate) fn count_read(&mut self, page: u32)
        requires { page < self.old.blocks * self.old.pages }
        ensures counted { counted_of self.new ≡ with_read (page / self.old.pages) (counted_of self.old) }
        ensures blocks { self.new.blocks ≡ self.old.blocks }
        ensures pages { self.new.pages ≡ self.old.pages }
    {
        let block = self.block_of(page);
        raise_in(&mut self.reads, block, &mut self.totals.reads);
    }

    /// Counts a change of a page, beside the count of its own kind.
    fn count_change(&mut self, page: u32)
        requires { page < self.old.blocks * self.old.pages }
        ensures counted { counted_of self.new ≡ with_change (page / self.old.pages) page (counted_of self.old) }
        ensures blocks { self.new.blocks ≡ self.old.blocks }
        ensures pages { self.new.pages ≡ self.old.pages }
    {
        let block = self.block_of(page);
        let page = page as usize;
        raise(&mut self.changes_since, page);
        keep_most(&mut self.most_changes, block, self.changes_since[page]);
    }

    /// Counts a program of a page.
    pub(crate) fn count_program(&mut self, page: u32)
        requires { page < self.old.blocks * self.old.pages }
        ensures counted { counted_of self.new ≡ with_program (page / self.old.pages) page (counted_of self.old) }
        ensures blocks { self.new.blocks ≡ self.old.blocks }
        ensures pages { self.new.pages ≡ self.old.pages }
    {
        self.count_change(page);
        let block = self.block_of(page);
        let page = page as usize;
        raise_in(&mut self.programs, block, &mut self.totals.programs);
        raise(&mut self.programs_since, page);
        keep_most(&mut self.most_programs, block, self.programs_since[page]);
    }

    /// Counts a charge of a cell of a page.
    pub(crate) fn count_charge(&mut self, page: u32)
        requires { page < self.old.blocks * self.old.pages }
        ensures counted { counted_of self.new ≡ with_charge (page / self.old.pages) page (counted_of self.old) }
        ensures blocks { self.new.blocks ≡ self.old.blocks }
        ensures pages { self.new.pages ≡ self.old.pages }
    {
        self.count_change(page);
        let block = self.block_of(page);
        raise_in(&mut self.charges, block, &mut self.totals.charges);
    }

    /// Counts an erase of a block.
    pub(crate) fn count_erase(&mut self, block: u32)
        requires { block < self.old.blocks }
        ensures counted { counted_of self.new ≡ with_erase block (counted_of self.old) }
        ensures blocks { self.new.blocks ≡ self.old.blocks }
        ensures pages { self.new.pages ≡ self.old.pages }
    {
        raise_in(&mut self.erases, block as usize, &mut self.totals.erases);
    }

    /// A block was erased: the counts of its pages begin anew.
    pub(crate) fn begin_block_anew(&mut self, block: u32)
        requires { block < self.old.blocks }
        ensures begins { BlockBeginsAnew self.old.pages block (counted_of self.old) (counted_of self.new) }
        ensures blocks { self.new.blocks ≡ self.old.blocks }
        ensures pages { self.new.pages ≡ self.old.pages }
    {
        begin_anew(&mut self.programs_since, self.pages, block);
        begin_anew(&mut self.changes_since, self.pages, block);
    }

    /// How many blocks there are.
    pub fn blocks(&self) -> u32
        ensures { result ≡ blocks_of self.now }
    {
        self.blocks
    }

    /// The pages of a block.
    pub fn pages(&self) -> u32
        ensures { result ≡ pages_of self.now }
    {
        self.pages
    }

    /// The reads of the pages of a block.
    pub fn reads(&self, block: u32) -> u64
        requires { block < blocks_of self.now }
        ensures { result ≡ slice_index (counted_of self.now).reads block }
    {
        self.reads[block as usize]
    }

    /// The programs of the pages of a block.
    pub fn programs(&self, block: u32) -> u64
        requires { block < blocks_of self.now }
        ensures { result ≡ slice_index (counted_of self.now).programs block }
    {
        self.programs[block as usize]
    }

    /// The charges of single cells of a block.
    pub fn charges(&self, block: u32) -> u64
        requires { block < blocks_of self.now }
        ensures { result ≡ slice_index (counted_of self.now).charges block }
    {
        self.charges[block as usize]
    }

    /// The erases of a block.
    pub fn erases(&self, block: u32) -> u64
        requires { block < blocks_of self.now }
        ensures { result ≡ slice_index (counted_of self.now).erases block }
    {
        self.erases[block as usize]
    }

    /// The programs of a page since the last erase of its block that answered Ok.
    pub fn programs_since(&self, page: u32) -> u64
        requires { page < blocks_of self.now * pages_of self.now }
        ensures { result ≡ slice_index (counted_of self.now).programs_since page }
    {
        self.programs_since[page as usize]
    }

    /// The programs and charges of a page since the last erase of its block that answered Ok.
    pub fn changes_since(&self, page: u32) -> u64
        requires { page < blocks_of self.now * pages_of self.now }
        ensures { result ≡ slice_index (counted_of self.now).changes_since page }
    {
        self.changes_since[page as usize]
    }

    /// The most programs that a page of a block has met between two erases, or up to now.
    pub fn most_programs(&self, block: u32) -> u64
        requires { block < blocks_of self.now }
        ensures { result ≡ slice_index (counted_of self.now).most_programs block }
    {
        self.most_programs[block as usize]
    }

    /// The most programs and charges that a page of a block has met between two erases, or up to now.
    pub fn most_changes(&self, block: u32) -> u64
        requires { block < blocks_of self.now }
        ensures { result ≡ slice_index (counted_of self.now).most_changes block }
    {
        self.most_changes[block as usize]
    }

    /// The calls of each kind, over all blocks; each sum stands still at 2^64 - 1.
    pub fn totals(&self) -> Totals
        ensures reads { result.reads ≡ sum_of (counted_of self.now).reads }
        ensures programs { result.programs ≡ sum_of (counted_of self.now).programs }
        ensures charges { result.charges ≡ sum_of (counted_of self.now).charges }
        ensures erases { result.erases ≡ sum_of (counted_of self.now).erases }
    {
        self.totals
    }
}
