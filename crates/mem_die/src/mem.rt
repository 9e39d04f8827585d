//! The die in memory: all cells in one row of bytes, page after page. A whole change is a change torn in the form `All`,
//! so one body serves a call that passes and a call that is cut.
ghost use Rattle.std.specs.Prelude.{◌≡◌, ◌*◌, ◌<◌, ◌↔◌, IsTrue, ℕ, All, length};
ghost use Rattle.cell_die.specs.DieState.{page_count, page_bytes};
ghost use Rattle.mem_die.specs.Limits.{IsWithinLimits};
ghost use Rattle.cell_die.specs.Counts.{sum_of};

use crate::rows;
use crate::supply::{Change, Supply};
use cell_die::{Die, DieFault, PowerDie, Shape, Torn};
use std::alloc::Global;
use thiserror::Error;

/// Why a die was not made.
#[derive(Clone, Copy, Debug, PartialEq, Eq, Error)]
pub enum DieRefusal {
    #[error("out of memory")]
    OutOfMemory,
    #[error("the shape is outside the limits of a die")]
    Shape,
}

/// A die in memory, at most 1,024 blocks of at most 128 pages of at most 1,200 main and 64 spare bytes, and at most 64 MiB.
#[derive(Drop)]
pub struct MemDie {
    shape: Shape,
    cells: Vec<u8>,
    erases: Vec<u64>,
    supply: Supply,
    ghost within: { IsWithinLimits shape },
    ghost whole: { length cells.items ≡ page_count shape * page_bytes shape },
    ghost bytes: { All (λ byte. byte < 256) cells.items },
    ghost counts: { length erases.items ≡ shape.blocks },
}

/// Whether a die in memory may have this shape.
fn is_within_limits(shape: Shape) -> bool
    ensures { IsTrue result ↔ IsWithinLimits shape }
{
    shape.blocks != 0
        && shape.pages != 0
        && shape.main_bytes != 0
        && shape.spare_bytes != 0
        && shape.blocks <= 1024
        && shape.pages <= 128
        && shape.main_bytes <= 1200
        && shape.spare_bytes <= 64
        && shape.blocks * shape.pages * (shape.main_bytes + shape.spare_bytes) <= 67_108_864
}

impl MemDie {
    ghost use Rattle.std.specs.Prelude.{◌≡◌, ◌≢◌, ◌⊎◌, ◌≤◌, ◌<◌, IfOk, OnOk, IsErrOf, slice_index, if◌then◌else◌};
    ghost use Rattle.cell_die.specs.Cells.{charge};
    ghost use Rattle.cell_die.specs.Counts.{raised, count_sum};
    ghost use Rattle.cell_die.specs.Changes.{OnlyPage, OnlyBlock};
    ghost use Rattle.cell_die.specs.DieState.{page_of, block_of, erases_of};
    ghost use Rattle.mem_die.specs.MemState.{mem_state, mem_cells, IsNew, IsMade, TearsBlock, SameButCells};
    ghost use Rattle.mem_die.specs.Tears.{IsTorn, reaches};

    /// A die with no charged cell, with power and nothing armed.
    pub fn blank(alloc: Global, shape: Shape) -> Result<MemDie, DieRefusal>
        ensures new { IfOk result (λ die. IsNew shape (mem_state die)) }
        ensures within { OnOk result (IsWithinLimits shape) }
        ensures shape { IsErrOf result DieRefusal.Shape ↔ (¬ IsWithinLimits shape) }
        ensures memory { IsErrOf result DieRefusal.OutOfMemory → IsWithinLimits shape }
    {
        if !is_within_limits(shape) {
            return Err(DieRefusal::Shape);
        }
        let bytes = (shape.blocks * shape.pages * (shape.main_bytes + shape.spare_bytes)) as usize;
        let Ok(cells) = vec![in alloc; 0u8; bytes] else {
            return Err(DieRefusal::OutOfMemory);
        };
        MemDie::with_cells(alloc, shape, cells)
    }

    /// A die of these cells, with power and nothing armed: its pages in order, each its main bytes and then its spare bytes.
    /// The vector is taken over without a copy.
    pub fn of_cells(alloc: Global, shape: Shape, cells: Vec<u8>) -> Result<MemDie, DieRefusal>
        ensures made { IfOk result (λ die. IsMade shape cells.items (mem_state die)) }
        ensures cells { IfOk result (λ die. mem_cells die ≡ cells.items) }
        ensures within { OnOk result (IsWithinLimits shape) }
        ensures whole { OnOk result (length cells.items ≡ page_count shape * page_bytes shape) }
        ensures shape { IsErrOf result DieRefusal.Shape
            ↔ ((¬ IsWithinLimits shape) ⊎ (length cells.items ≢ page_count shape * page_bytes shape)) }
    {
        if !is_within_limits(shape) {
            return Err(DieRefusal::Shape);
        }
        let bytes = shape.blocks * shape.pages * (shape.main_bytes + shape.spare_bytes);
        if cells.len() != bytes as usize {
            return Err(DieRefusal::Shape);
        }
        MemDie::with_cells(alloc, shape, cells)
    }

    /// A die of cells that fit the shape.
    fn with_cells(alloc: Global, shape: Shape, cells: Vec<u8>) -> Result<MemDie, DieRefusal>
        requires within { IsWithinLimits shape }
        requires whole { length cells.items ≡ page_count shape * page_bytes shape }
        ensures made { IfOk result (λ die. IsMade shape cells.items (mem_state die)) }
        ensures cells { IfOk result (λ die. mem_cells die ≡ cells.items) }
        ensures memory { IsErrOf result DieRefusal.Shape → ⊥ }
    {
        match vec![in alloc; 0u64; shape.blocks as usize] {
            Ok(erases) => Ok(MemDie {
                shape,
                cells,
                erases,
                supply: Supply::new(),
            }),
            Err(_) => Err(DieRefusal::OutOfMemory),
        }
    }

    /// The number of calls that failed; it stands still at 2^64 - 1.
    pub fn faults(&self) -> u64
        ensures { result ≡ count_sum (mem_state self.now).read_faults (mem_state self.now).change_faults }
    {
        self.supply
            .read_faults
            .saturating_add(self.supply.change_faults)
    }

    /// How often a block was erased; it stands still at 2^64 - 1.
    pub fn erases(&self, block: u32) -> u64
        requires { block < (mem_state self.now).shape.blocks }
        ensures { result ≡ erases_of (mem_state self.now) block }
    {
        self.erases[block as usize]
    }

    /// All cells, page after page, each its main bytes and then its spare bytes.
    pub fn cells(&self) -> &[u8]
        ensures cells { result.now ≡ mem_cells self.now }
        ensures whole { length result.now ≡ page_count (mem_state self.now).shape * page_bytes (mem_state self.now).shape }
    {
        &self.cells
    }

    fn page_bytes(&self) -> usize
        ensures { result ≡ page_bytes self.now.shape }
    {
        (self.shape.main_bytes + self.shape.spare_bytes) as usize
    }

    /// Changes a page to the target, cut in this form.
    fn tear_page(&mut self, page: u32, target: &[u8], torn: Torn)
        requires page { page < page_count self.old.shape }
        requires whole { length target.now ≡ page_bytes self.old.shape }
        ensures page { IsTorn torn (page_of (mem_state self.old) page) target.now (page_of (mem_state self.new) page) }
        ensures only_page { OnlyPage page (mem_state self.old) (mem_state self.new) }
        ensures rest { SameButCells self.old self.new }
    {
        let size = self.page_bytes();
        rows::tear_page(&mut self.cells, size, page as usize, target, torn);
    }

    /// Charges a cell of a page, cut in this form.
    fn tear_cell(&mut self, page: u32, cell: u32, torn: Torn)
        requires page { page < page_count self.old.shape }
        requires cell { cell < 8 * page_bytes self.old.shape }
        ensures page { page_of (mem_state self.new) page
            ≡ (if reaches torn cell then charge (page_of (mem_state self.old) page) cell else page_of (mem_state self.old) page) }
        ensures only_page { OnlyPage page (mem_state self.old) (mem_state self.new) }
        ensures rest { SameButCells self.old self.new }
    {
        let size = self.page_bytes();
        rows::tear_cell(&mut self.cells, size, page as usize, cell, torn);
    }

    /// Clears a block, cut in this form, and counts the erase.
    fn tear_block(&mut self, block: u32, torn: Torn)
        requires { block < self.old.shape.blocks }
        ensures pages { TearsBlock torn block (mem_state self.old) (mem_state self.new) }
        ensures only_block { OnlyBlock block (mem_state self.old) (mem_state self.new) }
        ensures count { erases_of (mem_state self.new) block ≡ raised (erases_of (mem_state self.old) block) }
        ensures no_lower { erases_of (mem_state self.old) block ≤ erases_of (mem_state self.new) block }
        ensures shape { self.new.shape ≡ self.old.shape }
        ensures supply { self.new.supply ≡ self.old.supply }
    {
        let size = self.page_bytes();
        let pages = self.shape.pages as usize;
        rows::tear_pages(&mut self.cells, size, block as usize * pages, pages, torn);
        let block = block as usize;
        self.erases[block] = self.erases[block].saturating_add(1);
    }
}

impl Die for MemDie {
    ghost use Rattle.std.specs.Prelude.{◌≡◌, ◌⊎◌, ◌<◌, ◌*◌, true, false, length, OnOk, OnErr, is_ok};
    ghost use Rattle.cell_die.specs.Cells.{IsAbove, charge};
    ghost use Rattle.cell_die.specs.DieState.{page_count, page_bytes, page_of};
    ghost use Rattle.cell_die.specs.Changes.{SameCells, OnlyPage, OnlyBlock, IsBetween, IsErased, ErasedInPart};
    ghost use Rattle.cell_die.specs.Calls.{Kept, Passed, ChangeFailed, ReadFailed, HeldWithoutPower};
    ghost use Rattle.mem_die.specs.MemState.{mem_state, mem_shaped, failures_told};
    ghost use Rattle.mem_die.specs.MemoryDie.{IsRefused, CutsProgram, CutsCharge, CutsErase};
    ghost use Rattle.mem_die.specs.Supply.{change_passes, read_passes};

    ghost state = { mem_state };

    ghost shaped = { mem_shaped };

    fn shape(&self) -> Shape {
        self.shape
    }

    fn read(&mut self, page: u32, into: &mut [u8]) -> Result<(), DieFault>
        requires page { page < page_count (mem_state self.old).shape }
        requires whole_page { length into.old ≡ page_bytes (mem_state self.old).shape }
        ensures read { OnOk result (into.new ≡ page_of (mem_state self.old) page) }
        ensures same_cells { SameCells (mem_state self.old) (mem_state self.new) }
        ensures kept { Kept (mem_state self.old) (mem_state self.new) }
        ensures passed { OnOk result (Passed 0 1 (mem_state self.old) (mem_state self.new)) }
        ensures failed { OnErr result (ReadFailed 0 1 (mem_state self.old) (mem_state self.new)) }
        ensures unpowered { HeldWithoutPower (mem_state self.old) (mem_state self.new) }
        // What a die in memory answers, and what it leaves of its power, exactly.
        ensures answers { is_ok result ≡ read_passes (failures_told self.old) }
        ensures power { (failures_told self.new).powered ≡ (failures_told self.old).powered }
        ensures refused { OnErr result ((failures_told self.old).powered ≡ false → IsRefused (mem_state self.old) (mem_state self.new)) }
    {
        if !self.supply.begin_read() {
            return Err(DieFault);
        }
        into.copy_from_slice(rows::page_of(&self.cells, self.page_bytes(), page as usize));
        Ok(())
    }

    fn program(&mut self, page: u32, target: &[u8]) -> Result<(), DieFault>
        requires page { page < page_count (mem_state self.old).shape }
        requires above { IsAbove target.now (page_of (mem_state self.old) page) }
        ensures programmed { OnOk result (page_of (mem_state self.new) page ≡ target.now) }
        ensures in_part { OnErr result (IsBetween (page_of (mem_state self.old) page) (page_of (mem_state self.new) page) target.now) }
        ensures only_page { OnlyPage page (mem_state self.old) (mem_state self.new) }
        ensures kept { Kept (mem_state self.old) (mem_state self.new) }
        ensures passed { OnOk result (Passed 1 0 (mem_state self.old) (mem_state self.new)) }
        ensures failed { OnErr result (ChangeFailed 1 0 (mem_state self.old) (mem_state self.new)) }
        ensures unpowered { HeldWithoutPower (mem_state self.old) (mem_state self.new) }
        // What a die in memory answers and leaves, exactly.
        ensures answers { is_ok result ≡ change_passes (failures_told self.old) }
        ensures power { (failures_told self.new).powered ≡ is_ok result }
        ensures cut { OnErr result ((failures_told self.old).powered ≡ true
            → CutsProgram (failures_told self.old).form page target.now (mem_state self.old) (mem_state self.new)) }
        ensures refused { OnErr result ((failures_told self.old).powered ≡ false → IsRefused (mem_state self.old) (mem_state self.new)) }
    {
        match self.supply.begin_change() {
            Change::Whole => {
                self.tear_page(page, target, Torn::All);
                Ok(())
            }
            Change::Cut(torn) => {
                self.tear_page(page, target, torn);
                Err(DieFault)
            }
            Change::Refused => Err(DieFault),
        }
    }

    fn charge(&mut self, page: u32, cell: u32) -> Result<(), DieFault>
        requires page { page < page_count (mem_state self.old).shape }
        requires cell { cell < 8 * page_bytes (mem_state self.old).shape }
        ensures charged { OnOk result (page_of (mem_state self.new) page ≡ charge (page_of (mem_state self.old) page) cell) }
        ensures charged_or_not { OnErr result ((page_of (mem_state self.new) page ≡ page_of (mem_state self.old) page)
            ⊎ (page_of (mem_state self.new) page ≡ charge (page_of (mem_state self.old) page) cell)) }
        ensures only_page { OnlyPage page (mem_state self.old) (mem_state self.new) }
        ensures kept { Kept (mem_state self.old) (mem_state self.new) }
        ensures passed { OnOk result (Passed 1 0 (mem_state self.old) (mem_state self.new)) }
        ensures failed { OnErr result (ChangeFailed 1 0 (mem_state self.old) (mem_state self.new)) }
        ensures unpowered { HeldWithoutPower (mem_state self.old) (mem_state self.new) }
        // What a die in memory answers and leaves, exactly.
        ensures answers { is_ok result ≡ change_passes (failures_told self.old) }
        ensures power { (failures_told self.new).powered ≡ is_ok result }
        ensures cut { OnErr result ((failures_told self.old).powered ≡ true
            → CutsCharge (failures_told self.old).form page cell (mem_state self.old) (mem_state self.new)) }
        ensures refused { OnErr result ((failures_told self.old).powered ≡ false → IsRefused (mem_state self.old) (mem_state self.new)) }
    {
        match self.supply.begin_change() {
            Change::Whole => {
                self.tear_cell(page, cell, Torn::All);
                Ok(())
            }
            Change::Cut(torn) => {
                self.tear_cell(page, cell, torn);
                Err(DieFault)
            }
            Change::Refused => Err(DieFault),
        }
    }

    fn erase(&mut self, block: u32) -> Result<(), DieFault>
        requires block { block < (mem_state self.old).shape.blocks }
        ensures erased { OnOk result (IsErased block (mem_state self.old) (mem_state self.new)) }
        ensures in_part { OnErr result (SameCells (mem_state self.old) (mem_state self.new) ⊎ ErasedInPart block (mem_state self.old) (mem_state self.new)) }
        ensures only_block { OnlyBlock block (mem_state self.old) (mem_state self.new) }
        ensures kept { Kept (mem_state self.old) (mem_state self.new) }
        ensures passed { OnOk result (Passed 1 0 (mem_state self.old) (mem_state self.new)) }
        ensures failed { OnErr result (ChangeFailed 1 0 (mem_state self.old) (mem_state self.new)) }
        ensures unpowered { HeldWithoutPower (mem_state self.old) (mem_state self.new) }
        // What a die in memory answers and leaves, exactly.
        ensures answers { is_ok result ≡ change_passes (failures_told self.old) }
        ensures power { (failures_told self.new).powered ≡ is_ok result }
        ensures cut { OnErr result ((failures_told self.old).powered ≡ true
            → CutsErase (failures_told self.old).form block (mem_state self.old) (mem_state self.new)) }
        ensures refused { OnErr result ((failures_told self.old).powered ≡ false → IsRefused (mem_state self.old) (mem_state self.new)) }
    {
        match self.supply.begin_change() {
            Change::Whole => {
                self.tear_block(block, Torn::All);
                Ok(())
            }
            Change::Cut(Torn::Nothing) | Change::Refused => Err(DieFault),
            Change::Cut(torn) => {
                self.tear_block(block, torn);
                Err(DieFault)
            }
        }
    }
}

/// The sum of counts; it stands still at 2^64 - 1.
fn sum_of(counts: &[u64]) -> u64
    ensures { result ≡ sum_of counts.now }
{
    let mut total = 0u64;
    for count in counts {
        total = total.saturating_add(*count);
    }
    total
}

impl PowerDie for MemDie {
    fn arm_cut(&mut self, n: u32, torn: Torn) {
        self.supply.cut = n;
        self.supply.torn = torn;
    }

    fn fail_read(&mut self, n: u32) {
        self.supply.read_failure = n;
    }

    fn power_on(&mut self) {
        self.supply.powered = true;
    }

    fn powered(&self) -> bool {
        self.supply.powered
    }

    fn erased(&self) -> u64 {
        sum_of(&self.erases)
    }
}

#[cfg(test)]
mod tests;
