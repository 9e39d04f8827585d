//! A die in memory whose erases go bad: every so many erases one makes its block bad, which then never erases whole again.
//! No call of it fails.
ghost use Rattle.std.specs.Prelude.{◌≡◌, ◌≤◌, ◌<◌, ℕ, length, true, false, slice_index_or};
ghost use Rattle.mem_die.specs.MemState.{failures_told};

use crate::MemDie;
use cell_die::{Die, DieFault, Erased, PowerDie, Shape, Torn, WornDie};
use std::alloc::{AllocError, Global};

/// Memory was wanting.
pub type OutOfMemory = AllocError;

/// The cells of a page that a bad erase uncharges: those with an even number.
const WORN: u64 = 0x5555_5555_5555_5555;

/// A die in memory, with power and nothing armed, each `every`-th erase of which makes its block bad.
#[derive(Drop)]
pub struct WornMem {
    die: MemDie,
    every: u32,
    /// In how many erases the next block goes bad; 0 where none does.
    next: u32,
    bad: Vec<bool>,
    bad_erases: u64,
    ghost powered: { (failures_told die).powered ≡ true },
    ghost no_cut: { (failures_told die).cut ≡ 0 },
    ghost no_read_failure: { (failures_told die).read_failure ≡ 0 },
    ghost blocks: { length bad.items ≡ die.shape.blocks },
    ghost none_next: { every ≡ 0 → next ≡ 0 },
    ghost none_bad: { every ≡ 0 → (block : ℕ) → slice_index_or bad.items block false ≡ false },
    ghost none_counted: { every ≡ 0 → bad_erases ≡ 0 },
}

impl WornMem {
    ghost use Rattle.std.specs.Prelude.{◌≡◌, ℕ, ◌<◌, false, IfOk};
    ghost use Rattle.cell_die.specs.Calls.{IsQuiet};
    ghost use Rattle.cell_die.specs.DieState.{page_count};
    ghost use Rattle.cell_die.specs.Changes.{OnlyBlock, NeverFalls};
    ghost use Rattle.cell_die.specs.declared.shape.Torn.TheVariants.{Mask};
    ghost use Rattle.mem_die.specs.MemState.{mem_state};
    ghost use Rattle.mem_die.specs.MemoryDie.{TearsErase};
    ghost use Rattle.mem_die.specs.WornState.{bad_erases_of, next_bad, is_bad, answers_bad, CountsErase};

    /// A die of these cells no block of which is bad. With an `every` of 0 none ever goes bad.
    pub fn new(alloc: Global, die: MemDie, every: u32) -> Result<WornMem, OutOfMemory>
        requires { IsQuiet (mem_state die) }
        ensures die { IfOk result (λ worn. worn.die ≡ die) }
        ensures every { IfOk result (λ worn. worn.every ≡ every) }
        ensures next { IfOk result (λ worn. next_bad worn ≡ every) }
        ensures none_bad { IfOk result (λ worn. (block : ℕ) → is_bad worn block ≡ false) }
        ensures none_counted { IfOk result (λ worn. bad_erases_of worn ≡ 0) }
    {
        let bad = vec![in alloc; false; die.shape().blocks as usize]?;
        Ok(WornMem {
            die,
            every,
            next: every,
            bad,
            bad_erases: 0,
        })
    }

    /// Counts an erase of a block. Says whether the block is bad from now on.
    fn counts_erase(&mut self, block: u32) -> bool
        requires { block < self.old.die.shape.blocks }
        ensures bad { result ≡ answers_bad self.old block }
        ensures counts { CountsErase block self.old self.new }
        ensures die { self.new.die ≡ self.old.die }
        ensures bad_erases { self.new.bad_erases ≡ self.old.bad_erases }
    {
        let goes_bad = self.next == 1;
        self.next = if goes_bad {
            self.every
        } else {
            self.next.saturating_sub(1)
        };
        let block = block as usize;
        self.bad[block] = goes_bad || self.bad[block];
        self.bad[block]
    }

    /// Uncharges the cells of a block that a bad erase reaches.
    fn erase_in_part(die: &mut MemDie, block: u32)
        requires block { block < die.old.shape.blocks }
        requires powered { (failures_told die.old).powered ≡ true }
        requires no_read_failure { (failures_told die.old).read_failure ≡ 0 }
        ensures torn { TearsErase (Mask WORN) block (mem_state die.old) (mem_state die.new) }
        ensures only_block { OnlyBlock block (mem_state die.old) (mem_state die.new) }
        ensures never_falls { NeverFalls (mem_state die.old) (mem_state die.new) }
        ensures shape { die.new.shape ≡ die.old.shape }
        ensures powered { (failures_told die.new).powered ≡ true }
        ensures no_cut { (failures_told die.new).cut ≡ 0 }
        ensures no_read_failure { (failures_told die.new).read_failure ≡ 0 }
    {
        die.arm_cut(1, Torn::Mask(WORN));
        let _cut = die.erase(block);
        die.power_on();
    }
}

impl WornDie for WornMem {
    ghost use Rattle.std.specs.Prelude.{◌≡◌, ◌⊎◌, ◌<◌, ◌≤◌, ◌*◌, length, OnOk, OnErr, IsOk, Ok, if◌then◌else◌};
    ghost use Rattle.cell_die.specs.Cells.{IsAbove, charge};
    ghost use Rattle.cell_die.specs.Counts.{Rose, raised};
    ghost use Rattle.cell_die.specs.DieState.{page_count, page_bytes, page_of};
    ghost use Rattle.cell_die.specs.Changes.{SameCells, OnlyPage, OnlyBlock, IsBetween, IsErased, ErasedInPart};
    ghost use Rattle.cell_die.specs.Calls.{Kept, Passed, ChangeFailed, ReadFailed, HeldWithoutPower};
    ghost use Rattle.cell_die.specs.declared.shape.Torn.TheVariants.{Mask};
    ghost use Rattle.mem_die.specs.MemoryDie.{TearsErase};
    ghost use Rattle.mem_die.specs.WornState.{worn_state, worn_shaped, bad_erases_of, answers_bad, CountsErase, SameWear};

    ghost state = { worn_state };

    ghost bad_erases = { bad_erases_of };

    ghost shaped = { worn_shaped };

    fn shape(&self) -> Shape {
        self.die.shape()
    }

    fn read(&mut self, page: u32, into: &mut [u8]) -> Result<(), DieFault>
        requires page { page < page_count (worn_state self.old).shape }
        requires whole_page { length into.old ≡ page_bytes (worn_state self.old).shape }
        ensures read { OnOk result (into.new ≡ page_of (worn_state self.old) page) }
        ensures same_cells { SameCells (worn_state self.old) (worn_state self.new) }
        ensures kept { Kept (worn_state self.old) (worn_state self.new) }
        ensures passed { OnOk result (Passed 0 1 (worn_state self.old) (worn_state self.new)) }
        ensures failed { OnErr result (ReadFailed 0 1 (worn_state self.old) (worn_state self.new)) }
        ensures unpowered { HeldWithoutPower (worn_state self.old) (worn_state self.new) }
        ensures same_bad { bad_erases_of self.new ≡ bad_erases_of self.old }
        // No call of this die fails, and only erases bring a bad block nearer.
        ensures served { IsOk result }
        ensures same_wear { SameWear self.old self.new }
    {
        self.die.read(page, into)
    }

    fn program(&mut self, page: u32, target: &[u8]) -> Result<(), DieFault>
        requires page { page < page_count (worn_state self.old).shape }
        requires above { IsAbove target.now (page_of (worn_state self.old) page) }
        ensures programmed { OnOk result (page_of (worn_state self.new) page ≡ target.now) }
        ensures in_part { OnErr result (IsBetween (page_of (worn_state self.old) page) (page_of (worn_state self.new) page) target.now) }
        ensures only_page { OnlyPage page (worn_state self.old) (worn_state self.new) }
        ensures kept { Kept (worn_state self.old) (worn_state self.new) }
        ensures passed { OnOk result (Passed 1 0 (worn_state self.old) (worn_state self.new)) }
        ensures failed { OnErr result (ChangeFailed 1 0 (worn_state self.old) (worn_state self.new)) }
        ensures unpowered { HeldWithoutPower (worn_state self.old) (worn_state self.new) }
        ensures same_bad { bad_erases_of self.new ≡ bad_erases_of self.old }
        // No call of this die fails, and only erases bring a bad block nearer.
        ensures served { IsOk result }
        ensures same_wear { SameWear self.old self.new }
    {
        self.die.program(page, target)
    }

    fn charge(&mut self, page: u32, cell: u32) -> Result<(), DieFault>
        requires page { page < page_count (worn_state self.old).shape }
        requires cell { cell < 8 * page_bytes (worn_state self.old).shape }
        ensures charged { OnOk result (page_of (worn_state self.new) page ≡ charge (page_of (worn_state self.old) page) cell) }
        ensures charged_or_not { OnErr result ((page_of (worn_state self.new) page ≡ page_of (worn_state self.old) page)
            ⊎ (page_of (worn_state self.new) page ≡ charge (page_of (worn_state self.old) page) cell)) }
        ensures only_page { OnlyPage page (worn_state self.old) (worn_state self.new) }
        ensures kept { Kept (worn_state self.old) (worn_state self.new) }
        ensures passed { OnOk result (Passed 1 0 (worn_state self.old) (worn_state self.new)) }
        ensures failed { OnErr result (ChangeFailed 1 0 (worn_state self.old) (worn_state self.new)) }
        ensures unpowered { HeldWithoutPower (worn_state self.old) (worn_state self.new) }
        ensures same_bad { bad_erases_of self.new ≡ bad_erases_of self.old }
        // No call of this die fails, and only erases bring a bad block nearer.
        ensures served { IsOk result }
        ensures same_wear { SameWear self.old self.new }
    {
        self.die.charge(page, cell)
    }

    fn erase_or_bad(&mut self, block: u32) -> Result<Erased, DieFault>
        requires block { block < (worn_state self.old).shape.blocks }
        ensures clean { result ≡ Ok Erased.Clean → IsErased block (worn_state self.old) (worn_state self.new) }
        ensures clean_bad { result ≡ Ok Erased.Clean → bad_erases_of self.new ≡ bad_erases_of self.old }
        ensures bad { result ≡ Ok Erased.Bad → ErasedInPart block (worn_state self.old) (worn_state self.new) }
        ensures bad_rose { result ≡ Ok Erased.Bad → Rose (bad_erases_of self.old) (bad_erases_of self.new) }
        ensures in_part { OnErr result (SameCells (worn_state self.old) (worn_state self.new) ⊎ ErasedInPart block (worn_state self.old) (worn_state self.new)) }
        ensures failed_bad { OnErr result (bad_erases_of self.new ≡ bad_erases_of self.old) }
        ensures only_block { OnlyBlock block (worn_state self.old) (worn_state self.new) }
        ensures kept { Kept (worn_state self.old) (worn_state self.new) }
        ensures passed { OnOk result (Passed 1 0 (worn_state self.old) (worn_state self.new)) }
        ensures failed { OnErr result (ChangeFailed 1 0 (worn_state self.old) (worn_state self.new)) }
        ensures unpowered { HeldWithoutPower (worn_state self.old) (worn_state self.new) }
        ensures bad_later { bad_erases_of self.old ≤ bad_erases_of self.new }
        // No call of this die fails: Bad comes exactly where the block is bad or goes bad with this erase, and is counted.
        ensures answers { result ≡ Ok (if answers_bad self.old block then Erased.Bad else Erased.Clean) }
        ensures torn { result ≡ Ok Erased.Bad → TearsErase (Mask WORN) block (worn_state self.old) (worn_state self.new) }
        ensures counted { result ≡ Ok Erased.Bad → bad_erases_of self.new ≡ raised (bad_erases_of self.old) }
        ensures wears { CountsErase block self.old self.new }
    {
        if self.counts_erase(block) {
            WornMem::erase_in_part(&mut self.die, block);
            self.bad_erases = self.bad_erases.saturating_add(1);
            return Ok(Erased::Bad);
        }
        self.die.erase(block)?;
        Ok(Erased::Clean)
    }
}

#[cfg(test)]
mod tests;
