//! A die some of whose erases no longer work: a bad erase is told apart from a fault of the die.
ghost use Rattle.std.specs.Prelude.{◌≡◌, ◌⊎◌, ◌<◌, ◌≤◌, ◌*◌, ℕ, length, OnOk, OnErr, Ok};
ghost use Rattle.cell_die.specs.Cells.{IsAbove, charge};
ghost use Rattle.cell_die.specs.Counts.{Rose};
ghost use Rattle.cell_die.specs.DieState.{DieState, IsShaped, page_count, page_bytes, page_of};
ghost use Rattle.cell_die.specs.Changes.{SameCells, OnlyPage, OnlyBlock, IsBetween, IsErased, ErasedInPart};
ghost use Rattle.cell_die.specs.Calls.{Kept, Passed, ChangeFailed, ReadFailed, HeldWithoutPower};

use crate::{DieFault, Shape};

/// How an erase ended that did not fail.
#[derive(Clone, Copy, Debug, PartialEq, Eq)]
pub enum Erased {
    /// No cell of the block is charged.
    Clean,
    /// The block no longer erases: some of its cells may be charged.
    Bad,
}

/// A die with an erase that may go bad in place of `Die::erase`. All other calls are those of a `Die`.
pub trait WornDie {
    /// All that contracts see of a die.
    ghost state: { Self → DieState };

    /// How many erases went bad.
    ghost bad_erases: { Self → ℕ };

    fn shape(&self) -> Shape
        ensures { result ≡ (state self.now).shape };

    /// Reads a page. After a fault `into` holds any bytes.
    fn read(&mut self, page: u32, into: &mut [u8]) -> Result<(), DieFault>
        requires page { page < page_count (state self.old).shape }
        requires whole_page { length into.old ≡ page_bytes (state self.old).shape }
        ensures read { OnOk result (into.new ≡ page_of (state self.old) page) }
        ensures same_cells { SameCells (state self.old) (state self.new) }
        ensures kept { Kept (state self.old) (state self.new) }
        ensures passed { OnOk result (Passed 0 1 (state self.old) (state self.new)) }
        ensures failed { OnErr result (ReadFailed 0 1 (state self.old) (state self.new)) }
        ensures unpowered { HeldWithoutPower (state self.old) (state self.new) }
        ensures same_bad { bad_erases self.new ≡ bad_erases self.old };

    /// Programs a page to cells above those that it has. After a fault some of the cells are charged.
    fn program(&mut self, page: u32, target: &[u8]) -> Result<(), DieFault>
        requires page { page < page_count (state self.old).shape }
        requires above { IsAbove target.now (page_of (state self.old) page) }
        ensures programmed { OnOk result (page_of (state self.new) page ≡ target.now) }
        ensures in_part { OnErr result (IsBetween (page_of (state self.old) page) (page_of (state self.new) page) target.now) }
        ensures only_page { OnlyPage page (state self.old) (state self.new) }
        ensures kept { Kept (state self.old) (state self.new) }
        ensures passed { OnOk result (Passed 1 0 (state self.old) (state self.new)) }
        ensures failed { OnErr result (ChangeFailed 1 0 (state self.old) (state self.new)) }
        ensures unpowered { HeldWithoutPower (state self.old) (state self.new) }
        ensures same_bad { bad_erases self.new ≡ bad_erases self.old };

    /// Charges one cell of a page. After a fault it is charged or as before.
    fn charge(&mut self, page: u32, cell: u32) -> Result<(), DieFault>
        requires page { page < page_count (state self.old).shape }
        requires cell { cell < 8 * page_bytes (state self.old).shape }
        ensures charged { OnOk result (page_of (state self.new) page ≡ charge (page_of (state self.old) page) cell) }
        ensures charged_or_not { OnErr result ((page_of (state self.new) page ≡ page_of (state self.old) page)
            ⊎ (page_of (state self.new) page ≡ charge (page_of (state self.old) page) cell)) }
        ensures only_page { OnlyPage page (state self.old) (state self.new) }
        ensures kept { Kept (state self.old) (state self.new) }
        ensures passed { OnOk result (Passed 1 0 (state self.old) (state self.new)) }
        ensures failed { OnErr result (ChangeFailed 1 0 (state self.old) (state self.new)) }
        ensures unpowered { HeldWithoutPower (state self.old) (state self.new) }
        ensures same_bad { bad_erases self.new ≡ bad_erases self.old };

    /// Uncharges all cells of a block, or answers that the block went bad. After a fault nothing has changed, or some of
    /// the block's cells are uncharged.
    fn erase_or_bad(&mut self, block: u32) -> Result<Erased, DieFault>
        requires block { block < (state self.old).shape.blocks }
        ensures clean { result ≡ Ok Erased.Clean → IsErased block (state self.old) (state self.new) }
        ensures clean_bad { result ≡ Ok Erased.Clean → bad_erases self.new ≡ bad_erases self.old }
        ensures bad { result ≡ Ok Erased.Bad → ErasedInPart block (state self.old) (state self.new) }
        ensures bad_rose { result ≡ Ok Erased.Bad → Rose (bad_erases self.old) (bad_erases self.new) }
        ensures in_part { OnErr result (SameCells (state self.old) (state self.new) ⊎ ErasedInPart block (state self.old) (state self.new)) }
        ensures failed_bad { OnErr result (bad_erases self.new ≡ bad_erases self.old) }
        ensures only_block { OnlyBlock block (state self.old) (state self.new) }
        ensures kept { Kept (state self.old) (state self.new) }
        ensures passed { OnOk result (Passed 1 0 (state self.old) (state self.new)) }
        ensures failed { OnErr result (ChangeFailed 1 0 (state self.old) (state self.new)) }
        ensures unpowered { HeldWithoutPower (state self.old) (state self.new) }
        ensures bad_later { bad_erases self.old ≤ bad_erases self.new };

    /// The die has the cells that its shape says.
    ghost shaped: { (die : Self) → IsShaped (state die) };
}
