//! The rules of a die: programming charges cells of one page, and only an erase, of a whole block, uncharges any.
//! A call that fails changes nothing outside its page or block, and only where a count of faults rose.
ghost use Rattle.std.specs.Prelude.{◌≡◌, ◌⊎◌, ◌<◌, ◌*◌, length, OnOk, OnErr};
ghost use Rattle.cell_die.specs.Cells.{IsAbove, charge};
ghost use Rattle.cell_die.specs.DieState.{DieState, IsShaped, page_count, page_bytes, page_of};
ghost use Rattle.cell_die.specs.Changes.{SameCells, OnlyPage, OnlyBlock, IsBetween, IsErased, ErasedInPart};
ghost use Rattle.cell_die.specs.Calls.{Kept, Passed, ChangeFailed, ReadFailed, HeldWithoutPower};

use crate::{DieFault, Shape};

/// A die. Programming charges cells of one page, and only an erase, of a whole block, uncharges any.
/// `program`, `charge` and `erase` are the change calls.
pub trait Die {
    /// All that contracts see of a die.
    ghost state: { Self → DieState };

    fn shape(&self) -> Shape
        ensures { result ≡ (state self.now).shape };

    /// Reads a page. After a fault `into` holds any bytes.
    fn read(&mut self, page: u32, into: &mut [u8]) -> Result<(), DieFault>
        requires page { page < page_count (state self.old).shape }
        requires whole_page { length into.old ≡ page_bytes (state self.old).shape }
        ensures read { OnOk result (into.new ≡ page_of (state self.old) page) }
        ensures same_cells { SameCells (state self.old) (state self.new) }
        ensures kept { Kept (state self.old) (state self.new) }
        ensures passed { OnOk result (Passed 0 1 (state self.old) (state self.new)) }
        ensures failed { OnErr result (ReadFailed 0 1 (state self.old) (state self.new)) }
        ensures unpowered { HeldWithoutPower (state self.old) (state self.new) };

    /// Programs a page to cells above those that it has. After a fault some of the cells are charged.
    fn program(&mut self, page: u32, target: &[u8]) -> Result<(), DieFault>
        requires page { page < page_count (state self.old).shape }
        requires above { IsAbove target.now (page_of (state self.old) page) }
        ensures programmed { OnOk result (page_of (state self.new) page ≡ target.now) }
        ensures in_part { OnErr result (IsBetween (page_of (state self.old) page) (page_of (state self.new) page) target.now) }
        ensures only_page { OnlyPage page (state self.old) (state self.new) }
        ensures kept { Kept (state self.old) (state self.new) }
        ensures passed { OnOk result (Passed 1 0 (state self.old) (state self.new)) }
        ensures failed { OnErr result (ChangeFailed 1 0 (state self.old) (state self.new)) }
        ensures unpowered { HeldWithoutPower (state self.old) (state self.new) };

    /// Charges one cell of a page. After a fault it is charged or as before.
    fn charge(&mut self, page: u32, cell: u32) -> Result<(), DieFault>
        requires page { page < page_count (state self.old).shape }
        requires cell { cell < 8 * page_bytes (state self.old).shape }
        ensures charged { OnOk result (page_of (state self.new) page ≡ charge (page_of (state self.old) page) cell) }
        ensures charged_or_not { OnErr result ((page_of (state self.new) page ≡ page_of (state self.old) page)
            ⊎ (page_of (state self.new) page ≡ charge (page_of (state self.old) page) cell)) }
        ensures only_page { OnlyPage page (state self.old) (state self.new) }
        ensures kept { Kept (state self.old) (state self.new) }
        ensures passed { OnOk result (Passed 1 0 (state self.old) (state self.new)) }
        ensures failed { OnErr result (ChangeFailed 1 0 (state self.old) (state self.new)) }
        ensures unpowered { HeldWithoutPower (state self.old) (state self.new) };

    /// Uncharges all cells of a block. After a fault nothing has changed, or some of the block's cells are uncharged.
    fn erase(&mut self, block: u32) -> Result<(), DieFault>
        requires block { block < (state self.old).shape.blocks }
        ensures erased { OnOk result (IsErased block (state self.old) (state self.new)) }
        ensures in_part { OnErr result (SameCells (state self.old) (state self.new) ⊎ ErasedInPart block (state self.old) (state self.new)) }
        ensures only_block { OnlyBlock block (state self.old) (state self.new) }
        ensures kept { Kept (state self.old) (state self.new) }
        ensures passed { OnOk result (Passed 1 0 (state self.old) (state self.new)) }
        ensures failed { OnErr result (ChangeFailed 1 0 (state self.old) (state self.new)) }
        ensures unpowered { HeldWithoutPower (state self.old) (state self.new) };

    /// The die has the cells that its shape says.
    ghost shaped: { (die : Self) → IsShaped (state die) };
}
