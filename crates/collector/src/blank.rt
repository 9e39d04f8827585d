//! The erase of a Spare. It comes as late as it can, just before the first copy, and not at all where the Spare is known to be
//! blank.
ghost use Rattle.std.specs.Prelude.{◌≡◌, ◌⊎◌, ◌<◌, false, OnOk, OnErr};
ghost use Rattle.cell_die.specs.Changes.{SameCells, OnlyBlock, ErasedInPart};
ghost use Rattle.cell_die.specs.Calls.{Kept, ChangeFailed};
ghost use Rattle.block_state.specs.Book.{IsSpare, state_at};
ghost use Rattle.collector.specs.Steps.{MadeBlank};

use block_state::{Book, State};
use cell_die::{Die, DieFault};

/// Erases the Spare where it is not known to be blank.
pub(crate) fn blank_spare<D: Die>(die: &mut D, book: &mut Book, spare: u32) -> Result<(), DieFault>
    requires is_spare { IsSpare book.old spare }
    requires block { spare < (D.state die.old).shape.blocks }
    ensures blank { OnOk result (MadeBlank spare (D.state die.old) book.old (D.state die.new) book.new) }
    ensures torn { OnErr result (SameCells (D.state die.old) (D.state die.new) ⊎ ErasedInPart spare (D.state die.old) (D.state die.new)) }
    ensures only_block { OnErr result (OnlyBlock spare (D.state die.old) (D.state die.new)) }
    ensures kept { Kept (D.state die.old) (D.state die.new) }
    ensures failed { OnErr result (ChangeFailed 1 0 (D.state die.old) (D.state die.new)) }
    ensures same_book { OnErr result (book.new ≡ book.old) }
    ensures not_blank { OnErr result (state_at book.old spare ≡ State.Spare false) }
{
    let State::Spare { blank } = book.state_of(spare) else {
        unreachable!()
    };
    if blank {
        return Ok(());
    }
    die.erase(spare)?;
    book.set_state(spare, State::Spare { blank: true });
    Ok(())
}
