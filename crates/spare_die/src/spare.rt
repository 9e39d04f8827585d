//! The die: the pages of a logical block stand in its home, and an erase that goes bad moves it to a reserve block. An entry
//! of the table moves a block with the charge of its gate, after all else of it is written.
ghost use Rattle.std.specs.Prelude.{◌≡◌, ◌⊎◌, ◌<◌, ◌≤◌, false, length, OnOk, OnErr, IfOk, IfErr};
ghost use Rattle.cell_die.specs.Cells.{blank_page};
ghost use Rattle.cell_die.specs.DieState.{page_bytes, page_count, page_of};
ghost use Rattle.cell_die.specs.Changes.{OnlyPage};
ghost use Rattle.cell_die.specs.Calls.{Kept, Passed, ChangeFailed};
ghost use Rattle.spare_die.specs.Table.{is_gated};
ghost use Rattle.spare_die.specs.Entering.{IsEntry};
ghost use Rattle.spare_die.specs.Opening.{FitsShape, IsSoundTable, OnlyReads, StartsAt, OpenCause};
ghost use Rattle.spare_die.specs.Book.{IsOrderly, KeepsFacts};

use crate::book::{Book, Place};
use crate::entry::{Entry, GATE, spell};
use crate::error::OpenError;
use crate::opening::{Opened, read_die};
use crate::tally::Tally;
use cell_die::{Die, DieFault, Erased, Shape, WornDie};
use std::alloc::Global;

/// A die over one some of whose erases go bad. From its first failed change call on each call fails, until it is opened again.
#[derive(Drop)]
pub struct SpareDie<D: WornDie> {
    inner: D,
    logical: u32,
    book: Book,
    tally: Tally,
    /// The page of an entry.
    entry: Vec<u8>,
    ghost orderly: { IsOrderly (D.state inner) (D.bad_erases inner) logical book tally },
    ghost keeps: { KeepsFacts (D.state inner) (D.bad_erases inner) logical tally },
    ghost whole_page: { length entry.items ≡ page_bytes (D.state inner).shape },
}

/// Writes an entry on a blank table page: first all but its gate, then the gate.
fn put_entry<D: WornDie>(
    die: &mut D,
    at: u32,
    entry: Entry,
    page: &mut [u8],
) -> Result<(), DieFault>
    requires inside { at < page_count (D.state die.old).shape }
    requires room { 9 ≤ page_bytes (D.state die.old).shape }
    requires logical { entry.logical < 1024 }
    requires inner { entry.inner < 1024 }
    requires whole_page { length page.old ≡ page_bytes (D.state die.old).shape }
    requires blank { page_of (D.state die.old) at ≡ blank_page (page_bytes (D.state die.old).shape) }
    ensures put { OnOk result (IsEntry (page_of (D.state die.new) at) entry.logical entry.inner) }
    ensures put_or_not { OnErr result ((is_gated (page_of (D.state die.new) at) ≡ false) ⊎ IsEntry (page_of (D.state die.new) at) entry.logical entry.inner) }
    ensures only_page { OnlyPage at (D.state die.old) (D.state die.new) }
    ensures kept { Kept (D.state die.old) (D.state die.new) }
    ensures passed { OnOk result (Passed 2 0 (D.state die.old) (D.state die.new)) }
    ensures failed { OnErr result (ChangeFailed 2 0 (D.state die.old) (D.state die.new)) }
    ensures same_bad { D.bad_erases die.new ≡ D.bad_erases die.old }
{
    spell(entry, page);
    die.program(at, page)?;
    die.charge(at, GATE)
}

/// The inner die, given back, and why it was refused.
#[derive(Drop)]
pub struct OpenRefused<D> {
    pub die: D,
    pub why: OpenError,
}

/// Opens a die with so many logical blocks. Refused by the first that applies: `Shape` exactly where the die has no room for
/// them, `OutOfMemory`, `DieFault` only where a read failed in this call, `Table` exactly where the table is not sound.
/// It makes no change call.
pub fn open<D: WornDie>(alloc: Global, die: D, logical: u32) -> Result<SpareDie<D>, OpenRefused<D>>
    ensures fits { OnOk result (FitsShape (D.state die).shape logical) }
    ensures sound { OnOk result (IsSoundTable (D.state die) logical) }
    ensures reads { IfOk result (λ spare. OnlyReads (D.state die) (D.state spare.inner)) }
    ensures logical { IfOk result (λ spare. spare.logical ≡ logical) }
    ensures starts { IfOk result (λ spare. StartsAt (D.state spare.inner) logical spare.tally) }
    ensures cause { IfErr result (λ refused. OpenCause refused.why (D.state die) (D.state refused.die) logical) }
    ensures reads_back { IfErr result (λ refused. OnlyReads (D.state die) (D.state refused.die)) }
{
    let mut die = die;
    match read_die(alloc, &mut die, logical) {
        Ok(Opened { book, tally, entry }) => Ok(SpareDie {
            inner: die,
            logical,
            book,
            tally,
            entry,
        }),
        Err(why) => Err(OpenRefused { die, why }),
    }
}

impl<D: WornDie> SpareDie<D> {
    ghost use Rattle.std.specs.Prelude.{◌≡◌, ◌*◌, ◌+◌, ◌<◌, ◌-◌, false};
    ghost use Rattle.std.specs.Prelude.{◌⊎◌, true, Ok, OnOk, OnErr, is_err};
    ghost use Rattle.cell_die.specs.Counts.{Rose};
    ghost use Rattle.cell_die.specs.Calls.{Kept, Passed, ChangeFailed};
    ghost use Rattle.spare_die.specs.Table.{home, named_count, reserve_count};
    ghost use Rattle.spare_die.specs.Spare.{spare_place};
    ghost use Rattle.spare_die.specs.Tallies.{own_of, CountsUp, SameFaults, SameCounts};
    ghost use Rattle.spare_die.specs.Entering.{ErasesHome, IsBlankBlock, ReplacesHome, ReplaceFailed, IsLowest};

    /// The inner die.
    pub fn into_inner(self) -> D
        ensures { result ≡ self.inner }
    {
        self.inner
    }

    /// The number of reserve blocks that no entry named at the opening, less the number of entries that were written since.
    pub fn left(&self) -> u32
        ensures left { result ≡ reserve_count (D.state self.now.inner) self.now.logical - self.now.tally.named_at_opening - self.now.tally.written }
        ensures free { (D.state self.now.inner).change_faults ≡ 0 → result + named_count (D.state self.now.inner) self.now.logical ≡ reserve_count (D.state self.now.inner) self.now.logical }
    {
        self.inner.shape().blocks
            - (self.logical + 1)
            - self.tally.named_at_opening
            - self.tally.written
    }

    /// The inner block of a logical block.
    fn home(&self, block: u32) -> u32
        requires running { self.now.tally.stopped ≡ false }
        requires inside { block < self.now.logical }
        ensures { result ≡ home (D.state self.now.inner) block }
    {
        self.book.homes[block as usize]
    }

    /// Where a page of a logical block stands.
    fn place(&self, page: u32) -> u32
        requires running { self.now.tally.stopped ≡ false }
        requires inside { page < self.now.logical * (D.state self.now.inner).shape.pages }
        ensures { result ≡ spare_place (D.state self.now.inner) page }
    {
        let pages = self.inner.shape().pages;
        self.home(page / pages) * pages + page % pages
    }

    /// Erases the home of a logical block, and counts the erase.
    fn erase_home(&mut self, block: u32) -> Result<Erased, DieFault>
        requires running { self.old.tally.stopped ≡ false }
        requires inside { block < self.old.logical }
        ensures erases { ErasesHome (D.state self.old.inner) (D.state self.new.inner) (home (D.state self.old.inner) block) }
        ensures clean { result ≡ Ok Erased.Clean → IsBlankBlock (D.state self.new.inner) (home (D.state self.old.inner) block) }
        ensures kept { Kept (D.state self.old.inner) (D.state self.new.inner) }
        ensures passed { OnOk result (Passed 1 0 (D.state self.old.inner) (D.state self.new.inner)) }
        ensures failed { OnErr result (ChangeFailed 1 0 (D.state self.old.inner) (D.state self.new.inner)) }
        ensures counts { CountsUp block (own_of self.old.tally) (own_of self.new.tally) }
        ensures same_faults { SameFaults (own_of self.old.tally) (own_of self.new.tally) }
        ensures stopped { self.new.tally.stopped ≡ is_err result }
        ensures logical { self.new.logical ≡ self.old.logical }
        ensures bad_more { result ≡ Ok Erased.Bad → self.new.tally.written < self.new.tally.bad }
        ensures bad_rose { result ≡ Ok Erased.Bad → Rose (D.bad_erases self.old.inner) (D.bad_erases self.new.inner) }
    {
        let home = self.home(block);
        self.tally.count_erase(block);
        let result = self.inner.erase_or_bad(home);
        self.tally.count_answer(result);
        result
    }

    /// Moves a logical block whose home went bad to a reserve block, where reserve and table have room.
    fn replace(&mut self, block: u32) -> Result<(), DieFault>
        requires running { self.old.tally.stopped ≡ false }
        requires inside { block < self.old.logical }
        requires bad_more { self.old.tally.written < self.old.tally.bad }
        ensures replaces { ReplacesHome (D.state self.old.inner) (D.state self.new.inner) block }
        ensures moved { OnOk result (IsBlankBlock (D.state self.new.inner) (home (D.state self.new.inner) block)) }
        ensures moved_or_not { OnErr result ((home (D.state self.new.inner) block ≡ home (D.state self.old.inner) block)
            ⊎ IsBlankBlock (D.state self.new.inner) (home (D.state self.new.inner) block)) }
        ensures kept { Kept (D.state self.old.inner) (D.state self.new.inner) }
        ensures passed { OnOk result (Passed 2 0 (D.state self.old.inner) (D.state self.new.inner)) }
        ensures failed { OnErr result (ReplaceFailed (D.state self.old.inner) (D.state self.new.inner) self.new.logical (own_of self.old.tally) (own_of self.new.tally)) }
        ensures same_own { OnOk result (own_of self.new.tally ≡ own_of self.old.tally) }
        ensures same_counts { SameCounts (own_of self.old.tally) (own_of self.new.tally) }
        ensures stopped { self.new.tally.stopped ≡ is_err result }
        ensures logical { self.new.logical ≡ self.old.logical }
        ensures same_bad { D.bad_erases self.new.inner ≡ D.bad_erases self.old.inner }
    {
        match self.book.next_place() {
            Some(place) => self.write_entry(block, place),
            None => Err(self.tally.refuse_change()),
        }
    }

    /// Writes the entry that moves a logical block to this free reserve block, on this blank table page.
    fn write_entry(&mut self, block: u32, place: Place) -> Result<(), DieFault>
        requires running { self.old.tally.stopped ≡ false }
        requires inside { block < self.old.logical }
        requires bad_more { self.old.tally.written < self.old.tally.bad }
        requires free { IsLowest self.old.book.taken.items place.inner }
        requires blank { IsLowest self.old.book.used.items place.page }
        ensures replaces { ReplacesHome (D.state self.old.inner) (D.state self.new.inner) block }
        ensures moved { OnOk result (IsBlankBlock (D.state self.new.inner) (home (D.state self.new.inner) block)) }
        ensures moved_or_not { OnErr result ((home (D.state self.new.inner) block ≡ home (D.state self.old.inner) block)
            ⊎ IsBlankBlock (D.state self.new.inner) (home (D.state self.new.inner) block)) }
        ensures kept { Kept (D.state self.old.inner) (D.state self.new.inner) }
        ensures passed { OnOk result (Passed 2 0 (D.state self.old.inner) (D.state self.new.inner)) }
        ensures failed { OnErr result (ReplaceFailed (D.state self.old.inner) (D.state self.new.inner) self.new.logical (own_of self.old.tally) (own_of self.new.tally)) }
        ensures same_own { OnOk result (own_of self.new.tally ≡ own_of self.old.tally) }
        ensures same_counts { SameCounts (own_of self.old.tally) (own_of self.new.tally) }
        ensures stopped { self.new.tally.stopped ≡ is_err result }
        ensures logical { self.new.logical ≡ self.old.logical }
        ensures same_bad { D.bad_erases self.new.inner ≡ D.bad_erases self.old.inner }
    {
        let entry = Entry {
            logical: block,
            inner: place.inner,
        };
        if let Err(fault) = put_entry(&mut self.inner, place.page, entry, &mut self.entry) {
            self.tally.stopped = true;
            return Err(fault);
        }
        self.book.note(entry, place.page);
        self.tally.written += 1;
        Ok(())
    }
}

impl<D: WornDie> Die for SpareDie<D> {
    ghost use Rattle.std.specs.Prelude.{◌≡◌, ◌⊎◌, ◌<◌, ◌*◌, ◌||◌, true, false, length, OnOk, OnErr, IsErr, is_err};
    ghost use Rattle.cell_die.specs.Cells.{IsAbove, charge};
    ghost use Rattle.cell_die.specs.DieState.{page_count, page_bytes, page_of};
    ghost use Rattle.cell_die.specs.Changes.{SameCells, OnlyPage, OnlyBlock, IsBetween, IsErased, ErasedInPart};
    ghost use Rattle.cell_die.specs.Calls.{Kept, Passed, ChangeFailed, ReadFailed, HeldWithoutPower};
    ghost use Rattle.spare_die.specs.Spare.{spare_state};
    ghost use Rattle.spare_die.specs.Tallies.{own_of, CountsUp};
    ghost use Rattle.spare_die.specs.Book.{BadUsedUp};
    ghost use Rattle.spare_die.specs.SpareLaws.{spare_shaped};

    ghost state = { λ die. spare_state (D.state die.inner) die.logical (own_of die.tally) };

    ghost shaped = { λ die. spare_shaped (D.state die.inner) die.logical (own_of die.tally) (D.shaped die.inner) die.orderly.homes die.orderly.erases };

    fn shape(&self) -> Shape {
        Shape {
            blocks: self.logical,
            ..self.inner.shape()
        }
    }

    fn read(&mut self, page: u32, into: &mut [u8]) -> Result<(), DieFault>
        requires page { page < page_count (spare_state (D.state self.old.inner) self.old.logical (own_of self.old.tally)).shape }
        requires whole_page { length into.old ≡ page_bytes (spare_state (D.state self.old.inner) self.old.logical (own_of self.old.tally)).shape }
        ensures read { OnOk result (into.new ≡ page_of (spare_state (D.state self.old.inner) self.old.logical (own_of self.old.tally)) page) }
        ensures same_cells { SameCells
            (spare_state (D.state self.old.inner) self.old.logical (own_of self.old.tally))
            (spare_state (D.state self.new.inner) self.new.logical (own_of self.new.tally)) }
        ensures kept { Kept
            (spare_state (D.state self.old.inner) self.old.logical (own_of self.old.tally))
            (spare_state (D.state self.new.inner) self.new.logical (own_of self.new.tally)) }
        ensures passed { OnOk result (Passed 0 1
            (spare_state (D.state self.old.inner) self.old.logical (own_of self.old.tally))
            (spare_state (D.state self.new.inner) self.new.logical (own_of self.new.tally))) }
        ensures failed { OnErr result (ReadFailed 0 1
            (spare_state (D.state self.old.inner) self.old.logical (own_of self.old.tally))
            (spare_state (D.state self.new.inner) self.new.logical (own_of self.new.tally))) }
        ensures unpowered { HeldWithoutPower
            (spare_state (D.state self.old.inner) self.old.logical (own_of self.old.tally))
            (spare_state (D.state self.new.inner) self.new.logical (own_of self.new.tally)) }
        // After a failed change call each read fails; else it fails only where the inner die's count rose in this call.
        ensures refused { self.old.tally.stopped ≡ true → IsErr result }
        ensures untouched { self.old.tally.stopped ≡ true → self.new.inner ≡ self.old.inner }
        ensures cause { OnErr result ((self.old.tally.stopped ≡ true) ⊎ ReadFailed 0 1 (D.state self.old.inner) (D.state self.new.inner)) }
        ensures stopped { self.new.tally.stopped ≡ self.old.tally.stopped }
    {
        if self.tally.stopped {
            return Err(self.tally.refuse_read());
        }
        let place = self.place(page);
        self.inner.read(place, into)
    }

    fn program(&mut self, page: u32, target: &[u8]) -> Result<(), DieFault>
        requires page { page < page_count (spare_state (D.state self.old.inner) self.old.logical (own_of self.old.tally)).shape }
        requires above { IsAbove target.now (page_of (spare_state (D.state self.old.inner) self.old.logical (own_of self.old.tally)) page) }
        ensures programmed { OnOk result (page_of (spare_state (D.state self.new.inner) self.new.logical (own_of self.new.tally)) page ≡ target.now) }
        ensures in_part { OnErr result (IsBetween (page_of (spare_state (D.state self.old.inner) self.old.logical (own_of self.old.tally)) page)
            (page_of (spare_state (D.state self.new.inner) self.new.logical (own_of self.new.tally)) page) target.now) }
        ensures only_page { OnlyPage page
            (spare_state (D.state self.old.inner) self.old.logical (own_of self.old.tally))
            (spare_state (D.state self.new.inner) self.new.logical (own_of self.new.tally)) }
        ensures kept { Kept
            (spare_state (D.state self.old.inner) self.old.logical (own_of self.old.tally))
            (spare_state (D.state self.new.inner) self.new.logical (own_of self.new.tally)) }
        ensures passed { OnOk result (Passed 1 0
            (spare_state (D.state self.old.inner) self.old.logical (own_of self.old.tally))
            (spare_state (D.state self.new.inner) self.new.logical (own_of self.new.tally))) }
        ensures failed { OnErr result (ChangeFailed 1 0
            (spare_state (D.state self.old.inner) self.old.logical (own_of self.old.tally))
            (spare_state (D.state self.new.inner) self.new.logical (own_of self.new.tally))) }
        ensures unpowered { HeldWithoutPower
            (spare_state (D.state self.old.inner) self.old.logical (own_of self.old.tally))
            (spare_state (D.state self.new.inner) self.new.logical (own_of self.new.tally)) }
        // After a failed change call each call fails; else this one fails only where the inner die's count rose in it.
        ensures refused { self.old.tally.stopped ≡ true → IsErr result }
        ensures untouched { self.old.tally.stopped ≡ true → self.new.inner ≡ self.old.inner }
        ensures cause { OnErr result ((self.old.tally.stopped ≡ true) ⊎ ChangeFailed 1 0 (D.state self.old.inner) (D.state self.new.inner)) }
        ensures stopped { self.new.tally.stopped ≡ (self.old.tally.stopped || is_err result) }
    {
        if self.tally.stopped {
            return Err(self.tally.refuse_change());
        }
        let place = self.place(page);
        let result = self.inner.program(place, target);
        self.tally.stopped = result.is_err();
        result
    }

    fn charge(&mut self, page: u32, cell: u32) -> Result<(), DieFault>
        requires page { page < page_count (spare_state (D.state self.old.inner) self.old.logical (own_of self.old.tally)).shape }
        requires cell { cell < 8 * page_bytes (spare_state (D.state self.old.inner) self.old.logical (own_of self.old.tally)).shape }
        ensures charged { OnOk result (page_of (spare_state (D.state self.new.inner) self.new.logical (own_of self.new.tally)) page
            ≡ charge (page_of (spare_state (D.state self.old.inner) self.old.logical (own_of self.old.tally)) page) cell) }
        ensures charged_or_not { OnErr result ((page_of (spare_state (D.state self.new.inner) self.new.logical (own_of self.new.tally)) page
            ≡ page_of (spare_state (D.state self.old.inner) self.old.logical (own_of self.old.tally)) page)
            ⊎ (page_of (spare_state (D.state self.new.inner) self.new.logical (own_of self.new.tally)) page
            ≡ charge (page_of (spare_state (D.state self.old.inner) self.old.logical (own_of self.old.tally)) page) cell)) }
        ensures only_page { OnlyPage page
            (spare_state (D.state self.old.inner) self.old.logical (own_of self.old.tally))
            (spare_state (D.state self.new.inner) self.new.logical (own_of self.new.tally)) }
        ensures kept { Kept
            (spare_state (D.state self.old.inner) self.old.logical (own_of self.old.tally))
            (spare_state (D.state self.new.inner) self.new.logical (own_of self.new.tally)) }
        ensures passed { OnOk result (Passed 1 0
            (spare_state (D.state self.old.inner) self.old.logical (own_of self.old.tally))
            (spare_state (D.state self.new.inner) self.new.logical (own_of self.new.tally))) }
        ensures failed { OnErr result (ChangeFailed 1 0
            (spare_state (D.state self.old.inner) self.old.logical (own_of self.old.tally))
            (spare_state (D.state self.new.inner) self.new.logical (own_of self.new.tally))) }
        ensures unpowered { HeldWithoutPower
            (spare_state (D.state self.old.inner) self.old.logical (own_of self.old.tally))
            (spare_state (D.state self.new.inner) self.new.logical (own_of self.new.tally)) }
        // After a failed change call each call fails; else this one fails only where the inner die's count rose in it.
        ensures refused { self.old.tally.stopped ≡ true → IsErr result }
        ensures untouched { self.old.tally.stopped ≡ true → self.new.inner ≡ self.old.inner }
        ensures cause { OnErr result ((self.old.tally.stopped ≡ true) ⊎ ChangeFailed 1 0 (D.state self.old.inner) (D.state self.new.inner)) }
        ensures stopped { self.new.tally.stopped ≡ (self.old.tally.stopped || is_err result) }
    {
        if self.tally.stopped {
            return Err(self.tally.refuse_change());
        }
        let place = self.place(page);
        let result = self.inner.charge(place, cell);
        self.tally.stopped = result.is_err();
        result
    }

    fn erase(&mut self, block: u32) -> Result<(), DieFault>
        requires block { block < (spare_state (D.state self.old.inner) self.old.logical (own_of self.old.tally)).shape.blocks }
        ensures erased { OnOk result (IsErased block
            (spare_state (D.state self.old.inner) self.old.logical (own_of self.old.tally))
            (spare_state (D.state self.new.inner) self.new.logical (own_of self.new.tally))) }
        ensures in_part { OnErr result (SameCells
            (spare_state (D.state self.old.inner) self.old.logical (own_of self.old.tally))
            (spare_state (D.state self.new.inner) self.new.logical (own_of self.new.tally))
            ⊎ ErasedInPart block
            (spare_state (D.state self.old.inner) self.old.logical (own_of self.old.tally))
            (spare_state (D.state self.new.inner) self.new.logical (own_of self.new.tally))) }
        ensures only_block { OnlyBlock block
            (spare_state (D.state self.old.inner) self.old.logical (own_of self.old.tally))
            (spare_state (D.state self.new.inner) self.new.logical (own_of self.new.tally)) }
        ensures kept { Kept
            (spare_state (D.state self.old.inner) self.old.logical (own_of self.old.tally))
            (spare_state (D.state self.new.inner) self.new.logical (own_of self.new.tally)) }
        ensures passed { OnOk result (Passed 1 0
            (spare_state (D.state self.old.inner) self.old.logical (own_of self.old.tally))
            (spare_state (D.state self.new.inner) self.new.logical (own_of self.new.tally))) }
        ensures failed { OnErr result (ChangeFailed 1 0
            (spare_state (D.state self.old.inner) self.old.logical (own_of self.old.tally))
            (spare_state (D.state self.new.inner) self.new.logical (own_of self.new.tally))) }
        ensures unpowered { HeldWithoutPower
            (spare_state (D.state self.old.inner) self.old.logical (own_of self.old.tally))
            (spare_state (D.state self.new.inner) self.new.logical (own_of self.new.tally)) }
        // After a failed change call each erase fails; else it fails only where the inner die's count rose in it, or where an
        // erase of the inner die went bad and reserve or table is used up.
        ensures refused { self.old.tally.stopped ≡ true → IsErr result }
        ensures untouched { self.old.tally.stopped ≡ true → self.new.inner ≡ self.old.inner }
        ensures cause { OnErr result ((self.old.tally.stopped ≡ true) ⊎ (ChangeFailed 3 0 (D.state self.old.inner) (D.state self.new.inner) ⊎ BadUsedUp
            (D.state self.new.inner) (D.bad_erases self.old.inner) (D.bad_erases self.new.inner) self.new.logical)) }
        ensures stopped { self.new.tally.stopped ≡ (self.old.tally.stopped || is_err result) }
        ensures counted { self.old.tally.stopped ≡ false → CountsUp block (own_of self.old.tally) (own_of self.new.tally) }
    {
        if self.tally.stopped {
            return Err(self.tally.refuse_change());
        }
        match self.erase_home(block)? {
            Erased::Clean => Ok(()),
            Erased::Bad => self.replace(block),
        }
    }
}
