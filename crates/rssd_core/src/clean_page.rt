//! A page for the next record: the Active block's next one, else that of a Clean block that is taken, of a victim that is wiped,
//! or of the Spare that a victim is collected into.
ghost use Rattle.std.specs.Prelude.{◌≡◌, ◌*◌, ◌^◌, ◌<◌, false, length};
ghost use Rattle.block_state.specs.declared.state.State.TheVariants.{Active};
ghost use Rattle.block_state.specs.Book.{NoneActive, with_state};
ghost use Rattle.page_alloc.specs.CleanPage.{IsWipeBranch, IsCollectBranch};
ghost use Rattle.rssd_core.specs.Held.{Keeps, stops};
ghost use Rattle.rssd_core.specs.Placing.{OpenEnds};

use crate::store::Store;
use block_state::{Book, State};
use cell_die::{Die, DieFault};
use collector::collect;
use page_alloc::{NextPage, next};
use page_codec::PutFault;
use striped::Scheme;

/// Makes a block Active. The answer is its first page.
fn open_block(book: &mut Book, block: u32) -> u32
    requires block { block < length book.old.states }
    requires none { NoneActive book.old }
    requires some_pages { 0 < book.old.pages }
    ensures book { book.new ≡ with_state book.old block (Active 0) }
    ensures page { result ≡ block * book.old.pages }
{
    let pages = book.pages();
    let _blocks = book.blocks();
    book.set_state(block, State::Active { fill: 0 });
    block * pages
}

impl<D: Die + Drop, C: Scheme + Drop> Store<D, C> {
    /// Erases the victim, which has no live record, and opens it.
    fn wipe(&mut self, block: u32) -> Result<u32, PutFault>
        requires running { self.old.stopped ≡ false }
        requires branch { IsWipeBranch self.old.cells.book block }
        ensures keeps { Keeps C.meaning self.old self.new }
        ensures ends { OpenEnds self.old.geometry (C.meaning self.old.scheme).decoding result self.old.cells self.new.cells self.old.moved self.new.moved }
        ensures stopped { self.new.stopped ≡ stops result }
    {
        match self.die.erase(block) {
            Ok(()) => Ok(open_block(&mut self.book, block)),
            Err(DieFault) => {
                self.stopped = true;
                Err(PutFault::Change)
            }
        }
    }

    /// Collects the victim into the Spare. The answer is the page behind the copies.
    fn collect_page(&mut self, victim: u32, spare: u32) -> Result<u32, PutFault>
        requires running { self.old.stopped ≡ false }
        requires fresh { self.old.cells.seq < 2 ^ 62 }
        requires branch { IsCollectBranch self.old.cells.book victim spare }
        ensures keeps { Keeps C.meaning self.old self.new }
        ensures ends { OpenEnds self.old.geometry (C.meaning self.old.scheme).decoding result self.old.cells self.new.cells self.old.moved self.new.moved }
        ensures stopped { self.new.stopped ≡ stops result }
    {
        match collect(
            &mut self.die,
            &mut self.scheme,
            &mut self.work,
            &mut self.map,
            &mut self.book,
            &mut self.moves,
            &mut self.seq,
        ) {
            Ok(copies) => {
                self.moved = self.moved.saturating_add(u64::from(copies));
                Ok(spare * self.book.pages() + copies)
            }
            Err(PutFault::Read) => Err(PutFault::Read),
            Err(PutFault::Change) => {
                self.stopped = true;
                Err(PutFault::Change)
            }
        }
    }

    /// Gets a page at hand.
    ///
    /// After `PutFault::Read` records may have been copied that do not count, and after `PutFault::Change` too; over sound cells
    /// every sector is as before.
    pub(crate) fn open_page(&mut self) -> Result<u32, PutFault>
        requires running { self.old.stopped ≡ false }
        requires fresh { self.old.cells.seq < 2 ^ 62 }
        ensures keeps { Keeps C.meaning self.old self.new }
        ensures ends { OpenEnds self.old.geometry (C.meaning self.old.scheme).decoding result self.old.cells self.new.cells self.old.moved self.new.moved }
        ensures stopped { self.new.stopped ≡ stops result }
    {
        match next(&self.book) {
            NextPage::Page(page) => Ok(page),
            NextPage::Take(block) => Ok(open_block(&mut self.book, block)),
            NextPage::Wipe(block) => self.wipe(block),
            NextPage::Collect { victim, spare } => self.collect_page(victim, spare),
        }
    }
}
