//! Collections: all live records of a victim are copied into the Spare, and count at once from the seal of it on. The order is
//! erase, copies and seal, so that a cut leaves the sectors as they were up to the seal, and as they were from it on.
ghost use Rattle.std.specs.Prelude.{◌≡◌, ◌+◌, ◌*◌, ◌<◌, ◌≤◌, ◌^◌, ℕ, length, IfOk, Err};
ghost use Rattle.block_state.specs.Book.{live_at, state_at};
ghost use Rattle.page_alloc.specs.CleanPage.{IsCollectBranch};
ghost use Rattle.page_codec.specs.Sizes.{Serves, ServesScheme};
ghost use Rattle.page_codec.specs.TrueBook.{IsTrue};
ghost use Rattle.collector.specs.Desk.{SameDesk, Fits, Stays, DeskTrue, DeskHolds};
ghost use Rattle.collector.specs.Store.{geometry_of, store, Holds};
ghost use Rattle.collector.specs.Collections.{Collected, CollectReadFailed, CollectChangeFailed};
ghost use Rattle.collector.specs.Erases.{erased_in, EraseEnds};
ghost use Rattle.collector.specs.Turns.{DeskBegins, DeskCollects};

use crate::blank::blank_spare;
use crate::desk::Desk;
use crate::moves::{Move, Moves};
use crate::seal::charge_seal;
use crate::settle::settle;
use block_state::Book;
use cell_die::{Die, DieFault};
use page_codec::{PutFault, Work};
use sector_map::SectorMap;
use striped::Scheme;

impl<D: Die, C: Scheme> Desk<'_, D, C> {
    /// Copies the live records of the victim into the Spare, which is blank, and charges its seal.
    fn copy_sealed(
        &mut self,
        map: &mut SectorMap,
        moves: &mut [Move],
        victim: u32,
        spare: u32,
    ) -> Result<u32, PutFault>
        requires fits { Fits D.state C.meaning self.old }
        requires small_page { (C.meaning self.old.scheme.now).page_bytes ≤ 1200 }
        requires begun { DeskBegins D.state C.meaning victim spare self.old map.old }
        requires some_live { 0 < live_at self.old.book.now victim }
        requires room { (D.state self.old.die.now).shape.pages ≤ length moves.old }
        ensures holds { DeskHolds D.state C.meaning self.old map.old self.new map.new }
        ensures ends { DeskCollects D.state C.meaning victim spare result self.old map.old self.new map.new }
        ensures stays { Stays D.state C.meaning self.old self.new }
        ensures same_desk { SameDesk self.old self.new }
    {
        let copies = match self.copy_block(map, moves, victim, spare) {
            Ok(copies) => copies,
            Err(fault) => return Err(fault),
        };
        let first = spare * self.book.pages();
        match charge_seal(self.die, first) {
            Ok(()) => {
                settle(map, self.book, &moves[..copies as usize], victim, spare);
                Ok(copies)
            }
            Err(DieFault) => Err(PutFault::Change),
        }
    }

    /// Collects the victim into the Spare.
    fn collect_into(
        &mut self,
        map: &mut SectorMap,
        moves: &mut [Move],
        victim: u32,
        spare: u32,
    ) -> Result<u32, PutFault>
        requires fits { Fits D.state C.meaning self.old }
        requires small_page { (C.meaning self.old.scheme.now).page_bytes ≤ 1200 }
        requires tables { DeskTrue D.state C.meaning self.old map.old }
        requires fresh { self.old.seq.now < 2 ^ 62 }
        requires branch { IsCollectBranch self.old.book.now victim spare }
        requires few { live_at self.old.book.now victim < self.old.book.now.pages }
        requires room { self.old.book.now.pages ≤ length moves.old }
        ensures holds { DeskHolds D.state C.meaning self.old map.old self.new map.new }
        ensures ends { DeskCollects D.state C.meaning victim spare result self.old map.old self.new map.new }
        ensures erased { EraseEnds (erased_in (state_at self.old.book.now spare) spare) result (D.state self.old.die.now) (D.state self.new.die.now) }
        ensures same_scheme { C.meaning self.new.scheme.now ≡ C.meaning self.old.scheme.now }
        ensures same_work { self.new.work.now ≡ self.old.work.now }
        ensures same_desk { SameDesk self.old self.new }
    {
        match blank_spare(self.die, self.book, spare) {
            Ok(()) => self.copy_sealed(map, moves, victim, spare),
            Err(DieFault) => Err(PutFault::Change),
        }
    }
}

/// Collects the victim: its live records stand afterwards on the first pages of the Spare, which is the Active block, and the
/// victim is the Spare. It answers how many records were moved. It takes no memory.
///
/// After `PutFault::Read` all sectors and live records are as before, and the seqs of the copies made so far are used up. After
/// `PutFault::Change` all sectors are as before where the cells were sound.
pub fn collect<D: Die, C: Scheme>(
    die: &mut D,
    scheme: &mut C,
    work: &mut Work,
    map: &mut SectorMap,
    book: &mut Book,
    moves: &mut Moves,
    seq: &mut u64,
) -> Result<u32, PutFault>
    requires die { Serves work.old (D.state die.old).shape }
    requires scheme { ServesScheme work.old (C.meaning scheme.old) }
    requires small_sector { (C.meaning scheme.old).sector_bytes ≤ 512 }
    requires small_page { (C.meaning scheme.old).page_bytes ≤ 1200 }
    requires tables { IsTrue (geometry_of (D.state die.old).shape (C.meaning scheme.old) (length map.old)) (D.state die.old).cells book.old map.old seq.old }
    requires fresh { seq.old < 2 ^ 62 }
    requires branch { (victim : ℕ) × (spare : ℕ) × IsCollectBranch book.old victim spare × (live_at book.old victim < book.old.pages) }
    requires room { book.old.pages ≤ moves.old }
    ensures holds { Holds (geometry_of (D.state die.old).shape (C.meaning scheme.old) (length map.old))
        (store (D.state die.old) map.old book.old seq.old) (store (D.state die.new) map.new book.new seq.new) }
    ensures collected { (victim spare : ℕ) → IsCollectBranch book.old victim spare → IfOk result (λ n. (n ≡ live_at book.old victim)
        × Collected (geometry_of (D.state die.old).shape (C.meaning scheme.old) (length map.old)) (C.meaning scheme.old).decoding victim spare
        (store (D.state die.old) map.old book.old seq.old) (store (D.state die.new) map.new book.new seq.new)) }
    ensures read_failed { (victim spare : ℕ) → IsCollectBranch book.old victim spare → result ≡ Err PutFault.Read
        → CollectReadFailed (geometry_of (D.state die.old).shape (C.meaning scheme.old) (length map.old)) (C.meaning scheme.old).decoding victim spare
        (store (D.state die.old) map.old book.old seq.old) (store (D.state die.new) map.new book.new seq.new) }
    ensures change_failed { (victim spare : ℕ) → IsCollectBranch book.old victim spare → result ≡ Err PutFault.Change
        → CollectChangeFailed (geometry_of (D.state die.old).shape (C.meaning scheme.old) (length map.old)) (C.meaning scheme.old).decoding victim spare
        (store (D.state die.old) map.old book.old seq.old) (store (D.state die.new) map.new book.new seq.new) }
    ensures erased { (victim spare : ℕ) → IsCollectBranch book.old victim spare → EraseEnds (erased_in (state_at book.old spare) spare) result (D.state die.old) (D.state die.new) }
    ensures same_scheme { C.meaning scheme.new ≡ C.meaning scheme.old }
    ensures same_work { work.new ≡ work.old }
    ensures same_room { moves.new ≡ moves.old }
{
    let Some(victim) = book.victim() else {
        unreachable!()
    };
    let spare = book.spare();
    let room = &mut moves.moves;
    let mut desk = Desk {
        die,
        scheme,
        work,
        book,
        seq,
    };
    desk.collect_into(map, room, victim, spare)
}
