//! The moves of an idle call: records go to the Active block one by one, until so many have gone or none may go.
ghost use Rattle.std.specs.Prelude.{◌≡◌, ◌<◌, ◌^◌, true, false, Ok, Err};
ghost use Rattle.cell_die.specs.Counts.{count_sum};
ghost use Rattle.collector.specs.Moves.{Moved, MoveReadFailed, MoveChangeFailed, NoMoveLeft};
ghost use Rattle.rssd_core.specs.Held.{Keeps, stops};
ghost use Rattle.rssd_core.specs.Idle.{MovesEnd, stopped_by};

use crate::store::Store;
use cell_die::Die;
use collector::move_one;
use page_codec::PutFault;
use striped::Scheme;

/// How many records were moved, and what ended the moves where a call of the die failed.
#[derive(Clone, Copy, Debug, PartialEq, Eq)]
pub(crate) struct Moves {
    /// The finished moves.
    pub count: u32,
    /// The call of the die that failed in the move after them.
    pub fault: Option<PutFault>,
}

impl<D: Die + Drop, C: Scheme + Drop> Store<D, C> {
    /// Moves the first live record of the idle victim, and answers whether there was one to move.
    fn move_record(&mut self) -> Result<bool, PutFault>
        requires running { self.old.stopped ≡ false }
        requires fresh { self.old.cells.seq < 2 ^ 62 }
        ensures keeps { Keeps C.meaning self.old self.new }
        ensures moved { result ≡ Ok true → Moved self.old.geometry (C.meaning self.old.scheme).decoding self.old.cells self.new.cells }
        ensures rises { result ≡ Ok true → self.new.moved ≡ count_sum self.old.moved 1 }
        ensures none { result ≡ Ok false → NoMoveLeft self.old.cells.book }
        ensures none_alone { NoMoveLeft self.old.cells.book → result ≡ Ok false }
        ensures nothing { result ≡ Ok false → self.new.cells ≡ self.old.cells }
        ensures read_failed { result ≡ Err PutFault.Read → MoveReadFailed self.old.geometry self.old.cells self.new.cells }
        ensures change_failed { result ≡ Err PutFault.Change → MoveChangeFailed self.old.geometry (C.meaning self.old.scheme).decoding self.old.cells self.new.cells }
        ensures same_moved { (result ≡ Ok true → ⊥) → self.new.moved ≡ self.old.moved }
        ensures stopped { self.new.stopped ≡ stops result }
    {
        match move_one(
            &mut self.die,
            &mut self.scheme,
            &mut self.work,
            &mut self.map,
            &mut self.book,
            &mut self.seq,
        ) {
            Ok(true) => {
                self.moved = self.moved.saturating_add(1);
                Ok(true)
            }
            Ok(false) => Ok(false),
            Err(PutFault::Read) => Err(PutFault::Read),
            Err(PutFault::Change) => {
                self.stopped = true;
                Err(PutFault::Change)
            }
        }
    }

    /// Moves at most `n` records, each the first live one of the idle victim. It ends where none fits the Active block's room,
    /// where the record numbers are spent, and where a call of the die fails.
    pub(crate) fn move_records(&mut self, n: u32) -> Moves
        requires running { self.old.stopped ≡ false }
        requires few_moved { self.old.moved < 2 ^ 64 }
        ensures keeps { Keeps C.meaning self.old self.new }
        ensures ends { MovesEnd self.old.geometry (C.meaning self.old.scheme).decoding n result.count result.fault self.old.cells self.new.cells }
        ensures tally { self.new.moved ≡ count_sum self.old.moved result.count }
        ensures stopped { self.new.stopped ≡ stopped_by result.fault }
    {
        for count in 0..n {
            if self.is_spent() {
                return Moves { count, fault: None };
            }
            match self.move_record() {
                Ok(true) => {}
                Ok(false) => return Moves { count, fault: None },
                Err(fault) => {
                    return Moves {
                        count,
                        fault: Some(fault),
                    };
                }
            }
        }
        Moves {
            count: n,
            fault: None,
        }
    }
}
