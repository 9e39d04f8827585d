//! What the die counts since its opening. All counts of faults and of erases stand still at 2^64 - 1.
ghost use Rattle.std.specs.Prelude.{◌≡◌, ◌<◌, ◌||◌, length, true, is_err};
ghost use Rattle.cell_die.specs.Counts.{raised};
ghost use Rattle.spare_die.specs.Tallies.{own_of, CountsUp, SameButErases, bad_after};

use cell_die::{DieFault, Erased};

/// The counts of a die since its opening, and two numbers of its table at the opening.
#[derive(Drop)]
pub struct Tally {
    /// How often each logical block was erased.
    pub erases: Vec<u64>,
    /// The failed calls that did not reach the inner die.
    pub read_faults: u64,
    pub change_faults: u64,
    /// The erases that answered Bad.
    pub bad: u64,
    /// The entries that were written.
    pub written: u32,
    /// The reserve blocks that entries named at the opening.
    pub named_at_opening: u32,
    /// The table pages that were not blank at the opening.
    pub pages_at_opening: u32,
    /// Whether a change call failed.
    pub stopped: bool,
}

impl Tally {
    /// Counts a read that a failed change call before it refuses.
    pub fn refuse_read(&mut self) -> DieFault
        ensures { self.new ≡ record self.old { read_faults = raised self.old.read_faults } }
    {
        self.read_faults = self.read_faults.saturating_add(1);
        DieFault
    }

    /// Counts a change call that fails without reaching the inner die. Every later call fails.
    pub fn refuse_change(&mut self) -> DieFault
        ensures { self.new ≡ record self.old { change_faults = raised self.old.change_faults; stopped = true } }
    {
        self.change_faults = self.change_faults.saturating_add(1);
        self.stopped = true;
        DieFault
    }

    /// Counts an erase of a logical block.
    pub fn count_erase(&mut self, block: u32)
        requires { block < length self.old.erases.items }
        ensures counts { CountsUp block (own_of self.old) (own_of self.new) }
        ensures same { SameButErases self.old self.new }
    {
        let block = block as usize;
        self.erases[block] = self.erases[block].saturating_add(1);
    }

    /// Counts how an erase of the inner die ended. After one that failed every later call fails.
    pub fn count_answer(&mut self, answer: Result<Erased, DieFault>)
        ensures { self.new ≡ record self.old { bad = bad_after answer self.old.bad; stopped = self.old.stopped || is_err answer } }
    {
        match answer {
            Ok(Erased::Clean) => {}
            Ok(Erased::Bad) => self.bad = self.bad.saturating_add(1),
            Err(_) => self.stopped = true,
        }
    }
}
