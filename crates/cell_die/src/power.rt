//! A die whose power and failures a caller sets: the armed cut comes with the n-th change call, the armed read failure
//! with the n-th read.
ghost use Rattle.std.specs.Prelude.{◌≡◌, ◌≤◌, IfSome};
ghost use Rattle.cell_die.specs.Counts.{sum_of};
ghost use Rattle.cell_die.specs.DieState.{DieState};
ghost use Rattle.cell_die.specs.Power.{told, with_cut, with_read_failure, with_power};

use crate::{Die, Torn};

/// A die whose power can be cut. No call of it changes a cell or a count.
pub trait PowerDie: Die {
    /// The `n`-th change call from now is cut in this form. A later call replaces an earlier one.
    fn arm_cut(&mut self, n: u32, torn: Torn)
        requires { 1 ≤ n }
        ensures { Self.state self.new ≡ told (with_cut n torn) (Self.state self.old) };

    /// The `n`-th read from now fails. A later call replaces an earlier one.
    fn fail_read(&mut self, n: u32)
        requires { 1 ≤ n }
        ensures { Self.state self.new ≡ told (with_read_failure n) (Self.state self.old) };

    /// Gives the power back. What is armed stays armed.
    fn power_on(&mut self)
        ensures { Self.state self.new ≡ told with_power (Self.state self.old) };

    /// Whether the die has power.
    fn powered(&self) -> bool
        ensures { IfSome (Self.state self.now).failures (λ failures. result ≡ failures.powered) };

    /// The sum of the erase counts of all blocks; it stands still at 2^64 - 1.
    fn erased(&self) -> u64
        ensures { result ≡ sum_of (Self.state self.now).erases };
}
