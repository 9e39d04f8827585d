//! Power and armed failures: every call counts down the failure of its kind, the failure comes with the call that counts
//! it to none, a cut takes the power away, and without power every call fails and counts nothing down.
ghost use Rattle.std.specs.Prelude.{◌≡◌, ◌-◌, ◌==◌, true};
ghost use Rattle.mem_die.specs.Supply.{ChangeBegins, ReadBegins, failures_of};

use cell_die::Torn;

/// Power, armed failures and counts of faults.
#[derive(Clone, Copy, Debug, PartialEq, Eq)]
pub struct Supply {
    pub powered: bool,
    /// In how many change calls the armed cut comes; 0 where none is armed.
    pub cut: u32,
    pub torn: Torn,
    /// In how many reads the armed read failure comes; 0 where none is armed.
    pub read_failure: u32,
    pub read_faults: u64,
    pub change_faults: u64,
}

/// How a change call goes.
#[derive(Clone, Copy, Debug, PartialEq, Eq)]
pub enum Change {
    Whole,
    Cut(Torn),
    Refused,
}

/// Counts one call down. Says whether the failure comes with it.
fn comes(countdown: &mut u32) -> bool
    ensures comes { result ≡ (countdown.old == 1) }
    ensures nearer { countdown.new ≡ countdown.old - 1 }
{
    let comes = *countdown == 1;
    *countdown = countdown.saturating_sub(1);
    comes
}

impl Supply {
    pub fn new() -> Self
        ensures powered { result.powered ≡ true }
        ensures cut { result.cut ≡ 0 }
        ensures read_failure { result.read_failure ≡ 0 }
        ensures read_faults { result.read_faults ≡ 0 }
        ensures change_faults { result.change_faults ≡ 0 }
    {
        Supply {
            powered: true,
            cut: 0,
            torn: Torn::Nothing,
            read_failure: 0,
            read_faults: 0,
            change_faults: 0,
        }
    }

    /// A change call begins.
    pub fn begin_change(&mut self) -> Change
        ensures { ChangeBegins result self.old self.new }
    {
        if self.powered && !comes(&mut self.cut) {
            return Change::Whole;
        }
        self.change_faults = self.change_faults.saturating_add(1);
        if !self.powered {
            return Change::Refused;
        }
        self.powered = false;
        Change::Cut(self.torn)
    }

    /// A read begins. Says whether it is served.
    pub fn begin_read(&mut self) -> bool
        ensures { ReadBegins result self.old self.new }
    {
        let served = self.powered && !comes(&mut self.read_failure);
        if !served {
            self.read_faults = self.read_faults.saturating_add(1);
        }
        served
    }
}
