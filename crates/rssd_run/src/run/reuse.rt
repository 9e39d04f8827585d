//! What writes over used cells save, in any run, so in a replay and in a run on an image: they cost no erase, and each other write
//! or trim at most one.
ghost use Rattle.std.specs.Prelude.{◌+◌, ◌≤◌, List};
ghost use Rattle.rssd_core.specs.DeviceValue.{Numbers};
ghost use Rattle.rssd_run.specs.Reuse.{AllSaveErases, most_erases};
ghost use Rattle.rssd_run.specs.Run.{IsRun};
ghost use Rattle.rssd_run.specs.View.{View, Event, erased};

/// A `second` reply leaves every erase count as it was, and so does `idle`. Any other line raises the sum of the erase counts by one
/// at most: a write that went to a clean page, a trim that left a record, and a write or trim that failed.
pub fn second_writes_cost_no_erase()
    ensures { (d : Numbers) (before after : View) (events : List Event) → IsRun d before events after → AllSaveErases d events }
{}

/// Over a run the sum of the erase counts rises by at most the replies `first` and `declined`, the trims that left a record, and the
/// writes and trims that ended in a fault.
pub fn erases_are_few()
    ensures { (d : Numbers) (before after : View) (events : List Event) → IsRun d before events after → erased after ≤ erased before + most_erases d events }
{}
