//! The worst cases of a device's calls, from the counts that their contracts give.
ghost use Rattle.std.specs.Prelude.{◌-◌, ◌*◌, ◌<◌};
ghost use Rattle.page_alloc.specs.declared.next_page.NextPage.{NextPage};
ghost use Rattle.page_alloc.specs.CleanPage.{IsNext};
ghost use Rattle.page_codec.specs.TrueBook.{IsTrueBook, live_map};
ghost use Rattle.rssd_core.specs.DeviceValue.{Numbers, DeviceView};
ghost use Rattle.rssd_core.specs.Steps.{IsSized};
ghost use Rattle.rssd_core.specs.WorstCases.{WorstCases};

/// Whatever branch of the clean page rule comes next, a read reads at most one unit; a write or trim makes at most two change calls
/// for each page of a block and two more, and reads at most a block and a unit for each copy, and the offered unit; and an idle
/// move reads at most a block and a unit.
pub fn calls_have_worst_cases()
    ensures { (d : Numbers) (view : DeviceView) (next : NextPage) → IsSized d.geometry → d.geometry.sectors < (d.geometry.blocks - 1) * d.geometry.pages
        → IsTrueBook d.geometry d.reuse_max view.die.cells view.book (live_map d.geometry view.die.cells) view.seq → IsNext view.book next → WorstCases d view }
{}
