//! Where a gate and the seal lie within a page: its main bytes come first, then its spare area.

ghost use Rattle.std.specs.Prelude.{◌≡◌, ◌≤◌, ◌<◌};
ghost use Rattle.spare_gate.specs.Slots.{gate_cell_of, seal_cell_of};

/// The number within its page of a slot's gate cell.
pub fn gate_cell(main_bytes: u32, slot: u32) -> u32
    requires main { main_bytes ≤ 1200 }
    requires slot { slot < 3 }
    ensures { result ≡ gate_cell_of main_bytes slot }
{
    8 * main_bytes + 128 * slot
}

/// The number within its page of the seal cell, which lies in slot 1 of a block's page 0.
pub fn seal_cell(main_bytes: u32) -> u32
    requires { main_bytes ≤ 1200 }
    ensures { result ≡ seal_cell_of main_bytes }
{
    8 * main_bytes + 248
}
