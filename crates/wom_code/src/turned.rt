//! Rows of cells that hold bits as they are, or turned: each bit inverted.

ghost use Rattle.std.specs.Prelude.{◌≡◌, ◌↔◌, ◌≤◌, ◌<◌, List, Bool, length, IsTrue};
ghost use Rattle.wom_code.specs.Cells.{IsAbove, charge_of};
ghost use Rattle.wom_code.specs.Turned.{turned_by};

/// Whether the bits, turned or not, are above the old cells.
pub fn fits(bits: &[bool], turned: bool, old: &[bool]) -> bool
    requires { length bits.now ≡ length old.now }
    ensures { IsTrue result ↔ IsAbove (turned_by turned bits.now) old.now }
{
    for cell in 0..old.len() {
        if old[cell] && bits[cell] == turned {
            return false;
        }
    }
    true
}

/// Writes the bits, turned or not.
pub fn write_turned(bits: &[bool], turned: bool, out: &mut [bool])
    requires { length bits.now ≡ length out.old }
    ensures { out.new ≡ turned_by turned bits.now }
{
    for cell in 0..bits.len() {
        out[cell] = bits[cell] != turned;
    }
}

/// How many cells are charged.
pub fn count_charged(cells: &[bool]) -> usize
    ensures { result ≡ charge_of cells.now }
{
    let mut charged = 0;
    for cell in cells {
        if *cell {
            charged += 1;
        }
    }
    charged
}
