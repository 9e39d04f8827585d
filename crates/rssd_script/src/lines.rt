//! A script is a list of these lines. `print_line` gives a line its one spelling.

use crate::SectorBytes;

/// What a cut change call leaves.
#[derive(Clone, Copy, Debug, PartialEq, Eq)]
pub enum TornWord {
    Nothing,
    All,
    Mask(u64),
}

/// One line of a script.
#[derive(Drop)]
pub enum Line {
    Write { sector: u32, bytes: SectorBytes },
    Read { sector: u32 },
    Trim { sector: u32 },
    Idle { n: u32 },
    Cut { n: u32, torn: TornWord },
    FailRead { n: u32 },
    Mount,
    Stat,
}
