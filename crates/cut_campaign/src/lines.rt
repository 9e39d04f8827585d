//! The scripts: a prefix that brings a die into a state, and up to four lines of a small alphabet.
ghost use Rattle.std.specs.Prelude.{◌≤◌};

/// A line. The row that a write gives is the next of the three that are not zeros.
#[derive(Clone, Copy, Debug, PartialEq, Eq)]
pub enum Line {
    Write(u32),
    Trim(u32),
    Idle(u32),
    Mount,
}

/// A device on a die.
#[derive(Clone, Copy, Debug, PartialEq, Eq)]
pub struct Size {
    pub blocks: u32,
    pub pages: u32,
    pub sectors: u32,
    pub reuse_max: u32,
}

/// The lines before a script: so many of a kind.
#[derive(Clone, Copy, Debug, PartialEq, Eq)]
pub enum Prefix {
    /// Writes of sector 0.
    Hot(u32),
    /// Writes of all sectors in turn.
    Round(u32),
    /// The same, with a trim in place of each fourth and an idle line in place of each fifth.
    Mixed(u32),
}

/// One script after a prefix: its number among those of its length.
#[derive(Clone, Copy, Debug, PartialEq, Eq)]
pub struct Case {
    pub size: Size,
    pub prefix: Prefix,
    pub length: u32,
    pub number: u64,
}

/// How many lines the alphabet has: a write and a trim of each sector, two idle lines and a mount.
pub fn letters(sectors: u32) -> u64
    ensures { 1 ≤ result }
{
    2 * sectors as u64 + 3
}

/// The line of the alphabet with this number.
fn letter(sectors: u32, number: u64) -> Line {
    let sectors = sectors as u64;
    if number < sectors {
        return Line::Write((number % 4) as u32);
    }
    match number.saturating_sub(sectors) {
        0 if sectors == 1 => Line::Trim(0),
        trimmed if trimmed < sectors => Line::Trim((trimmed % 4) as u32),
        other => match other.saturating_sub(sectors) {
            0 => Line::Idle(1),
            1 => Line::Idle(3),
            _ => Line::Mount,
        },
    }
}

/// How many scripts of a length there are.
pub fn script_count(sectors: u32, length: u32) -> u64 {
    let mut count = 1u64;
    for _ in 0..length {
        count = count.saturating_mul(letters(sectors));
    }
    count
}

impl Prefix {
    /// How many lines it has.
    pub fn length(self) -> u32 {
        match self {
            Prefix::Hot(count) | Prefix::Round(count) | Prefix::Mixed(count) => count,
        }
    }

    /// Its line at a place, counted from 0, for a device with so many sectors.
    fn line(self, place: u32, sectors: u32) -> Line {
        let sector = place % sectors.max(1);
        match self {
            Prefix::Hot(_) => Line::Write(0),
            Prefix::Mixed(_) if place % 4 == 3 => Line::Trim(sector),
            Prefix::Mixed(_) if place % 5 == 4 => Line::Idle(2),
            Prefix::Round(_) | Prefix::Mixed(_) => Line::Write(sector),
        }
    }
}

impl Case {
    /// How many lines stand before the last one.
    pub fn front(&self) -> u32 {
        self.prefix
            .length()
            .saturating_add(self.length.saturating_sub(1))
    }

    /// The line at a place of prefix and script, counted from 0.
    pub fn line(&self, place: u32) -> Line {
        if place < self.prefix.length() {
            return self.prefix.line(place, self.size.sectors);
        }
        let mut rest = self.number;
        for _ in 0..place.saturating_sub(self.prefix.length()) {
            rest /= letters(self.size.sectors);
        }
        letter(self.size.sectors, rest % letters(self.size.sectors))
    }
}
