//! What is asked of a device, and the tag by which it is answered.
ghost use Rattle.std.specs.Prelude.{◌≡◌, ◌≤◌, false, length};
ghost use Rattle.rssd_core.specs.SectorArray.{filled_up};
ghost use Rattle.rssd_queue.specs.Asks.{sector_of, is_read as reads, is_long as too_long, filled};

use arrayvec::ArrayVec;
use std::marker::Model;

/// The most bytes of a sector.
pub(crate) const ROW_BYTES: usize = 512;

/// The bytes of a write, or of a row that was read.
#[derive(Drop)]
pub struct AskBytes {
    bytes: ArrayVec<u8, 512>,
}

impl Model for AskBytes {
    ghost use Rattle.std.specs.Prelude.{ℕ, List};

    ghost Value = { List ℕ };

    ghost view = { λ b. b.bytes.items };
}

impl AskBytes {
    /// A copy of the bytes.
    pub fn of(bytes: &[u8]) -> AskBytes
        requires { length bytes.now ≤ 512 }
        ensures { result ≡ bytes.now }
    {
        let mut copy = ArrayVec::new();
        let _ = copy.try_extend_from_slice(bytes);
        AskBytes { bytes: copy }
    }

    /// The list.
    pub fn as_slice(&self) -> &[u8]
        ensures value { result.now ≡ self.now }
        ensures small { length self.now ≤ 512 }
    {
        self.bytes.as_slice()
    }

    /// Fills the bytes up with zero bytes, to a sector's bytes.
    fn fill_up(&mut self, sector_bytes: u32)
        requires fits { length self.old ≤ sector_bytes }
        requires few_bytes { sector_bytes ≤ 512 }
        ensures { self.new ≡ filled_up sector_bytes self.old }
    {
        let missing = sector_bytes as usize - self.bytes.len();
        let _ = self.bytes.try_extend_from_slice(&[0; ROW_BYTES][..missing]);
    }
}

/// What is asked of a device.
#[derive(Drop)]
pub enum Ask {
    Write { sector: u32, bytes: AskBytes },
    Read { sector: u32 },
    Trim { sector: u32 },
}

/// A command: what is asked, and the tag by which it is answered.
#[derive(Drop)]
pub struct Tagged {
    pub tag: u32,
    pub ask: Ask,
}

impl Ask {
    /// The sector that it is about.
    pub(crate) fn sector(&self) -> u32
        ensures { result ≡ sector_of self.now }
    {
        match self {
            Ask::Write { sector, .. } | Ask::Read { sector } | Ask::Trim { sector } => *sector,
        }
    }

    /// Whether it is a read.
    pub(crate) fn is_read(&self) -> bool
        ensures { result ≡ reads self.now }
    {
        matches!(self, Ask::Read { .. })
    }

    /// Whether it is a write of more bytes than a sector has.
    pub(crate) fn is_long(&self, sector_bytes: u32) -> bool
        ensures { result ≡ too_long sector_bytes self.now }
    {
        match self {
            Ask::Write { bytes, .. } => bytes.as_slice().len() > sector_bytes as usize,
            Ask::Read { .. } | Ask::Trim { .. } => false,
        }
    }

    /// Fills the bytes of a write up with zero bytes.
    pub(crate) fn fill_up(&mut self, sector_bytes: u32)
        requires fits { too_long sector_bytes self.old ≡ false }
        requires few_bytes { sector_bytes ≤ 512 }
        ensures { self.new ≡ filled sector_bytes self.old }
    {
        if let Ask::Write { bytes, .. } = self {
            bytes.fill_up(sector_bytes);
        }
    }
}
