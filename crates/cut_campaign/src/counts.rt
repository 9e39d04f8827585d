//! What a campaign has counted.

use crate::lines::Case;
use crate::rig::Said;

/// The counts, and the script under way.
#[derive(Clone, Copy, Debug, PartialEq, Eq)]
pub struct Counts {
    pub scripts: u64,
    pub cuts: u64,
    /// Second cuts, in the first change call after a mount.
    pub again: u64,
    pub failed_reads: u64,
    pub mounts: u64,
    /// Sectors that were read and judged.
    pub rows: u64,
    /// Scripts by what their last line does where nothing fails.
    pub first: u64,
    pub second: u64,
    pub declined: u64,
    pub collected: u64,
    pub others: u64,
    pub now: Option<Case>,
}

impl Counts {
    pub fn new() -> Self {
        Counts {
            scripts: 0,
            cuts: 0,
            again: 0,
            failed_reads: 0,
            mounts: 0,
            rows: 0,
            first: 0,
            second: 0,
            declined: 0,
            collected: 0,
            others: 0,
            now: None,
        }
    }

    pub fn begin(&mut self, case: Case) {
        self.now = Some(case);
    }

    pub fn cut(&mut self) {
        self.cuts = self.cuts.saturating_add(1);
    }

    pub fn cut_again(&mut self) {
        self.again = self.again.saturating_add(1);
    }

    pub fn failed_read(&mut self) {
        self.failed_reads = self.failed_reads.saturating_add(1);
    }

    pub fn mounted(&mut self, mounts: u32) {
        self.mounts = self.mounts.saturating_add(mounts as u64);
    }

    pub fn read(&mut self, rows: u32) {
        self.rows = self.rows.saturating_add(rows as u64);
    }

    /// A script is done, whose last line does this where nothing fails.
    pub fn done(&mut self, said: Said) {
        self.scripts = self.scripts.saturating_add(1);
        match said {
            Said::First => self.first = self.first.saturating_add(1),
            Said::Second => self.second = self.second.saturating_add(1),
            Said::Declined => self.declined = self.declined.saturating_add(1),
            Said::Collected => self.collected = self.collected.saturating_add(1),
            Said::Trimmed | Said::Moved | Said::Mounted | Said::Fault => {
                self.others = self.others.saturating_add(1);
            }
        }
    }
}
