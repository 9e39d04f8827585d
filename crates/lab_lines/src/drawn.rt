//! A workload that is drawn a line at a time from the words of SplitMix64 (Steele, Lea and Flood, 2014). It is a function of
//! its seed and its plan, however many lines are drawn.
ghost use Rattle.std.specs.Prelude.{◌≡◌, ◌≤◌, ◌<◌, IfOk};
ghost use Rattle.lab_lines.specs.Workload.{table_of};

use crate::kind::Kind;
use crate::lines::{Lines, LinesEnd};
use crate::zipf::zipf_table;
use rand_core::SeedableRng;
use rand_xoshiro::SplitMix64;
use rssd_script::Line;
use rssd_work::{draw_bytes, draw_word};
use std::alloc::{AllocError, Global};

/// What a workload is drawn for. Of a thousand lines about `idle` are `idle 4`.
#[derive(Clone, Copy, Debug, PartialEq, Eq)]
pub struct Plan {
    pub kind: Kind,
    pub sectors: u32,
    pub sector_bytes: u32,
    pub idle: u32,
}

/// The lines of a workload that are still to come. After its making only the bytes of a write take memory, and only while it is
/// drawn.
#[derive(Drop)]
pub struct Drawn {
    plan: Plan,
    words: SplitMix64,
    /// The sector whose turn it is.
    turn: u32,
    left: u64,
    table: Vec<u32>,
    ghost some_sectors: { 0 < plan.sectors },
    ghost few_bytes: { plan.sector_bytes ≤ 512 },
    ghost turns: { turn < plan.sectors },
    ghost tabled: { table.items ≡ table_of plan.kind plan.sectors },
}

/// The table of a kind: only `Zipf` has one.
fn table_of(alloc: Global, kind: Kind, sectors: u32) -> Result<Vec<u32>, AllocError>
    ensures { IfOk result (λ table. table.items ≡ table_of kind sectors) }
{
    match kind {
        Kind::Zipf => zipf_table(alloc, sectors),
        Kind::Uniform | Kind::Hot | Kind::Sequential | Kind::Mixed => Ok(Vec::new(alloc)),
    }
}

impl Drawn {
    ghost use Rattle.std.specs.Prelude.{◌+◌, ◌/◌, ◌%◌, IfOk, OnOk};
    ghost use Rattle.rand_xoshiro.specs.SplitMix64.{next_state};
    ghost use Rattle.rssd_work.specs.Workload.{word, after_words, word_bytes};
    ghost use Rattle.lab_lines.specs.Workload.{is_mixed, sector_of, sector_line, words_after, next_turn, drawn_line, state_after};
    ghost use Rattle.lab_lines.specs.Drawing.{plan_of, state_of, left_of};

    /// The `count` lines of the workload of this seed.
    pub fn new(alloc: Global, plan: Plan, seed: u64, count: u64) -> Result<Drawn, AllocError>
        requires sectors { 0 < plan.sectors }
        requires few_bytes { plan.sector_bytes ≤ 512 }
        ensures plan { IfOk result (λ drawn. plan_of drawn ≡ record { kind = plan.kind; sectors = plan.sectors; sector_bytes = plan.sector_bytes; idle = plan.idle }) }
        ensures state { IfOk result (λ drawn. state_of drawn ≡ record { words = seed; turn = 0 }) }
        ensures left { IfOk result (λ drawn. left_of drawn ≡ count) }
    {
        let table = table_of(alloc, plan.kind, plan.sectors)?;
        Ok(Drawn {
            plan,
            words: SplitMix64::seed_from_u64(seed),
            turn: 0,
            left: count,
            table,
        })
    }

    /// How many lines are still to come.
    pub fn left(&self) -> u64
        ensures { result ≡ left_of self.now }
    {
        self.left
    }

    /// The sector that a word of a table chooses.
    fn tabled(&self, word: u64) -> u32
        requires { self.now.plan.kind ≡ Kind.Zipf }
        ensures { result ≡ sector_of Kind.Zipf self.now.plan.sectors self.now.turn word }
    {
        self.table[(word % self.table.len() as u64) as usize]
    }

    /// The sector that a word chooses where a tenth of the sectors is hot.
    fn hot(&self, word: u64) -> u32
        ensures { result ≡ sector_of Kind.Hot self.now.plan.sectors self.now.turn word }
    {
        let sectors = u64::from(self.plan.sectors);
        if word % 10 == 0 {
            (word / 10 % sectors) as u32
        } else {
            (word / 10 % ((sectors + 9) / 10)) as u32
        }
    }

    /// The sector that a word chooses.
    fn sector(&self, word: u64) -> u32
        ensures { result ≡ sector_of self.now.plan.kind self.now.plan.sectors self.now.turn word }
    {
        match self.plan.kind {
            Kind::Uniform | Kind::Mixed => (word % u64::from(self.plan.sectors)) as u32,
            Kind::Hot => self.hot(word),
            Kind::Zipf => self.tabled(word),
            Kind::Sequential => self.turn,
        }
    }

    /// Passes the turn to the next sector.
    fn pass_turn(&mut self)
        ensures turn { self.new.turn ≡ next_turn self.old.plan.sectors self.old.turn }
        ensures words { self.new.words ≡ self.old.words }
        ensures plan { self.new.plan ≡ self.old.plan }
        ensures left { self.new.left ≡ self.old.left }
    {
        let sectors = self.plan.sectors;
        let next = self.turn + 1;
        self.turn = if next == sectors { 0 } else { next };
    }

    /// Whether the workload is a mixed one.
    fn is_mixed(&self) -> bool
        ensures { result ≡ is_mixed self.now.plan.kind }
    {
        matches!(self.plan.kind, Kind::Mixed)
    }

    /// A line of a sector that the next word names. `part` is the line's place among sixteen.
    fn draw_sector_line(&mut self, alloc: Global, part: u64) -> Result<Line, AllocError>
        ensures line { IfOk result (λ line. line ≡ sector_line (plan_of self.old) (next_state self.old.words)
            (sector_of self.old.plan.kind self.old.plan.sectors self.old.turn (word self.old.words)) part) }
        ensures words { OnOk result (self.new.words ≡ words_after (plan_of self.old) (next_state self.old.words) part) }
        ensures turn { OnOk result (self.new.turn ≡ next_turn self.old.plan.sectors self.old.turn) }
        ensures plan { OnOk result (self.new.plan ≡ self.old.plan) }
        ensures left { OnOk result (self.new.left ≡ self.old.left) }
    {
        let word = draw_word(&mut self.words);
        let sector = self.sector(word);
        self.pass_turn();
        if self.is_mixed() && part < 5 {
            return Ok(Line::Read { sector });
        }
        if self.is_mixed() && part == 5 {
            return Ok(Line::Trim { sector });
        }
        let bytes = draw_bytes(alloc, &mut self.words, self.plan.sector_bytes)?;
        Ok(Line::Write { sector, bytes })
    }

    /// The next line.
    #[tactic(auto, unfolding(crate::specs::Workload::drawn_line, crate::specs::Workload::state_after))]
    fn draw_line(&mut self, alloc: Global) -> Result<Line, AllocError>
        ensures line { IfOk result (λ line. line ≡ drawn_line (plan_of self.old) (state_of self.old)) }
        ensures state { OnOk result (state_of self.new ≡ state_after (plan_of self.old) (state_of self.old)) }
        ensures plan { OnOk result (plan_of self.new ≡ plan_of self.old) }
        ensures left { OnOk result (left_of self.new ≡ left_of self.old) }
    {
        let word = draw_word(&mut self.words);
        if word % 1000 < u64::from(self.plan.idle) {
            return Ok(Line::Idle { n: 4 });
        }
        self.draw_sector_line(alloc, word / 1000 % 16)
    }
}

impl Lines for Drawn {
    ghost use Rattle.std.specs.Prelude.{◌≡◌};
    ghost use Rattle.lab_lines.specs.declared.lines.LinesEnd.TheVariants.{OutOfMemory};
    ghost use Rattle.lab_lines.specs.Drawing.{DrawsLine, DrawsNone};

    ghost gives = { DrawsLine };

    ghost ended = { DrawsNone };

    ghost stops = { λ old why new. why ≡ OutOfMemory };

    fn next_line(&mut self, alloc: Global) -> Result<Option<Line>, LinesEnd> {
        if self.left == 0 {
            return Ok(None);
        }
        match self.draw_line(alloc) {
            Ok(line) => {
                self.left -= 1;
                Ok(Some(line))
            }
            Err(_) => Err(LinesEnd::OutOfMemory),
        }
    }
}
