//! How lines were answered, kind by kind, and what the most costly line of each kind cost. The counts stand still at 2^64 - 1.
ghost use Rattle.std.specs.Prelude.{◌≡◌};
ghost use Rattle.lab_tables.specs.Answered.{changes_between, met_more, writes_of};

use count_die::Totals;
use rssd_script::Reply;

/// What the lines of one kind have met: how many there were, and the most change calls and the most reads of the die that one of
/// them made.
#[derive(Clone, Copy, Debug, PartialEq, Eq)]
pub struct Met {
    pub count: u64,
    pub changes: u64,
    pub reads: u64,
}

/// How lines were answered: all of them, and by their replies. `trim` and `idle` are those that were done, and `other` are all
/// whose reply says that nothing was done.
#[derive(Clone, Copy, Debug, PartialEq, Eq)]
pub struct Answers {
    pub lines: u64,
    pub first: Met,
    pub second: Met,
    pub declined: Met,
    pub read: Met,
    pub trim: Met,
    pub idle: Met,
    pub other: Met,
}

/// The change calls between two counts of a die.
fn changes_between(before: Totals, now: Totals) -> u64
    ensures { result ≡ changes_between before now }
{
    now.programs
        .saturating_sub(before.programs)
        .saturating_add(now.charges.saturating_sub(before.charges))
        .saturating_add(now.erases.saturating_sub(before.erases))
}

impl Met {
    /// No line.
    pub const NONE: Met = Met {
        count: 0,
        changes: 0,
        reads: 0,
    };

    /// One line more, which took the die from the one count to the other.
    fn add(&mut self, before: Totals, now: Totals)
        ensures { self.new ≡ met_more before now self.old }
    {
        *self = Met {
            count: self.count.saturating_add(1),
            changes: self.changes.max(changes_between(before, now)),
            reads: self.reads.max(now.reads.saturating_sub(before.reads)),
        };
    }
}

impl Answers {
    ghost use Rattle.lab_tables.specs.Answered.{no_answers, answered_more};

    /// No line was answered yet.
    pub fn none() -> Answers
        ensures { result ≡ no_answers }
    {
        Answers {
            lines: 0,
            first: Met::NONE,
            second: Met::NONE,
            declined: Met::NONE,
            read: Met::NONE,
            trim: Met::NONE,
            idle: Met::NONE,
            other: Met::NONE,
        }
    }

    /// A line more was answered so, and took the die from the one count to the other.
    pub fn add(&mut self, reply: &Reply, before: Totals, now: Totals)
        ensures { self.new ≡ answered_more before now self.old reply.now }
    {
        self.lines = self.lines.saturating_add(1);
        match reply {
            Reply::First => self.first.add(before, now),
            Reply::Second => self.second.add(before, now),
            Reply::Declined => self.declined.add(before, now),
            Reply::Bytes(_) => self.read.add(before, now),
            Reply::Done => self.trim.add(before, now),
            Reply::Moves(_) => self.idle.add(before, now),
            _ => self.other.add(before, now),
        }
    }

    /// How many writes were placed.
    pub fn writes(&self) -> u64
        ensures { result ≡ writes_of self.now }
    {
        self.first
            .count
            .saturating_add(self.second.count)
            .saturating_add(self.declined.count)
    }
}
