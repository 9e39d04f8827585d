//! What was counted up to a line.
ghost use Rattle.std.specs.Prelude.{◌≡◌};
ghost use Rattle.lab_tables.specs.Answered.{no_answers, answered_more};

use count_die::Totals;
use lab_tables::Answers;
use rssd_script::Reply;

/// What was counted up to a line: how the lines were answered, and the calls of the die.
#[derive(Clone, Copy, Debug, PartialEq, Eq)]
pub struct Score {
    pub answers: Answers,
    pub totals: Totals,
}

impl Score {
    /// No line was answered, and the die has counted so much.
    pub fn new(totals: Totals) -> Score
        ensures answers { result.answers ≡ no_answers }
        ensures totals { result.totals ≡ totals }
    {
        Score {
            answers: Answers::none(),
            totals,
        }
    }

    /// A line more was answered so, and the die has counted so much after it.
    pub fn add(&mut self, reply: &Reply, now: Totals)
        ensures answers { self.new.answers ≡ answered_more self.old.totals now self.old.answers reply.now }
        ensures totals { self.new.totals ≡ now }
    {
        self.answers.add(reply, self.totals, now);
        self.totals = now;
    }
}
