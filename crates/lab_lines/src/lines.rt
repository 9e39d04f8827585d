//! Lines that come one at a time.
ghost use Rattle.std.specs.Prelude.{MatchResult, MatchOption};
ghost use Rattle.rssd_script.specs.declared.lines.Line.{Line as Spelled};
ghost use Rattle.lab_lines.specs.declared.lines.LinesEnd.{LinesEnd as End};

use rssd_script::Line;
use std::alloc::Global;

/// Why no further line comes, where more may have been wanted.
#[derive(Clone, Copy, Debug, PartialEq, Eq)]
pub enum LinesEnd {
    OutOfMemory,
    /// The source failed.
    Fault,
    /// The line of this number, from 1, is outside the grammar.
    BadLine(u64),
}

/// Where lines come from.
pub trait Lines {
    /// From the one state to the other this line came.
    ghost gives: { Self → Spelled → Self → Type 0 };

    /// From the one state to the other none was left.
    ghost ended: { Self → Self → Type 0 };

    /// From the one state to the other no line came, for this cause.
    ghost stops: { Self → End → Self → Type 0 };

    /// The next line, or None where none is left.
    fn next_line(&mut self, alloc: Global) -> Result<Option<Line>, LinesEnd>
        ensures { MatchResult result
            (λ next. MatchOption next (ended self.old self.new) (λ line. gives self.old line self.new))
            (λ why. stops self.old why self.new) };
}
