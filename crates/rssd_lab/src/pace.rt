//! Someone who is told how many lines have come.
use lab_lines::{Lines, LinesEnd};
use rssd_script::Line;
use std::alloc::Global;

/// Who is told how many lines have come.
pub trait Pace: Drop {
    /// So many lines have come.
    fn told(&mut self, lines: u64);
}

/// After how many lines the pace is told.
const STEP: u64 = 65_536;

/// Lines of which someone is told how many have come.
#[derive(Drop)]
pub struct Paced<L: Drop, P: Drop> {
    inner: L,
    pace: Option<P>,
    came: u64,
}

impl<L: Lines + Drop, P: Pace> Paced<L, P> {
    ghost use Rattle.std.specs.Prelude.{◌≡◌};
    ghost use Rattle.rssd_lab.specs.Pacing.{inner_of};

    /// These lines, of which none has come, and who is told, if anyone.
    pub fn new(inner: L, pace: Option<P>) -> Paced<L, P>
        ensures { inner_of result ≡ inner }
    {
        Paced {
            inner,
            pace,
            came: 0,
        }
    }

    /// The lines themselves.
    pub fn into_inner(self) -> L
        ensures { result ≡ inner_of self }
    {
        self.inner
    }
}

impl<L: Lines + Drop, P: Pace> Lines for Paced<L, P> {
    ghost use Rattle.rssd_lab.specs.Pacing.{inner_of};

    ghost gives = { λ old line new. L.gives (inner_of old) line (inner_of new) };

    ghost ended = { λ old new. L.ended (inner_of old) (inner_of new) };

    ghost stops = { λ old why new. L.stops (inner_of old) why (inner_of new) };

    fn next_line(&mut self, alloc: Global) -> Result<Option<Line>, LinesEnd> {
        self.came = self.came.saturating_add(1);
        if let Some(pace) = &mut self.pace {
            if self.came % STEP == 0 {
                pace.told(self.came);
            }
        }
        self.inner.next_line(alloc)
    }
}
