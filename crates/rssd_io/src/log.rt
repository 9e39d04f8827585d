//! A history that only clauses read: it takes no room, and its methods do nothing when the program runs.
ghost use Rattle.std.specs.Prelude.{◌≡◌, List, [], ◌∷◌, ◌++◌};
ghost use Rattle.std.specs.Borrow.{ftrue};
ghost use Rattle.rssd_io.specs.Event.{Event, moved, flushed, failed};

use std::marker::{Model, PhantomData};

/// What calls did, in their order.
#[derive(Drop)]
pub struct Log {
    marker: PhantomData<u8>,
    pub ghost events: { List Event },
}

impl Model for Log {
    ghost also_owns = { λ _. ftrue };
}

impl Log {
    /// No call yet.
    pub fn new() -> Log
        ensures { result.events ≡ [] }
    {
        Log {
            marker: PhantomData,
        }
    }

    /// Notes a call that moved these bytes.
    pub fn note(&mut self, _bytes: &[u8])
        ensures { self.new.events ≡ self.old.events ++ moved _bytes.now ∷ [] }
    {}

    /// Notes a call that handed on what waited.
    pub fn note_flush(&mut self)
        ensures { self.new.events ≡ self.old.events ++ flushed ∷ [] }
    {}

    /// Notes a call that failed.
    pub fn note_failure(&mut self)
        ensures { self.new.events ≡ self.old.events ++ failed ∷ [] }
    {}
}
