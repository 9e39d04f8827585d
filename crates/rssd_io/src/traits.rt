//! The rule of sources and sinks: each has a log of what its calls did, a call fails only where the log says so, a failed
//! take took no byte, and a failed give appended the first bytes of its piece.
ghost use Rattle.std.specs.Prelude.{◌<◌, ℕ, List, Option, length};
ghost use Rattle.std.specs.Io.{ReadsAtMost};
ghost use Rattle.std.specs.Io.KnownBytes.{ReadConsumes};
ghost use Rattle.rssd_io.specs.Event.{Event, Adds, Gave, Flushed, took};
ghost use Rattle.rssd_io.specs.Told.{TellsHeld};

/// A source did not give.
#[derive(Clone, Copy, Debug, PartialEq, Eq)]
pub struct ReadFault;

/// A sink did not take.
#[derive(Clone, Copy, Debug, PartialEq, Eq)]
pub struct WriteFault;

/// Gives bytes in order.
pub trait Source {
    /// What each take did, in their order: its bytes, none at the end of the input, or that it failed.
    ghost log: { Self → List Event };

    /// The bytes that it will give, where it tells them.
    ghost left: { Self → Option (List ℕ) };

    /// Takes some of the next bytes. None says that the input is at its end.
    fn take(&mut self, into: &mut [u8]) -> Result<usize, ReadFault>
        requires { 0 < length into.old }
        ensures bound { ReadsAtMost result into.new }
        ensures log { Adds (took result into.new) (log self.old) (log self.new) }
        ensures bytes { ReadConsumes (left self.old) (left self.new) result into.new };
}

/// Takes bytes in order.
pub trait Sink {
    /// What each call did, in their order: the piece of a give; or a front of it, and that it failed; or that what waited was
    /// handed on, or that this failed.
    ghost log: { Self → List Event };

    /// The bytes that it was given, where it tells them.
    ghost written: { Self → Option (List ℕ) };

    /// Gives it a piece. After a fault it was given the first bytes of the piece, some, all or none.
    fn give(&mut self, piece: &[u8]) -> Result<(), WriteFault>
        ensures log { Gave result piece.now (log self.old) (log self.new) }
        ensures held { TellsHeld (written self.old) (written self.new) (log self.old) (log self.new) };

    /// Hands on what waits of the pieces that were given. After Ok nothing waits.
    fn flush(&mut self) -> Result<(), WriteFault>
        ensures log { Flushed result (log self.old) (log self.new) }
        ensures held { TellsHeld (written self.old) (written self.new) (log self.old) (log self.new) };
}
