//! A sink that gathers pieces, and hands them on together to the sink below it.
ghost use Rattle.std.specs.Prelude.{◌≡◌, ◌≤◌, ◌++◌, [], OnOk, OnErr, length};
ghost use Rattle.rssd_io.specs.Buffer.{HandsThrough, HandsFront};
ghost use Rattle.rssd_io.specs.Event.{HasFlushed};

use crate::log::Log;
use crate::{Sink, WriteFault};
use arrayvec::ArrayVec;

/// A sink of which up to 8,192 bytes wait: they are handed on together, in the order of the pieces, where the next piece does
/// not fit, and at a flush. It takes no memory. After a failure below, what waited is lost.
#[derive(Drop)]
pub struct BufSink<S: Sink + Drop> {
    inner: S,
    waiting: ArrayVec<u8, 8192>,
    log: Log,
}

impl<S: Sink + Drop> BufSink<S> {
    /// A sink to which nothing was given yet.
    pub fn new(inner: S) -> BufSink<S>
        ensures log { result.log.events ≡ [] }
        ensures waiting { result.waiting.items ≡ [] }
        ensures inner { result.inner ≡ inner }
    {
        BufSink {
            inner,
            waiting: ArrayVec::new(),
            log: Log::new(),
        }
    }

    /// Gives what waits to the sink below, in one piece.
    fn hand_on(&mut self) -> Result<(), WriteFault>
        ensures same_log { self.new.log ≡ self.old.log }
        ensures none { self.new.waiting.items ≡ [] }
        ensures passes { OnOk result (HandsThrough (S.log self.old.inner) (S.log self.new.inner) self.old.waiting.items [] []) }
        ensures front { OnErr result (HandsFront (S.log self.old.inner) (S.log self.new.inner) self.old.waiting.items) }
    {
        let given = self.inner.give(self.waiting.as_slice());
        self.waiting.clear();
        given
    }

    /// Gives what waits to the sink below, and flushes that.
    fn empty(&mut self) -> Result<(), WriteFault>
        ensures same_log { self.new.log ≡ self.old.log }
        ensures none { self.new.waiting.items ≡ [] }
        ensures passes { OnOk result (HandsThrough (S.log self.old.inner) (S.log self.new.inner) self.old.waiting.items [] []) }
        ensures below { OnOk result (HasFlushed (S.log self.new.inner)) }
        ensures front { OnErr result (HandsFront (S.log self.old.inner) (S.log self.new.inner) self.old.waiting.items) }
    {
        self.hand_on()?;
        self.inner.flush()
    }

    /// Takes a piece up, or hands it on where it is longer than all the room.
    fn gather(&mut self, piece: &[u8]) -> Result<(), WriteFault>
        ensures room { length self.new.waiting.items ≤ 8_192 }
        ensures same_log { self.new.log ≡ self.old.log }
        ensures passes { OnOk result (HandsThrough (S.log self.old.inner) (S.log self.new.inner) self.old.waiting.items self.new.waiting.items piece.now) }
        ensures front { OnErr result (HandsFront (S.log self.old.inner) (S.log self.new.inner) (self.old.waiting.items ++ piece.now)) }
        ensures lost { OnErr result (self.new.waiting.items ≡ []) }
    {
        if self.waiting.try_extend_from_slice(piece).is_ok() {
            return Ok(());
        }
        self.hand_on()?;
        if self.waiting.try_extend_from_slice(piece).is_ok() {
            return Ok(());
        }
        self.inner.give(piece)
    }
}

impl<S: Sink + Drop> Sink for BufSink<S> {
    ghost use Rattle.std.specs.Prelude.{◌≡◌, ◌≤◌, ◌++◌, [], None, OnOk, OnErr, length};
    ghost use Rattle.rssd_io.specs.Buffer.{HandsThrough, HandsFront};
    ghost use Rattle.rssd_io.specs.Event.{Gave, Flushed, HasFlushed};
    ghost use Rattle.rssd_io.specs.Told.{TellsHeld};

    ghost log = { λ s. s.log.events };

    ghost written = { λ _. None };

    fn give(&mut self, piece: &[u8]) -> Result<(), WriteFault>
        ensures log { Gave result piece.now self.old.log.events self.new.log.events }
        ensures held { TellsHeld None None self.old.log.events self.new.log.events }
        // What goes to the sink below, and how much waits at most.
        ensures passes { OnOk result (HandsThrough (S.log self.old.inner) (S.log self.new.inner) self.old.waiting.items self.new.waiting.items piece.now) }
        ensures room { length self.new.waiting.items ≤ 8_192 }
        // A give that fails: how much went to the sink below, and that what waited is lost.
        ensures front { OnErr result (HandsFront (S.log self.old.inner) (S.log self.new.inner) (self.old.waiting.items ++ piece.now)) }
        ensures lost { OnErr result (self.new.waiting.items ≡ []) }
    {
        match self.gather(piece) {
            Ok(()) => {
                self.log.note(piece);
                Ok(())
            }
            Err(_) => {
                self.log.note(&[]);
                self.log.note_failure();
                Err(WriteFault)
            }
        }
    }

    fn flush(&mut self) -> Result<(), WriteFault>
        ensures log { Flushed result self.old.log.events self.new.log.events }
        ensures held { TellsHeld None None self.old.log.events self.new.log.events }
        // All that waited goes to the sink below, which is flushed too.
        ensures passes { OnOk result (HandsThrough (S.log self.old.inner) (S.log self.new.inner) self.old.waiting.items [] []) }
        ensures below { OnOk result (HasFlushed (S.log self.new.inner)) }
        // A flush that fails: how much went to the sink below. Nothing waits after a flush; what did and did not go is lost.
        ensures front { OnErr result (HandsFront (S.log self.old.inner) (S.log self.new.inner) self.old.waiting.items) }
        ensures none { self.new.waiting.items ≡ [] }
    {
        match self.empty() {
            Ok(()) => {
                self.log.note_flush();
                Ok(())
            }
            Err(_) => {
                self.log.note_failure();
                Err(WriteFault)
            }
        }
    }
}
