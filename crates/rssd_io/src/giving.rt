//! The last piece of an output.
ghost use Rattle.std.specs.Prelude.{[], ◌∷◌, OnOk, OnErr};
ghost use Rattle.rssd_io.specs.Pieces.{HandsOn, StopsIn};
ghost use Rattle.rssd_io.specs.Told.{TellsHeld};

use crate::{Sink, WriteFault};

/// Gives a piece, and has the sink hand on all that waits.
pub fn give_last<S: Sink>(sink: &mut S, piece: &[u8]) -> Result<(), WriteFault>
    ensures done { OnOk result (HandsOn (piece.now ∷ []) (S.log sink.old) (S.log sink.new)) }
    ensures front { OnErr result (StopsIn (piece.now ∷ []) (S.log sink.old) (S.log sink.new)) }
    ensures held { TellsHeld (S.written sink.old) (S.written sink.new) (S.log sink.old) (S.log sink.new) }
{
    sink.give(piece)?;
    sink.flush()
}
