//! A script from a source, in pieces: to its end, or to one byte past the most that a script may have. The text is not held
//! beside its lines.
ghost use Rattle.std.specs.Prelude.{[], IfOk, OnOk, IfErr};
ghost use Rattle.std.specs.List.{All};
ghost use Rattle.rssd_io.specs.Told.{TellsLeft};
ghost use Rattle.rssd_script.specs.Readers.{HasRead};
ghost use Rattle.rssd_run.specs.ReadScript.{ReadsAll, RefusesRead, TakesScript, HasReadAll};
ghost use Rattle.rssd_run.specs.Shows.{CanStep};

use rssd_io::Source;
use rssd_script::{Line, ScriptError, ScriptReader};
use std::alloc::Global;

/// The most bytes of a script.
const MOST_BYTES: usize = 1_048_576;

/// How many bytes are taken at once.
const PIECE: usize = 4096;

/// Why a script was not read.
#[derive(Debug, Drop, PartialEq, Eq)]
pub enum ReadError {
    /// The source failed.
    Fault,
    Refused(ScriptError),
}

/// Feeds a reader what the source has left. Each turn takes at least one byte, or ends.
fn feed_all<T: Source>(reader: &mut ScriptReader, script: &mut T) -> Result<(), ReadError>
    requires { HasRead reader.old [] }
    ensures read { OnOk result (HasReadAll (T.log script.old) (T.log script.new) reader.new) }
    ensures refused { IfErr result (RefusesRead (T.log script.old) (T.log script.new)) }
    ensures bounded { TakesScript (T.log script.old) (T.log script.new) }
    ensures left { TellsLeft (T.left script.old) (T.left script.new) (T.log script.old) (T.log script.new) }
{
    let mut piece = [0u8; PIECE];
    let mut room = MOST_BYTES + 1;
    while room > 0 {
        let most = room.min(PIECE);
        match script.take(&mut piece[..most]) {
            Ok(0) => return Ok(()),
            Ok(count) => {
                room -= count;
                if reader.feed(&piece[..count]).is_err() {
                    return Err(ReadError::Refused(ScriptError::OutOfMemory));
                }
            }
            Err(_) => return Err(ReadError::Fault),
        }
    }
    Ok(())
}

/// Reads a script.
///
/// # Errors
///
/// `Fault` exactly where a take failed, and a refusal by the text that was taken.
pub fn read_script<T: Source>(alloc: Global, script: &mut T) -> Result<Vec<Line>, ReadError>
    ensures lines { IfOk result (λ lines. ReadsAll (T.log script.old) (T.log script.new) lines.items) }
    ensures can_step { IfOk result (λ lines. All CanStep lines.items) }
    ensures refused { IfErr result (RefusesRead (T.log script.old) (T.log script.new)) }
    ensures bounded { TakesScript (T.log script.old) (T.log script.new) }
    ensures left { TellsLeft (T.left script.old) (T.left script.new) (T.log script.old) (T.log script.new) }
{
    let mut reader = ScriptReader::new(alloc);
    feed_all(&mut reader, script)?;
    match reader.end() {
        Ok(lines) => Ok(lines),
        Err(why) => Err(ReadError::Refused(why)),
    }
}
