//! As many bytes of a source as are wanted.
ghost use Rattle.std.specs.Prelude.{◌<◌, length, OnOk, IfErr};
ghost use Rattle.rssd_disk.specs.Sessions.{IsQuiet};
ghost use Rattle.rssd_disk.specs.Streams.{Takes, Skips, HasStopped};

use crate::serving::Ended;
use rssd_io::Source;

/// Takes bytes until all the room is filled.
pub(crate) fn take_all<I: Source>(from: &mut I, into: &mut [u8]) -> Result<(), Ended>
    ensures taken { OnOk result (Takes (I.log from.old) (I.log from.new) into.new) }
    ensures quiet { IfErr result IsQuiet }
    ensures stopped { IfErr result (λ ended. HasStopped ended (I.log from.new)) }
{
    let mut at = 0;
    while at < into.len() {
        match from.take(&mut into[at..]) {
            Ok(0) => return Err(Ended::Cut),
            Ok(count) => at += count,
            Err(_) => return Err(Ended::ReadFault),
        }
    }
    Ok(())
}

/// Takes so many bytes, which nothing reads, through the room.
pub(crate) fn skip<I: Source>(from: &mut I, room: &mut [u8], count: u32) -> Result<(), Ended>
    requires { 0 < length room.old }
    ensures skips { OnOk result (Skips count (I.log from.old) (I.log from.new)) }
    ensures quiet { IfErr result IsQuiet }
    ensures stopped { IfErr result (λ ended. HasStopped ended (I.log from.new)) }
{
    let mut left = count as usize;
    while left > 0 {
        let piece = left.min(room.len());
        take_all(from, &mut room[..piece])?;
        left -= piece;
    }
    Ok(())
}
