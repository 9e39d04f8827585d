//! Lines as commands of a queue, and a queue's answers as replies.
ghost use Rattle.std.specs.Prelude.{◌≡◌, false, [], IfSome, IfNone};
ghost use Rattle.rssd_run.specs.Serves.{ask_of as asked, reply_to as replied, ServesDevice, TakesOff};
ghost use Rattle.rssd_run.specs.Steps.{IsKept};

use crate::row::bytes_reply;
use cell_die::PowerDie;
use rssd_core::device::{FtlError, Placed, PowerDevice};
use rssd_queue::{Answer, Ask, AskBytes, Queue};
use rssd_script::{Line, Reply};
use striped::Scheme;

/// What a line asks of a device, if it is a write, a read or a trim.
pub fn ask_of(line: &Line) -> Option<Ask>
    ensures { result ≡ asked line.now }
{
    match line {
        Line::Write { sector, bytes } => Some(Ask::Write {
            sector: *sector,
            bytes: AskBytes::of(bytes.as_slice()),
        }),
        Line::Read { sector } => Some(Ask::Read { sector: *sector }),
        Line::Trim { sector } => Some(Ask::Trim { sector: *sector }),
        _ => None,
    }
}

/// The reply to a command that was refused.
fn refused_reply(why: FtlError) -> Reply
    ensures { result ≡ replied (Answer.Refused why) }
{
    match why {
        FtlError::BadSector => Reply::Range,
        FtlError::Stopped => Reply::Off,
        FtlError::DieFault => Reply::Fault,
        FtlError::Spent => Reply::Spent,
    }
}

/// The reply that tells an answer.
fn reply_to(answer: &Answer) -> Reply
    ensures { result ≡ replied answer.now }
{
    match answer {
        Answer::Wrote(Placed::First) => Reply::First,
        Answer::Wrote(Placed::Second) => Reply::Second,
        Answer::Wrote(Placed::Declined) => Reply::Declined,
        Answer::Bytes(bytes) => bytes_reply(bytes.as_slice()),
        Answer::Trimmed => Reply::Done,
        Answer::Refused(why) => refused_reply(*why),
    }
}

/// Takes the next command out of a queue, makes its one call of a device that runs, and answers with its tag. None is answered
/// exactly where nothing waits.
pub fn serve_on<D: PowerDie + Drop, C: Scheme + Drop, F: PowerDevice<D, C>>(
    ftl: &mut F,
    queue: &mut Queue,
) -> Option<(u32, Reply)>
    requires sectors { queue.old.sectors ≡ (F.device ftl.old).numbers.geometry.sectors }
    requires sector_bytes { queue.old.sector_bytes ≡ (F.device ftl.old).numbers.geometry.sector_bytes }
    requires running { (F.device ftl.old).stopped ≡ false }
    requires kept { IsKept (F.device ftl.old).numbers (F.device ftl.old) }
    ensures none { IfNone result (queue.old.commands ≡ []) }
    ensures same { IfNone result (queue.new ≡ queue.old) }
    ensures same_device { IfNone result (F.device ftl.new ≡ F.device ftl.old) }
    ensures served { IfSome result (λ told. ServesDevice (F.device ftl.old).numbers told.0 told.1 queue.old queue.new (F.device ftl.old) (F.device ftl.new)) }
{
    let answered = queue.serve(ftl)?;
    Some((answered.tag, reply_to(&answered.answer)))
}

/// Takes the next command out of a queue, and answers `off` with its tag. None is answered exactly where nothing waits.
pub fn serve_off(queue: &mut Queue) -> Option<(u32, Reply)>
    ensures none { IfNone result (queue.old.commands ≡ []) }
    ensures same { IfNone result (queue.new ≡ queue.old) }
    ensures taken { IfSome result (λ told. (told.1 ≡ Reply.Off) × TakesOff told.0 queue.old queue.new) }
{
    let command = queue.next()?;
    Some((command.tag, Reply::Off))
}
