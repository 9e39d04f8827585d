//! A serve: the next command is taken out of a queue, and is answered by one call of a device.
ghost use Rattle.std.specs.Prelude.{◌≡◌, ◌≤◌, [], IfSome, IfNone};
ghost use Rattle.rssd_queue.specs.Waiting.{IsAsked};
ghost use Rattle.rssd_queue.specs.Pick.{Takes};
ghost use Rattle.rssd_queue.specs.Called.{Called, Serves};

use crate::ask::{Ask, AskBytes, ROW_BYTES};
use crate::queue::Queue;
use cell_die::Die;
use rssd_core::device::{Device, FtlError, Placed};
use striped::Scheme;

/// What a command is answered.
#[derive(Drop)]
pub enum Answer {
    Wrote(Placed),
    /// All bytes of the sector.
    Bytes(AskBytes),
    Trimmed,
    Refused(FtlError),
}

/// An answer, with the tag of its command.
#[derive(Drop)]
pub struct Answered {
    pub tag: u32,
    pub answer: Answer,
}

/// Reads a sector.
fn read_row<D: Die + Drop, C: Scheme + Drop, F: Device<D, C>>(ftl: &mut F, sector: u32) -> Answer
    requires asked { IsAsked (F.device ftl.old).numbers.geometry.sectors (F.device ftl.old).numbers.geometry.sector_bytes (Ask.Read sector) }
    requires few_bytes { (F.device ftl.old).numbers.geometry.sector_bytes ≤ 512 }
    ensures { Called (F.device ftl.old).numbers (Ask.Read sector) result (F.device ftl.old) (F.device ftl.new) }
{
    let mut room = [0u8; ROW_BYTES];
    let row = &mut room[..ftl.sector_bytes() as usize];
    match ftl.read(sector, row) {
        Ok(()) => Answer::Bytes(AskBytes::of(row)),
        Err(why) => Answer::Refused(why),
    }
}

/// Makes the one call that is asked.
fn call<D: Die + Drop, C: Scheme + Drop, F: Device<D, C>>(ftl: &mut F, ask: &Ask) -> Answer
    requires asked { IsAsked (F.device ftl.old).numbers.geometry.sectors (F.device ftl.old).numbers.geometry.sector_bytes ask.now }
    requires few_bytes { (F.device ftl.old).numbers.geometry.sector_bytes ≤ 512 }
    ensures { Called (F.device ftl.old).numbers ask.now result (F.device ftl.old) (F.device ftl.new) }
{
    match ask {
        Ask::Read { sector } => read_row(ftl, *sector),
        Ask::Write { sector, bytes } => match ftl.write(*sector, bytes.as_slice()) {
            Ok(placed) => Answer::Wrote(placed),
            Err(why) => Answer::Refused(why),
        },
        Ask::Trim { sector } => match ftl.trim(*sector) {
            Ok(()) => Answer::Trimmed,
            Err(why) => Answer::Refused(why),
        },
    }
}

impl Queue {
    /// Takes out the next command, makes its one call of the device, and answers with its tag. None is answered exactly where
    /// nothing waits.
    pub fn serve<D: Die + Drop, C: Scheme + Drop, F: Device<D, C>>(
        &mut self,
        ftl: &mut F,
    ) -> Option<Answered>
        requires sectors { self.old.sectors ≡ (F.device ftl.old).numbers.geometry.sectors }
        requires sector_bytes { self.old.sector_bytes ≡ (F.device ftl.old).numbers.geometry.sector_bytes }
        ensures none { IfNone result (self.old.commands ≡ []) }
        ensures same { IfNone result (self.new ≡ self.old) }
        ensures same_device { IfNone result (F.device ftl.new ≡ F.device ftl.old) }
        ensures served { IfSome result (λ answered. Serves (F.device ftl.old).numbers answered.tag answered.answer self.old self.new (F.device ftl.old) (F.device ftl.new)) }
    {
        let command = self.next()?;
        let answer = call(ftl, &command.ask);
        Some(Answered {
            tag: command.tag,
            answer,
        })
    }
}
