//! Lines on a device that runs. Each is one call of it, and a step from every view that it stood for to one that it stands for.
ghost use Rattle.std.specs.Prelude.{◌≡◌, ◌≤◌, ◌<◌, ◌^◌, ◌↔◌, ℕ, List, false, length, None, IfSome, IfNone, IfOk, IfErr};
ghost use Rattle.cell_die.specs.Calls.{Kept};
ghost use Rattle.cell_die.specs.Power.{told, with_cut, with_power, with_read_failure};
ghost use Rattle.cell_die.specs.DieState.{DieState};
ghost use Rattle.page_codec.specs.Geometry.{shape_of};
ghost use Rattle.rssd_core.specs.DeviceValue.{with_die};
ghost use Rattle.rssd_core.specs.Failures.{Tells};
ghost use Rattle.rssd_core.specs.Mount.{numbers_of, Fits, Mounts, Refuses};
ghost use Rattle.rssd_core.specs.SectorArray.{filled_up};
ghost use Rattle.rssd_run.specs.Armed.{form_of_word};
ghost use Rattle.rssd_run.specs.Exchanges.{AnsweredBy, AnsweredOn};
ghost use Rattle.rssd_run.specs.Held.{reply_of};
ghost use Rattle.rssd_run.specs.Step.{KeepsDie};
ghost use Rattle.rssd_run.specs.Played.{IsPlayed, Answered, AnsweredWrite, AnsweredRead, AnsweredTrim, AnsweredIdle, Plays, PlaysQuiet};
ghost use Rattle.rssd_run.specs.Shows.{CanStep, IsDeviceLine, Mounted};
ghost use Rattle.rssd_run.specs.Steps.{IsKept, Steps, MountDone, MountRefused, refusal_reply as replied};

use crate::row::bytes_reply;
use cell_die::{Die, PowerDie, Torn};
use rssd_core::device::{Device, FtlError, MountError, Placed, Plan, PowerDevice, Refused};
use rssd_script::{Line, Reply, TornWord};
use std::alloc::Global;
use striped::Scheme;

/// The most bytes of a sector.
const ROW_BYTES: usize = 512;

/// The bytes of a small sector.
const SMALL_ROW_BYTES: usize = 16;

/// The reply to a write that was placed.
fn placed_reply(placed: Placed) -> Reply
    ensures { result ≡ reply_of placed }
{
    match placed {
        Placed::First => Reply::First,
        Placed::Second => Reply::Second,
        Placed::Declined => Reply::Declined,
    }
}

/// The form of a cut that its line names.
fn torn_of(torn: TornWord) -> Torn
    ensures { result ≡ form_of_word torn }
{
    match torn {
        TornWord::Nothing => Torn::Nothing,
        TornWord::All => Torn::All,
        TornWord::Mask(mask) => Torn::Mask(mask),
    }
}

/// These bytes, filled up with zero bytes.
fn filled_row(bytes: &[u8]) -> [u8; 512]
    requires { length bytes.now ≤ 512 }
    ensures { result ≡ filled_up 512 bytes.now }
{
    let mut row = [0u8; ROW_BYTES];
    row[..bytes.len()].copy_from_slice(bytes);
    row
}

/// Writes a row to a sector that the device has. The row is that of a line's bytes, filled up.
fn write_row<D: Die + Drop, C: Scheme + Drop, F: Device<D, C>>(
    ftl: &mut F,
    sector: u32,
    row: &[u8],
) -> Reply
    requires in_range { sector < (F.device ftl.old).numbers.geometry.sectors }
    requires whole { length row.now ≡ (F.device ftl.old).numbers.geometry.sector_bytes }
    requires running { (F.device ftl.old).stopped ≡ false }
    ensures { (bytes : List ℕ) → length bytes ≤ (F.device ftl.old).numbers.geometry.sector_bytes → row.now ≡ filled_up (F.device ftl.old).numbers.geometry.sector_bytes bytes
        → AnsweredWrite (F.device ftl.old).numbers sector bytes result (F.device ftl.old) (F.device ftl.new) }
{
    match ftl.write(sector, row) {
        Ok(placed) => placed_reply(placed),
        Err(FtlError::DieFault) => Reply::Fault,
        Err(FtlError::Spent) => Reply::Spent,
        Err(FtlError::BadSector | FtlError::Stopped) => unreachable!(),
    }
}

/// Writes a sector that the device has, with bytes that fit it. As many as the sector has are written as they stand.
fn write_bytes<D: Die + Drop, C: Scheme + Drop, F: Device<D, C>>(
    ftl: &mut F,
    sector: u32,
    bytes: &[u8],
) -> Reply
    requires in_range { sector < (F.device ftl.old).numbers.geometry.sectors }
    requires fits { length bytes.now ≤ (F.device ftl.old).numbers.geometry.sector_bytes }
    requires few_bytes { (F.device ftl.old).numbers.geometry.sector_bytes ≤ 512 }
    requires running { (F.device ftl.old).stopped ≡ false }
    ensures { AnsweredWrite (F.device ftl.old).numbers sector bytes.now result (F.device ftl.old) (F.device ftl.new) }
{
    let size = ftl.sector_bytes() as usize;
    if bytes.len() == size {
        return write_row(ftl, sector, bytes);
    }
    write_row(ftl, sector, &filled_row(bytes)[..size])
}

/// Answers `write`.
fn write_line<D: Die + Drop, C: Scheme + Drop, F: Device<D, C>>(
    ftl: &mut F,
    sector: u32,
    bytes: &[u8],
) -> Reply
    requires few_bytes { (F.device ftl.old).numbers.geometry.sector_bytes ≤ 512 }
    requires running { (F.device ftl.old).stopped ≡ false }
    ensures { AnsweredWrite (F.device ftl.old).numbers sector bytes.now result (F.device ftl.old) (F.device ftl.new) }
{
    if sector >= ftl.sectors() {
        return Reply::Range;
    }
    if bytes.len() > ftl.sector_bytes() as usize {
        return Reply::Long;
    }
    write_bytes(ftl, sector, bytes)
}

/// Answers a read of a sector, which goes through a row of its size.
fn read_row<D: Die + Drop, C: Scheme + Drop, F: Device<D, C>>(
    ftl: &mut F,
    sector: u32,
    row: &mut [u8],
    reply: &mut Reply,
)
    requires row { length row.old ≡ (F.device ftl.old).numbers.geometry.sector_bytes }
    requires few_bytes { (F.device ftl.old).numbers.geometry.sector_bytes ≤ 512 }
    requires running { (F.device ftl.old).stopped ≡ false }
    ensures { AnsweredRead (F.device ftl.old).numbers sector reply.new (F.device ftl.old) (F.device ftl.new) }
{
    match ftl.read(sector, row) {
        Ok(()) => *reply = bytes_reply(row),
        Err(FtlError::BadSector) => *reply = Reply::Range,
        Err(FtlError::DieFault) => *reply = Reply::Fault,
        Err(FtlError::Stopped | FtlError::Spent) => unreachable!(),
    }
}

/// Answers `read`. A small sector takes little room.
fn read_line<D: Die + Drop, C: Scheme + Drop, F: Device<D, C>>(
    ftl: &mut F,
    sector: u32,
    reply: &mut Reply,
)
    requires few_bytes { (F.device ftl.old).numbers.geometry.sector_bytes ≤ 512 }
    requires running { (F.device ftl.old).stopped ≡ false }
    ensures { AnsweredRead (F.device ftl.old).numbers sector reply.new (F.device ftl.old) (F.device ftl.new) }
{
    let size = ftl.sector_bytes() as usize;
    if size <= SMALL_ROW_BYTES {
        read_row(ftl, sector, &mut [0u8; SMALL_ROW_BYTES][..size], reply)
    } else {
        read_row(ftl, sector, &mut [0u8; ROW_BYTES][..size], reply)
    }
}

/// Answers `trim`.
fn trim_line<D: Die + Drop, C: Scheme + Drop, F: Device<D, C>>(ftl: &mut F, sector: u32) -> Reply
    requires running { (F.device ftl.old).stopped ≡ false }
    ensures { AnsweredTrim (F.device ftl.old).numbers sector result (F.device ftl.old) (F.device ftl.new) }
{
    match ftl.trim(sector) {
        Ok(()) => Reply::Done,
        Err(FtlError::BadSector) => Reply::Range,
        Err(FtlError::Spent) => Reply::Spent,
        Err(FtlError::DieFault) => Reply::Fault,
        Err(FtlError::Stopped) => unreachable!(),
    }
}

/// Answers `idle`.
fn idle_line<D: Die + Drop, C: Scheme + Drop, F: Device<D, C>>(ftl: &mut F, n: u32) -> Reply
    requires running { (F.device ftl.old).stopped ≡ false }
    ensures { AnsweredIdle (F.device ftl.old).numbers n result (F.device ftl.old) (F.device ftl.new) }
{
    match ftl.idle(n) {
        Ok(moves) => Reply::Moves(moves),
        Err(FtlError::DieFault) => Reply::Fault,
        Err(FtlError::BadSector | FtlError::Stopped | FtlError::Spent) => unreachable!(),
    }
}

/// Answers a line that is played on a device, which runs.
fn play_line<D: Die + Drop, C: Scheme + Drop, F: Device<D, C>>(
    ftl: &mut F,
    line: &Line,
    reply: &mut Reply,
)
    requires line { IsPlayed line.now }
    requires few_bytes { (F.device ftl.old).numbers.geometry.sector_bytes ≤ 512 }
    requires running { (F.device ftl.old).stopped ≡ false }
    ensures { Answered (F.device ftl.old).numbers line.now reply.new (F.device ftl.old) (F.device ftl.new) }
{
    match line {
        Line::Write { sector, bytes } => *reply = write_line(ftl, *sector, bytes.as_slice()),
        Line::Read { sector } => read_line(ftl, *sector, reply),
        Line::Trim { sector } => *reply = trim_line(ftl, *sector),
        Line::Idle { n } => *reply = idle_line(ftl, *n),
        Line::Cut { .. } | Line::FailRead { .. } | Line::Mount | Line::Stat => unreachable!(),
    }
}

/// Plays a line on a device over any die: `off` where the device is stopped. None is answered for a line that only a session
/// takes, and then nothing changes.
pub fn play<D: Die + Drop, C: Scheme + Drop, F: Device<D, C>>(
    ftl: &mut F,
    line: &Line,
) -> Option<Reply>
    requires { (F.device ftl.old).numbers.geometry.sector_bytes ≤ 512 }
    ensures none { result ≡ None ↔ (¬ IsPlayed line.now) }
    ensures nothing { IfNone result (F.device ftl.new ≡ F.device ftl.old) }
    ensures plays { IfSome result (λ reply. Plays (F.device ftl.old).numbers line.now reply (F.device ftl.old) (F.device ftl.new)) }
    ensures answers { IfSome result (λ reply. AnsweredBy (F.device ftl.old).numbers line.now reply (Mounted (F.device ftl.old)) (Mounted (F.device ftl.new))) }
    ensures quiet { IfSome result (λ reply. PlaysQuiet reply (F.device ftl.old) (F.device ftl.new)) }
    ensures keeps { IfSome result (λ reply. KeepsDie (F.device ftl.old).numbers (F.device ftl.old).view.die (F.device ftl.new).view.die) }
    ensures numbers { (F.device ftl.new).numbers ≡ (F.device ftl.old).numbers }
    ensures kept { Kept (F.device ftl.old).view.die (F.device ftl.new).view.die }
{
    match line {
        Line::Cut { .. } | Line::FailRead { .. } | Line::Mount | Line::Stat => None,
        _ => {
            if ftl.stopped() {
                Some(Reply::Off)
            } else {
                let mut reply = Reply::Off;
                play_line(ftl, line, &mut reply);
                Some(reply)
            }
        }
    }
}

/// Answers `cut`.
fn cut_line<D: PowerDie + Drop, C: Scheme + Drop, F: PowerDevice<D, C>>(
    ftl: &mut F,
    n: u32,
    torn: TornWord,
) -> Reply
    requires some { 1 ≤ n }
    requires running { (F.device ftl.old).stopped ≡ false }
    requires kept { IsKept (F.device ftl.old).numbers (F.device ftl.old) }
    ensures step { Steps (F.device ftl.old).numbers (Line.Cut n torn) result (F.device ftl.old) (F.device ftl.new) }
    ensures armed { (result ≡ Reply.Done) × (F.device ftl.new ≡ with_die (told (with_cut n (form_of_word torn))) (F.device ftl.old)) }
{
    ftl.arm_cut(n, torn_of(torn));
    Reply::Done
}

/// Answers `failread`.
fn fail_read_line<D: PowerDie + Drop, C: Scheme + Drop, F: PowerDevice<D, C>>(
    ftl: &mut F,
    n: u32,
) -> Reply
    requires some { 1 ≤ n }
    requires running { (F.device ftl.old).stopped ≡ false }
    requires kept { IsKept (F.device ftl.old).numbers (F.device ftl.old) }
    ensures step { Steps (F.device ftl.old).numbers (Line.FailRead n) result (F.device ftl.old) (F.device ftl.new) }
    ensures armed { (result ≡ Reply.Done) × (F.device ftl.new ≡ with_die (told (with_read_failure n)) (F.device ftl.old)) }
{
    ftl.fail_read(n);
    Reply::Done
}

/// Answers a line on a device that runs.
pub fn answer_line<D: PowerDie + Drop, C: Scheme + Drop, F: PowerDevice<D, C>>(
    ftl: &mut F,
    line: &Line,
    reply: &mut Reply,
)
    requires line { IsDeviceLine line.now }
    requires can_step { CanStep line.now }
    requires few_bytes { (F.device ftl.old).numbers.geometry.sector_bytes ≤ 512 }
    requires running { (F.device ftl.old).stopped ≡ false }
    requires kept { IsKept (F.device ftl.old).numbers (F.device ftl.old) }
    ensures step { Steps (F.device ftl.old).numbers line.now reply.new (F.device ftl.old) (F.device ftl.new) }
    ensures answers { AnsweredOn (F.device ftl.old).numbers line.now reply.new (F.device ftl.old) (F.device ftl.new) }
{
    match line {
        Line::Cut { n, torn } => *reply = cut_line(ftl, *n, *torn),
        Line::FailRead { n } => *reply = fail_read_line(ftl, *n),
        Line::Mount | Line::Stat => unreachable!(),
        _ => play_line(ftl, line, reply),
    }
}

/// The reply to a mount that was refused; a bad shape never comes after a session's start.
pub fn refusal_reply(why: MountError) -> Reply
    ensures { result ≡ replied why }
{
    match why {
        MountError::OutOfMemory | MountError::Shape => Reply::NoMemory,
        MountError::DieFault => Reply::Fault,
        MountError::NoSpare => Reply::NoSpare,
    }
}

/// Gives a die its power back and mounts it.
pub fn mount_again<D: PowerDie + Drop, C: Scheme + Drop, F: PowerDevice<D, C>>(
    alloc: Global,
    mut die: D,
    scheme: C,
    plan: Plan,
) -> Result<F, Refused<D, C>>
    requires tells { Tells (D.state die) }
    requires fits { Fits (D.state die).shape (C.meaning scheme) plan }
    ensures done { IfOk result (λ new. MountDone (numbers_of (D.state die).shape (C.meaning scheme) plan) (D.state die) (F.device new)) }
    ensures refused { IfErr result (λ refused. MountRefused (numbers_of (D.state die).shape (C.meaning scheme) plan) (D.state die) (D.state refused.die) refused.why) }
    ensures mounts { IfOk result (λ new. Mounts (numbers_of (D.state die).shape (C.meaning scheme) plan) (told with_power (D.state die)) (F.device new)) }
    ensures refuses { IfErr result (λ refused. Refuses (numbers_of (D.state die).shape (C.meaning scheme) plan) (told with_power (D.state die)) (D.state refused.die) refused.why) }
    ensures scheme { IfErr result (λ refused. C.meaning refused.scheme ≡ C.meaning scheme) }
{
    die.power_on();
    match F::mount(alloc, die, scheme, plan) {
        Ok(ftl) => Ok(ftl),
        Err(refused) => Err(refused),
    }
}
