//! One request on a device.
ghost use Rattle.std.specs.Prelude.{◌≡◌, ◌⊎◌, ◌+◌, ◌≤◌, false, length};
ghost use Rattle.rssd_disk.specs.Answers.{Answers, CarriedOut};
ghost use Rattle.rssd_disk.specs.Disk.{IsDisk, disk_size};
ghost use Rattle.rssd_disk.specs.Rules.{HasRange, data_length};

use crate::bytes::{Data, put_bytes, read_bytes};
use crate::rules::refusal;
use cell_die::Die;
use nbd_wire::{Command, Errno, Request};
use rssd_core::device::Device;
use striped::Scheme;

/// The bytes of a device's disk.
pub(crate) fn size_of<D: Die + Drop, C: Scheme + Drop, F: Device<D, C>>(ftl: &F) -> u64
    ensures { result ≡ disk_size (F.device ftl.now).numbers }
{
    u64::from(ftl.sectors()) * u64::from(ftl.sector_bytes())
}

/// Carries a read out.
fn answer_read<D: Die + Drop, C: Scheme + Drop, F: Device<D, C>>(
    ftl: &mut F,
    request: &Request,
    bytes: &mut [u8],
) -> Errno
    requires command { request.now.command ≡ Command.Read }
    requires sizes { IsDisk (F.device ftl.old).numbers }
    requires range { request.now.offset + request.now.length ≤ disk_size (F.device ftl.old).numbers }
    requires running { (F.device ftl.old).stopped ≡ false }
    requires room { length bytes.old ≡ request.now.length }
    ensures { CarriedOut (F.device ftl.old).numbers request.now bytes.old bytes.new (F.device ftl.old) (F.device ftl.new) result }
{
    match read_bytes(ftl, request.offset, bytes) {
        Ok(()) => Errno::Done,
        Err(_) => Errno::InputOutput,
    }
}

/// Carries a write out.
fn answer_write<D: Die + Drop, C: Scheme + Drop, F: Device<D, C>>(
    ftl: &mut F,
    request: &Request,
    bytes: &[u8],
) -> Errno
    requires command { request.now.command ≡ Command.Write }
    requires sizes { IsDisk (F.device ftl.old).numbers }
    requires range { request.now.offset + request.now.length ≤ disk_size (F.device ftl.old).numbers }
    requires running { (F.device ftl.old).stopped ≡ false }
    requires room { length bytes.now ≡ request.now.length }
    ensures { CarriedOut (F.device ftl.old).numbers request.now bytes.now bytes.now (F.device ftl.old) (F.device ftl.new) result }
{
    match put_bytes(ftl, request.offset, &Data::Given(bytes)) {
        Ok(()) => Errno::Done,
        Err(_) => Errno::InputOutput,
    }
}

/// Makes the bytes of a request zeros.
fn answer_zeroes<D: Die + Drop, C: Scheme + Drop, F: Device<D, C>>(
    ftl: &mut F,
    request: &Request,
    bytes: &[u8],
) -> Errno
    requires command { (request.now.command ≡ Command.Trim) ⊎ (request.now.command ≡ Command.WriteZeroes) }
    requires sizes { IsDisk (F.device ftl.old).numbers }
    requires range { request.now.offset + request.now.length ≤ disk_size (F.device ftl.old).numbers }
    requires running { (F.device ftl.old).stopped ≡ false }
    ensures { CarriedOut (F.device ftl.old).numbers request.now bytes.now bytes.now (F.device ftl.old) (F.device ftl.new) result }
{
    match put_bytes(ftl, request.offset, &Data::Zeros(request.length as usize)) {
        Ok(()) => Errno::Done,
        Err(_) => Errno::InputOutput,
    }
}

/// Carries a request out that is within its rules.
fn carry_out<D: Die + Drop, C: Scheme + Drop, F: Device<D, C>>(
    ftl: &mut F,
    request: &Request,
    bytes: &mut [u8],
) -> Errno
    requires sizes { IsDisk (F.device ftl.old).numbers }
    requires range { HasRange (disk_size (F.device ftl.old).numbers) request.now request.now.command }
    requires running { (F.device ftl.old).stopped ≡ false }
    requires room { length bytes.old ≡ data_length request.now }
    ensures { CarriedOut (F.device ftl.old).numbers request.now bytes.old bytes.new (F.device ftl.old) (F.device ftl.new) result }
{
    match request.command {
        Command::Read => answer_read(ftl, request, bytes),
        Command::Write => answer_write(ftl, request, bytes),
        Command::Trim | Command::WriteZeroes => answer_zeroes(ftl, request, bytes),
        Command::Flush => Errno::Done,
        Command::Disconnect | Command::Cache | Command::Other(_) => unreachable!(),
    }
}

/// Answers a request on a device that runs. `bytes` are those of a write, and afterwards those of a read.
pub fn answer_request<D: Die + Drop, C: Scheme + Drop, F: Device<D, C>>(
    ftl: &mut F,
    request: &Request,
    bytes: &mut [u8],
) -> Errno
    requires sizes { IsDisk (F.device ftl.old).numbers }
    requires running { (F.device ftl.old).stopped ≡ false }
    requires room { length bytes.old ≡ data_length request.now }
    ensures { Answers (F.device ftl.old).numbers request.now bytes.old bytes.new (F.device ftl.old) (F.device ftl.new) result }
{
    match refusal(request, size_of(ftl)) {
        Some(why) => why,
        None => carry_out(ftl, request, bytes),
    }
}
