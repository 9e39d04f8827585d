//! The requests of a client, each of which is answered once, in their order.
ghost use Rattle.std.specs.Prelude.{◌≡◌, ◌+◌, ◌∷◌, [], ◌++◌, length, IfOk, OnOk, IfErr};
ghost use Rattle.nbd_wire.specs.Requests.{request_bytes, IsRequest};
ghost use Rattle.rssd_io.specs.Event.{moved};
ghost use Rattle.rssd_disk.specs.Bytes.{part_of};
ghost use Rattle.rssd_disk.specs.Rules.{data_length};
ghost use Rattle.rssd_disk.specs.Sessions.{Brings, IsQuiet, told_length, reply_to, AnswersOne, NoRequest, EndsSo, EndsAfter};
ghost use Rattle.rssd_disk.specs.Streams.{Takes, HasStopped};

use crate::device_disk::Disk;
use crate::exact::{skip, take_all};
use crate::rules::{LONGEST, data_length};
use crate::serving::Ended;
use nbd_wire::{Command, Errno, ReplyHead, Request};
use rssd_io::{Sink, Source};
use std::alloc::Global;

/// The bytes of a reply's head.
const HEAD: usize = 16;

/// Takes the head of a request.
fn take_request<I: Source>(from: &mut I) -> Result<Request, Ended>
    ensures taken { IfOk result (λ request. Takes (I.log from.old) (I.log from.new) (request_bytes request)) }
    ensures spelled { IfOk result IsRequest }
    ensures none { IfErr result (λ ended. NoRequest ended (I.log from.old) (I.log from.new)) }
    ensures quiet { IfErr result IsQuiet }
{
    let mut bytes = [0; 28];
    take_all(from, &mut bytes)?;
    match Request::parse(&bytes) {
        Some(request) => Ok(request),
        None => Err(Ended::NotProtocol),
    }
}

/// Takes the bytes of a write, and passes over those of one that is too long.
fn take_brought<I: Source>(from: &mut I, request: &Request, room: &mut [u8]) -> Result<(), Ended>
    requires command { request.now.command ≡ Command.Write }
    requires room { length room.old ≡ 1048592 }
    ensures brings { OnOk result (Brings request.now (I.log from.old) (I.log from.new) (part_of 16 (data_length request.now) room.new)) }
    ensures stopped { IfErr result (λ ended. HasStopped ended (I.log from.new)) }
    ensures quiet { IfErr result IsQuiet }
{
    if request.length > LONGEST {
        return skip(from, room, request.length);
    }
    take_all(from, &mut room[HEAD..HEAD + request.length as usize])
}

/// Takes what stands behind the head of a request.
fn take_behind<I: Source>(from: &mut I, request: &Request, room: &mut [u8]) -> Result<(), Ended>
    requires { length room.old ≡ 1048592 }
    ensures brings { OnOk result (Brings request.now (I.log from.old) (I.log from.new) (part_of 16 (data_length request.now) room.new)) }
    ensures stopped { IfErr result (λ ended. HasStopped ended (I.log from.new)) }
    ensures quiet { IfErr result IsQuiet }
{
    match request.command {
        Command::Write => take_brought(from, request, room),
        _ => Ok(()),
    }
}

/// How many bytes stand behind the head of a reply.
fn told_length(request: &Request, error: Errno) -> usize
    ensures { result ≡ told_length request.now.command error (data_length request.now) }
{
    match (request.command, error) {
        (Command::Read, Errno::Done) => data_length(request),
        _ => 0,
    }
}

/// Gives a reply: its head, and behind it what a read answers.
fn give_reply<O: Sink>(
    to: &mut O,
    request: &Request,
    error: Errno,
    room: &mut [u8],
) -> Result<(), Ended>
    requires { length room.old ≡ 1048592 }
    ensures given { OnOk result (O.log to.new ≡ O.log to.old ++ moved (reply_to request.now error (part_of 16 (data_length request.now) room.old)) ∷ []) }
    ensures failed { IfErr result (λ ended. ended ≡ Ended.WriteFault) }
{
    let head = ReplyHead {
        error,
        handle: request.handle,
    };
    room[..HEAD].copy_from_slice(&head.encode());
    match to.give(&room[..HEAD + told_length(request, error)]) {
        Ok(()) => Ok(()),
        Err(_) => Err(Ended::WriteFault),
    }
}

/// Takes one request and answers it.
fn answer_one<K: Disk, I: Source, O: Sink>(
    alloc: Global,
    disk: &mut K,
    from: &mut I,
    to: &mut O,
    room: &mut [u8],
) -> Result<(), Ended>
    requires held { K.held disk.old }
    requires room { length room.old ≡ 1048592 }
    ensures held { K.held disk.new }
    ensures answers { OnOk result (AnswersOne K.answers K.power disk.old disk.new (I.log from.old) (I.log from.new) (O.log to.old) (O.log to.new)) }
    ensures ends { IfErr result (λ ended. EndsSo K.answers K.power ended disk.old disk.new (I.log from.old) (I.log from.new) (O.log to.old) (O.log to.new)) }
{
    let request = take_request(from)?;
    if let Command::Disconnect = request.command {
        return Err(Ended::Left);
    }
    take_behind(from, &request, room)?;
    let count = data_length(&request);
    let error = disk.answer(alloc, &request, &mut room[HEAD..HEAD + count]);
    if !disk.has_power() {
        return Err(Ended::NoPower);
    }
    give_reply(to, &request, error, room)
}

/// Answers requests until the session ends.
pub(crate) fn answer_all<K: Disk, I: Source, O: Sink>(
    alloc: Global,
    disk: &mut K,
    from: &mut I,
    to: &mut O,
    room: &mut [u8],
) -> Ended
    requires held { K.held disk.old }
    requires room { length room.old ≡ 1048592 }
    ensures held { K.held disk.new }
    ensures answers { EndsAfter K.answers K.power result disk.old disk.new (I.log from.old) (I.log from.new) (O.log to.old) (O.log to.new) }
{
    let mut answered = 0;
    while answered < u64::MAX {
        match answer_one(alloc, disk, from, to, room) {
            Ok(()) => answered += 1,
            Err(ended) => return ended,
        }
    }
    Ended::NotProtocol
}
