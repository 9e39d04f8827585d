//! What is said before the requests: the greeting, and the options of the client.
ghost use Rattle.std.specs.Prelude.{◌≡◌, ◌∷◌, [], ◌≤◌, length, take, IfOk, IfErr, OnOk};
ghost use Rattle.nbd_wire.specs.Options.{option_bytes, IsOption, IsChoice};
ghost use Rattle.rssd_io.specs.Pieces.{Gives, StopsAt};
ghost use Rattle.rssd_disk.specs.Handshakes.{export_of, said, name_told, list_told, choice_told, told_to, follows};
ghost use Rattle.rssd_disk.specs.Handshakes.{MayHave, Answered, AnswerFails, AnswersOption, TakesFlags, NoFlags, NoHead, NoAnswer, AgreesOn, Agrees, EndsOn, EndsHandshake};
ghost use Rattle.rssd_disk.specs.Streams.{Takes, HasStopped};

use crate::exact::{skip, take_all};
use crate::rules::LONGEST;
use crate::serving::Ended;
use nbd_wire::{Answer, AnswerHead, Export, OptionHead, OptionKind, greeting, is_choice};
use rssd_io::{Sink, Source};

/// How a client follows the greeting: it wants no zero bytes behind the answer to `ExportName`.
const NO_FILLING: u32 = 2;

/// The zero bytes behind the answer to `ExportName`.
const FILLING: usize = 124;

/// What follows an option.
#[derive(Clone, Copy, Debug, PartialEq, Eq)]
enum Next {
    /// Another option.
    Another,
    Requests,
    /// Nothing: the client leaves.
    Leave,
}

/// Gives bytes.
fn give<O: Sink>(to: &mut O, bytes: &[u8]) -> Result<(), Ended>
    ensures gave { OnOk result (Gives (bytes.now ∷ []) (O.log to.old) (O.log to.new)) }
    ensures fault { IfErr result (λ ended. ended ≡ Ended.WriteFault) }
    ensures stops { IfErr result (λ ended. StopsAt (bytes.now ∷ []) (O.log to.old) (O.log to.new)) }
{
    match to.give(bytes) {
        Ok(()) => Ok(()),
        Err(_) => Err(Ended::WriteFault),
    }
}

/// Gives an answer to an option.
fn answer<O: Sink>(to: &mut O, kind: OptionKind, answer: Answer, bytes: &[u8]) -> Result<(), Ended>
    requires { length bytes.now ≤ 1048592 }
    ensures gave { OnOk result (Gives (said kind answer bytes.now) (O.log to.old) (O.log to.new)) }
    ensures fault { IfErr result (λ ended. ended ≡ Ended.WriteFault) }
    ensures stops { IfErr result (λ ended. StopsAt (said kind answer bytes.now) (O.log to.old) (O.log to.new)) }
{
    let head = AnswerHead {
        kind,
        answer,
        length: bytes.len() as u32,
    };
    give(to, &head.encode())?;
    give(to, bytes)
}

/// Refuses an option whose data are not as they must be.
fn refuse<O: Sink>(to: &mut O, kind: OptionKind) -> Result<Next, Ended>
    ensures next { IfOk result (λ next. next ≡ Next.Another) }
    ensures gave { OnOk result (Gives (said kind Answer.Invalid []) (O.log to.old) (O.log to.new)) }
    ensures fault { IfErr result (λ ended. ended ≡ Ended.WriteFault) }
    ensures stops { IfErr result (λ ended. StopsAt (said kind Answer.Invalid []) (O.log to.old) (O.log to.new)) }
{
    answer(to, kind, Answer::Invalid, &[])?;
    Ok(Next::Another)
}

/// What a client is told of a disk of so many bytes.
fn export_of(size: u64) -> Export
    ensures { result ≡ export_of size }
{
    Export {
        size,
        least: 1,
        best: 4096,
        most: LONGEST,
    }
}

/// Tells what there is to know of the disk.
fn tell_choice<O: Sink>(to: &mut O, kind: OptionKind, size: u64) -> Result<(), Ended>
    ensures gave { OnOk result (Gives (choice_told kind size) (O.log to.old) (O.log to.new)) }
    ensures fault { IfErr result (λ ended. ended ≡ Ended.WriteFault) }
    ensures stops { IfErr result (λ ended. StopsAt (choice_told kind size) (O.log to.old) (O.log to.new)) }
{
    let export = export_of(size);
    answer(to, kind, Answer::Told, &export.encode_size())?;
    answer(to, kind, Answer::Told, &export.encode_lengths())?;
    answer(to, kind, Answer::Acknowledged, &[])
}

/// Answers `Info` and `Go`, behind which this follows.
fn answer_choice<O: Sink>(
    to: &mut O,
    kind: OptionKind,
    size: u64,
    bytes: &[u8],
    behind: Next,
) -> Result<Next, Ended>
    ensures answered { IfOk result (λ next. Answered (IsChoice bytes.now) kind (choice_told kind size) behind next (O.log to.old) (O.log to.new)) }
    ensures fault { IfErr result (λ ended. ended ≡ Ended.WriteFault) }
    ensures fails { IfErr result (λ ended. AnswerFails (IsChoice bytes.now) kind (choice_told kind size) (O.log to.old) (O.log to.new)) }
{
    if !is_choice(bytes) {
        return refuse(to, kind);
    }
    tell_choice(to, kind, size)?;
    Ok(behind)
}

/// Answers `ExportName`.
fn answer_name<O: Sink>(to: &mut O, size: u64, flags: u32) -> Result<(), Ended>
    ensures gave { OnOk result (Gives (name_told size flags) (O.log to.old) (O.log to.new)) }
    ensures fault { IfErr result (λ ended. ended ≡ Ended.WriteFault) }
    ensures stops { IfErr result (λ ended. StopsAt (name_told size flags) (O.log to.old) (O.log to.new)) }
{
    give(to, &export_of(size).encode())?;
    if flags & NO_FILLING == 0 {
        give(to, &[0; FILLING])?;
    }
    Ok(())
}

/// Names the one export, whose name has no byte.
fn tell_list<O: Sink>(to: &mut O) -> Result<(), Ended>
    ensures gave { OnOk result (Gives list_told (O.log to.old) (O.log to.new)) }
    ensures fault { IfErr result (λ ended. ended ≡ Ended.WriteFault) }
    ensures stops { IfErr result (λ ended. StopsAt list_told (O.log to.old) (O.log to.new)) }
{
    answer(to, OptionKind::ListExports, Answer::Named, &[0; 4])?;
    answer(to, OptionKind::ListExports, Answer::Acknowledged, &[])
}

/// Answers `ListExports`.
fn answer_list<O: Sink>(to: &mut O, bytes: &[u8]) -> Result<(), Ended>
    ensures answered { OnOk result (Answered (bytes.now ≡ []) OptionKind.ListExports list_told Next.Another Next.Another (O.log to.old) (O.log to.new)) }
    ensures fault { IfErr result (λ ended. ended ≡ Ended.WriteFault) }
    ensures fails { IfErr result (λ ended. AnswerFails (bytes.now ≡ []) OptionKind.ListExports list_told (O.log to.old) (O.log to.new)) }
{
    if bytes.is_empty() {
        tell_list(to)
    } else {
        answer(to, OptionKind::ListExports, Answer::Invalid, &[])
    }
}

/// Answers an option.
fn answer_option<O: Sink>(
    to: &mut O,
    kind: OptionKind,
    size: u64,
    flags: u32,
    bytes: &[u8],
) -> Result<Next, Ended>
    ensures answered { IfOk result (λ next. Answered (MayHave kind bytes.now) kind (told_to size flags kind) (follows kind) next (O.log to.old) (O.log to.new)) }
    ensures fault { IfErr result (λ ended. ended ≡ Ended.WriteFault) }
    ensures fails { IfErr result (λ ended. AnswerFails (MayHave kind bytes.now) kind (told_to size flags kind) (O.log to.old) (O.log to.new)) }
{
    match kind {
        OptionKind::ExportName => {
            answer_name(to, size, flags)?;
            Ok(Next::Requests)
        }
        OptionKind::Abort => {
            answer(to, kind, Answer::Acknowledged, &[])?;
            Ok(Next::Leave)
        }
        OptionKind::ListExports => {
            answer_list(to, bytes)?;
            Ok(Next::Another)
        }
        OptionKind::Info => answer_choice(to, kind, size, bytes, Next::Another),
        OptionKind::Go => answer_choice(to, kind, size, bytes, Next::Requests),
        OptionKind::Other(_) => {
            answer(to, kind, Answer::Unsupported, &[])?;
            Ok(Next::Another)
        }
    }
}

/// Takes the head of an option.
fn take_head<I: Source>(from: &mut I) -> Result<OptionHead, Ended>
    ensures taken { IfOk result (λ head. Takes (I.log from.old) (I.log from.new) (option_bytes head)) }
    ensures spelled { IfOk result IsOption }
    ensures none { IfErr result (λ ended. NoHead ended (I.log from.old) (I.log from.new)) }
{
    let mut bytes = [0; 16];
    take_all(from, &mut bytes)?;
    match OptionHead::parse(&bytes) {
        Some(head) => Ok(head),
        None => Err(Ended::NotProtocol),
    }
}

/// Takes the bytes behind the head of an option.
fn take_bytes<I: Source>(from: &mut I, room: &mut [u8], count: usize) -> Result<(), Ended>
    requires { count ≤ length room.old }
    ensures taken { OnOk result (Takes (I.log from.old) (I.log from.new) (take count room.new)) }
    ensures stopped { IfErr result (λ ended. HasStopped ended (I.log from.new)) }
{
    take_all(from, &mut room[..count])
}

/// Takes an option and answers it.
fn take_option<I: Source, O: Sink>(
    from: &mut I,
    to: &mut O,
    room: &mut [u8],
    size: u64,
    flags: u32,
) -> Result<Next, Ended>
    requires { length room.old ≡ 1048592 }
    ensures answered { IfOk result (λ next. AnswersOption size flags next (I.log from.old) (I.log from.new) (O.log to.old) (O.log to.new)) }
    ensures ends { IfErr result (λ ended. NoAnswer size flags ended (I.log from.old) (I.log from.new) (O.log to.old) (O.log to.new)) }
{
    let head = take_head(from)?;
    let count = head.length as usize;
    if count > room.len() {
        skip(from, room, head.length)?;
        return refuse(to, head.kind);
    }
    take_bytes(from, room, count)?;
    answer_option(to, head.kind, size, flags, &room[..count])
}

/// Takes the flags of a client.
fn take_flags<I: Source>(from: &mut I) -> Result<u32, Ended>
    ensures taken { IfOk result (λ flags. TakesFlags flags (I.log from.old) (I.log from.new)) }
    ensures known { IfOk result (λ flags. flags ≤ 3) }
    ensures none { IfErr result (λ ended. NoFlags ended (I.log from.old) (I.log from.new)) }
{
    let mut bytes = [0; 4];
    take_all(from, &mut bytes)?;
    let flags = u32::from_be_bytes(bytes);
    if flags > 3 {
        return Err(Ended::NotProtocol);
    }
    Ok(flags)
}

/// Answers options until the requests of the client follow.
fn answer_options<I: Source, O: Sink>(
    from: &mut I,
    to: &mut O,
    room: &mut [u8],
    size: u64,
    flags: u32,
) -> Result<(), Ended>
    requires { length room.old ≡ 1048592 }
    ensures agrees { OnOk result (AgreesOn size flags (I.log from.old) (I.log from.new) (O.log to.old) (O.log to.new)) }
    ensures ends { IfErr result (λ ended. EndsOn size flags ended (I.log from.old) (I.log from.new) (O.log to.old) (O.log to.new)) }
{
    let mut answered = 0;
    while answered < u64::MAX {
        match take_option(from, to, room, size, flags)? {
            Next::Another => answered += 1,
            Next::Requests => return Ok(()),
            Next::Leave => return Err(Ended::Left),
        }
    }
    Err(Ended::NotProtocol)
}

/// Greets a client and answers its options. After Ok its requests follow.
pub(crate) fn greet<I: Source, O: Sink>(
    from: &mut I,
    to: &mut O,
    room: &mut [u8],
    size: u64,
) -> Result<(), Ended>
    requires { length room.old ≡ 1048592 }
    ensures agrees { OnOk result (Agrees size (I.log from.old) (I.log from.new) (O.log to.old) (O.log to.new)) }
    ensures ends { IfErr result (λ ended. EndsHandshake size ended (I.log from.old) (I.log from.new) (O.log to.old) (O.log to.new)) }
{
    give(to, &greeting())?;
    let flags = take_flags(from)?;
    answer_options(from, to, room, size, flags)
}
