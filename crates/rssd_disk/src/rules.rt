//! The rules of a request: what is outside them is answered with an error, and the device is not asked.
ghost use Rattle.std.specs.Prelude.{◌≡◌, ◌+◌, ◌≤◌, IfNone};
ghost use Rattle.rssd_disk.specs.Rules.{most_flags, range_refusal, refusal, HasRange, data_length};

use nbd_wire::{Command, Errno, Request};

/// The most bytes that a read or a write may have.
pub const LONGEST: u32 = 1_048_576;

/// The greatest flags of a command: each may ask that its data are kept before the reply, and zeroes may be asked for without a
/// hole.
fn most_flags(command: Command) -> u16
    ensures { result ≡ most_flags command }
{
    match command {
        Command::WriteZeroes => 3,
        _ => 1,
    }
}

/// Why a range is refused: it has no byte or too many, or ends past the end.
fn range_refusal(request: &Request, size: u64, most: u32, past: Errno) -> Option<Errno>
    ensures why { result ≡ range_refusal size most past request.now }
    ensures within { IfNone result (request.now.offset + request.now.length ≤ size) }
    ensures few { IfNone result (request.now.length ≤ most) }
{
    let length = u64::from(request.length);
    if request.length == 0 || request.length > most {
        return Some(Errno::Invalid);
    }
    if length > size || request.offset > size - length {
        return Some(past);
    }
    None
}

/// Why a request is refused by a disk of so many bytes.
pub fn refusal(request: &Request, size: u64) -> Option<Errno>
    ensures why { result ≡ refusal size request.now }
    ensures within { IfNone result (HasRange size request.now request.now.command) }
{
    if request.flags > most_flags(request.command) {
        return Some(Errno::Invalid);
    }
    match request.command {
        Command::Flush => None,
        Command::Read => range_refusal(request, size, LONGEST, Errno::Invalid),
        Command::Write => range_refusal(request, size, LONGEST, Errno::NoSpace),
        Command::Trim => range_refusal(request, size, u32::MAX, Errno::Invalid),
        Command::WriteZeroes => range_refusal(request, size, u32::MAX, Errno::NoSpace),
        Command::Disconnect | Command::Cache | Command::Other(_) => Some(Errno::Invalid),
    }
}

/// How many bytes of data a request has room for: those that a write brings, or those that a read answers.
pub fn data_length(request: &Request) -> usize
    ensures length { result ≡ data_length request.now }
    ensures few { result ≤ 1048576 }
{
    match request.command {
        Command::Read | Command::Write => {
            if request.length <= LONGEST {
                request.length as usize
            } else {
                0
            }
        }
        _ => 0,
    }
}
