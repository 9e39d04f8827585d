//! The head of a request, of 28 bytes. The data of a write stands behind it.
ghost use Rattle.std.specs.Prelude.{◌≡◌, ◌^◌, ◌<◌, IfSome, Some};
ghost use Rattle.nbd_wire.specs.declared.request.Request.{Request as Asked};
ghost use Rattle.nbd_wire.specs.Commands.{command_number, IsCommand};
ghost use Rattle.nbd_wire.specs.Requests.{request_bytes, request_in, IsRequest};

use crate::Command;
use crate::numbers::{half_at, long_at, word_at};
use byteorder::{BigEndian, ByteOrder};

/// The head of a request.
#[derive(Clone, Copy, Debug, PartialEq, Eq)]
pub struct Request {
    pub flags: u16,
    pub command: Command,
    /// What the reply repeats.
    pub handle: u64,
    pub offset: u64,
    pub length: u32,
}

const MAGIC: u32 = 0x2560_9513;

impl Request {
    /// The bytes of the head.
    #[tactic(auto, unfolding(crate::specs::Requests::request_bytes, crate::specs::Numbers::half, crate::specs::Numbers::word, crate::specs::Numbers::long))]
    pub fn encode(&self) -> [u8; 28]
        ensures { result ≡ request_bytes self.now }
    {
        let mut bytes = [0; 28];
        BigEndian::write_u32(&mut bytes, MAGIC);
        BigEndian::write_u16(&mut bytes[4..], self.flags);
        BigEndian::write_u16(&mut bytes[6..], self.command.number());
        BigEndian::write_u64(&mut bytes[8..], self.handle);
        BigEndian::write_u64(&mut bytes[16..], self.offset);
        BigEndian::write_u32(&mut bytes[24..], self.length);
        bytes
    }

    /// The head whose numbers stand there.
    #[tactic(auto, unfolding(crate::specs::Requests::request_in))]
    fn read(bytes: &[u8; 28]) -> Request
        ensures read { result ≡ request_in bytes.now }
        ensures command { IsCommand result.command }
        ensures number { command_number result.command < 2 ^ 16 }
    {
        Request {
            flags: half_at(4, bytes),
            command: Command::of_number(half_at(6, bytes)),
            handle: long_at(8, bytes),
            offset: long_at(16, bytes),
            length: word_at(24, bytes),
        }
    }

    /// The head that has these bytes.
    pub fn parse(bytes: &[u8; 28]) -> Option<Request>
        ensures found { IfSome result (λ request. IsRequest request × (bytes.now ≡ request_bytes request)) }
        ensures only { (request : Asked) → IsRequest request → bytes.now ≡ request_bytes request → result ≡ Some request }
    {
        let request = Request::read(bytes);
        if request.encode() == *bytes {
            Some(request)
        } else {
            None
        }
    }
}
