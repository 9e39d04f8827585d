//! The head of a reply, of 16 bytes. What a read answers stands behind it.
ghost use Rattle.std.specs.Prelude.{◌≡◌, ◌^◌, ◌<◌, IfSome, Some};
ghost use Rattle.nbd_wire.specs.declared.reply.ReplyHead.{ReplyHead as Told};
ghost use Rattle.nbd_wire.specs.Replies.{errno_number, errno_of, reply_bytes, reply_in};

use crate::numbers::{long_at, word_at};
use byteorder::{BigEndian, ByteOrder};

/// How a request ended.
#[derive(Clone, Copy, Debug, PartialEq, Eq)]
pub enum Errno {
    Done,
    /// The device failed.
    InputOutput,
    /// The request is outside its rules.
    Invalid,
    /// The request ends past the end.
    NoSpace,
}

impl Errno {
    /// The number that stands in a reply.
    #[tactic(auto, unfolding(crate::specs::Replies::errno_number))]
    pub fn number(self) -> u32
        ensures { result ≡ errno_number self }
    {
        match self {
            Errno::Done => 0,
            Errno::InputOutput => 5,
            Errno::Invalid => 22,
            Errno::NoSpace => 28,
        }
    }

    /// The error of this number.
    #[tactic(auto, unfolding(crate::specs::Replies::errno_of, crate::specs::Replies::errno_number))]
    pub fn of_number(number: u32) -> Option<Errno>
        ensures { result ≡ errno_of number }
    {
        match number {
            0 => Some(Errno::Done),
            5 => Some(Errno::InputOutput),
            22 => Some(Errno::Invalid),
            28 => Some(Errno::NoSpace),
            _ => None,
        }
    }
}

/// The head of a reply.
#[derive(Clone, Copy, Debug, PartialEq, Eq)]
pub struct ReplyHead {
    pub error: Errno,
    /// That of the request.
    pub handle: u64,
}

const MAGIC: u32 = 0x6744_6698;

impl ReplyHead {
    /// The bytes of the head.
    #[tactic(auto, unfolding(crate::specs::Replies::reply_bytes, crate::specs::Numbers::word, crate::specs::Numbers::long))]
    pub fn encode(&self) -> [u8; 16]
        ensures { result ≡ reply_bytes self.now }
    {
        let mut bytes = [0; 16];
        BigEndian::write_u32(&mut bytes, MAGIC);
        BigEndian::write_u32(&mut bytes[4..], self.error.number());
        BigEndian::write_u64(&mut bytes[8..], self.handle);
        bytes
    }

    /// The head whose numbers stand there.
    #[tactic(auto, unfolding(crate::specs::Replies::reply_in))]
    fn read(bytes: &[u8; 16]) -> Option<ReplyHead>
        ensures { result ≡ reply_in bytes.now }
    {
        match Errno::of_number(word_at(4, bytes)) {
            Some(error) => Some(ReplyHead {
                error,
                handle: long_at(8, bytes),
            }),
            None => None,
        }
    }

    /// The head that has these bytes.
    pub fn parse(bytes: &[u8; 16]) -> Option<ReplyHead>
        ensures found { IfSome result (λ reply. bytes.now ≡ reply_bytes reply) }
        ensures only { (reply : Told) → reply.handle < 2 ^ 64 → bytes.now ≡ reply_bytes reply → result ≡ Some reply }
    {
        let reply = ReplyHead::read(bytes)?;
        if reply.encode() == *bytes {
            Some(reply)
        } else {
            None
        }
    }
}
