//! What a server says before the requests: its greeting, and the answers to options, each a head of 20 bytes and data of the length
//! that it says.
ghost use Rattle.std.specs.Prelude.{◌≡◌, ◌^◌, ◌<◌, IfSome, Some};
ghost use Rattle.nbd_wire.specs.declared.answer.AnswerHead.{AnswerHead as Told};
ghost use Rattle.nbd_wire.specs.Options.{kind_number, IsKind};
ghost use Rattle.nbd_wire.specs.Answers.{answer_number, answer_of, answer_bytes, answer_in, greeting_bytes, IsAnswer, export_bytes, size_bytes, lengths_bytes};

use crate::OptionKind;
use crate::numbers::word_at;
use byteorder::{BigEndian, ByteOrder};

/// The greeting, which a client reads first.
#[tactic(auto, unfolding(crate::specs::Answers::greeting_bytes, crate::specs::Numbers::half))]
pub fn greeting() -> [u8; 18]
    ensures { result ≡ greeting_bytes }
{
    *b"NBDMAGICIHAVEOPT\x00\x03"
}

/// How an option is answered.
#[derive(Clone, Copy, Debug, PartialEq, Eq)]
pub enum Answer {
    Acknowledged,
    /// An export's name.
    Named,
    /// Something of an export.
    Told,
    /// The server has no such option.
    Unsupported,
    /// The option's data are outside its rules.
    Invalid,
}

impl Answer {
    /// The number that stands in an answer.
    #[tactic(auto, unfolding(crate::specs::Answers::answer_number))]
    pub fn number(self) -> u32
        ensures { result ≡ answer_number self }
    {
        match self {
            Answer::Acknowledged => 1,
            Answer::Named => 2,
            Answer::Told => 3,
            Answer::Unsupported => 0x8000_0001,
            Answer::Invalid => 0x8000_0003,
        }
    }

    /// The answer of this number.
    #[tactic(auto, unfolding(crate::specs::Answers::answer_of, crate::specs::Answers::answer_number))]
    pub fn of_number(number: u32) -> Option<Answer>
        ensures { result ≡ answer_of number }
    {
        match number {
            1 => Some(Answer::Acknowledged),
            2 => Some(Answer::Named),
            3 => Some(Answer::Told),
            0x8000_0001 => Some(Answer::Unsupported),
            0x8000_0003 => Some(Answer::Invalid),
            _ => None,
        }
    }
}

/// The head of an answer.
#[derive(Clone, Copy, Debug, PartialEq, Eq)]
pub struct AnswerHead {
    /// That of the option.
    pub kind: OptionKind,
    pub answer: Answer,
    /// The bytes of its data.
    pub length: u32,
}

const MAGIC: u64 = 0x0003_E889_0455_65A9;

impl AnswerHead {
    /// The bytes of the head.
    #[tactic(auto, unfolding(crate::specs::Answers::answer_bytes, crate::specs::Numbers::word, crate::specs::Numbers::long))]
    pub fn encode(&self) -> [u8; 20]
        ensures { result ≡ answer_bytes self.now }
    {
        let mut bytes = [0; 20];
        BigEndian::write_u64(&mut bytes, MAGIC);
        BigEndian::write_u32(&mut bytes[8..], self.kind.number());
        BigEndian::write_u32(&mut bytes[12..], self.answer.number());
        BigEndian::write_u32(&mut bytes[16..], self.length);
        bytes
    }

    /// The head whose numbers stand there.
    #[tactic(auto, unfolding(crate::specs::Answers::answer_in))]
    fn read(bytes: &[u8; 20]) -> Option<AnswerHead>
        ensures read { result ≡ answer_in bytes.now }
        ensures kind { IfSome result (λ answer. IsKind answer.kind) }
        ensures number { IfSome result (λ answer. kind_number answer.kind < 2 ^ 32) }
    {
        match Answer::of_number(word_at(12, bytes)) {
            Some(answer) => Some(AnswerHead {
                kind: OptionKind::of_number(word_at(8, bytes)),
                answer,
                length: word_at(16, bytes),
            }),
            None => None,
        }
    }

    /// The head that has these bytes.
    pub fn parse(bytes: &[u8; 20]) -> Option<AnswerHead>
        ensures found { IfSome result (λ answer. IsAnswer answer × (bytes.now ≡ answer_bytes answer)) }
        ensures only { (answer : Told) → IsAnswer answer → bytes.now ≡ answer_bytes answer → result ≡ Some answer }
    {
        let answer = AnswerHead::read(bytes)?;
        if answer.encode() == *bytes {
            Some(answer)
        } else {
            None
        }
    }
}

/// What a client is told of the export: its size in bytes, and the least, the best and the greatest length of a request.
#[derive(Clone, Copy, Debug, PartialEq, Eq)]
pub struct Export {
    pub size: u64,
    pub least: u32,
    pub best: u32,
    pub most: u32,
}

/// Flags are told, and FLUSH, FUA, TRIM and WRITE_ZEROES are served.
const FLAGS: u16 = 0x006D;

impl Export {
    /// The end of the answer to `ExportName`.
    #[tactic(auto, unfolding(crate::specs::Answers::export_bytes, crate::specs::Numbers::half, crate::specs::Numbers::long))]
    pub fn encode(&self) -> [u8; 10]
        ensures { result ≡ export_bytes self.now }
    {
        let mut bytes = [0; 10];
        BigEndian::write_u64(&mut bytes, self.size);
        BigEndian::write_u16(&mut bytes[8..], FLAGS);
        bytes
    }

    /// What is told of its size.
    #[tactic(auto, unfolding(crate::specs::Answers::size_bytes, crate::specs::Numbers::half, crate::specs::Numbers::long))]
    pub fn encode_size(&self) -> [u8; 12]
        ensures { result ≡ size_bytes self.now }
    {
        let mut bytes = [0; 12];
        BigEndian::write_u64(&mut bytes[2..], self.size);
        BigEndian::write_u16(&mut bytes[10..], FLAGS);
        bytes
    }

    /// What is told of the lengths of requests.
    #[tactic(auto, unfolding(crate::specs::Answers::lengths_bytes, crate::specs::Numbers::half, crate::specs::Numbers::word))]
    pub fn encode_lengths(&self) -> [u8; 14]
        ensures { result ≡ lengths_bytes self.now }
    {
        let mut bytes = [0; 14];
        BigEndian::write_u16(&mut bytes, 3);
        BigEndian::write_u32(&mut bytes[2..], self.least);
        BigEndian::write_u32(&mut bytes[6..], self.best);
        BigEndian::write_u32(&mut bytes[10..], self.most);
        bytes
    }
}
