//! The options of a client before the requests: a head of 16 bytes, and data of the length that it says.
ghost use Rattle.std.specs.Prelude.{◌≡◌, ◌↔◌, ◌^◌, ◌<◌, IsTrue, IfSome, Some};
ghost use Rattle.nbd_wire.specs.declared.option.OptionHead.{OptionHead as Asked};
ghost use Rattle.nbd_wire.specs.Options.{kind_number, kind_of, IsKind, option_bytes, option_in, IsOption, IsChoice};

use crate::numbers::{half_at, word_at};
use byteorder::{BigEndian, ByteOrder};

/// What an option asks for.
#[derive(Clone, Copy, Debug, PartialEq, Eq)]
pub enum OptionKind {
    /// The requests, with no answer but the export's size and flags.
    ExportName,
    /// To leave.
    Abort,
    /// The names of the exports.
    ListExports,
    /// What there is to know of an export.
    Info,
    /// The same, and then the requests.
    Go,
    Other(u32),
}

impl OptionKind {
    /// The number that stands in an option.
    #[tactic(auto, unfolding(crate::specs::Options::kind_number))]
    pub fn number(self) -> u32
        ensures { result ≡ kind_number self }
    {
        match self {
            OptionKind::ExportName => 1,
            OptionKind::Abort => 2,
            OptionKind::ListExports => 3,
            OptionKind::Info => 6,
            OptionKind::Go => 7,
            OptionKind::Other(number) => number,
        }
    }

    /// The kind of this number.
    #[tactic(auto, unfolding(crate::specs::Options::kind_of, crate::specs::Options::kind_number))]
    pub fn of_number(number: u32) -> OptionKind
        ensures named { result ≡ kind_of number }
        ensures spelled { IsKind result }
        ensures back { kind_number result ≡ number }
    {
        match number {
            1 => OptionKind::ExportName,
            2 => OptionKind::Abort,
            3 => OptionKind::ListExports,
            6 => OptionKind::Info,
            7 => OptionKind::Go,
            _ => OptionKind::Other(number),
        }
    }
}

/// The head of an option.
#[derive(Clone, Copy, Debug, PartialEq, Eq)]
pub struct OptionHead {
    pub kind: OptionKind,
    /// The bytes of its data.
    pub length: u32,
}

const MAGIC: u64 = 0x4948_4156_454F_5054;

impl OptionHead {
    /// The bytes of the head.
    #[tactic(auto, unfolding(crate::specs::Options::option_bytes, crate::specs::Numbers::word, crate::specs::Numbers::long))]
    pub fn encode(&self) -> [u8; 16]
        ensures { result ≡ option_bytes self.now }
    {
        let mut bytes = [0; 16];
        BigEndian::write_u64(&mut bytes, MAGIC);
        BigEndian::write_u32(&mut bytes[8..], self.kind.number());
        BigEndian::write_u32(&mut bytes[12..], self.length);
        bytes
    }

    /// The head whose numbers stand there.
    #[tactic(auto, unfolding(crate::specs::Options::option_in))]
    fn read(bytes: &[u8; 16]) -> OptionHead
        ensures read { result ≡ option_in bytes.now }
        ensures kind { IsKind result.kind }
        ensures number { kind_number result.kind < 2 ^ 32 }
    {
        OptionHead {
            kind: OptionKind::of_number(word_at(8, bytes)),
            length: word_at(12, bytes),
        }
    }

    /// The head that has these bytes.
    pub fn parse(bytes: &[u8; 16]) -> Option<OptionHead>
        ensures found { IfSome result (λ option. IsOption option × (bytes.now ≡ option_bytes option)) }
        ensures only { (option : Asked) → IsOption option → bytes.now ≡ option_bytes option → result ≡ Some option }
    {
        let option = OptionHead::read(bytes);
        if option.encode() == *bytes {
            Some(option)
        } else {
            None
        }
    }
}

/// Whether these are the data of `Info` or `Go`.
pub fn is_choice(bytes: &[u8]) -> bool
    ensures { IsTrue result ↔ IsChoice bytes.now }
{
    if bytes.len() < 6 {
        return false;
    }
    let name = word_at(0, bytes) as usize;
    if bytes.len() - 6 < name {
        return false;
    }
    let asked = half_at(4 + name, bytes) as usize;
    bytes.len() - 6 - name == 2 * asked
}
