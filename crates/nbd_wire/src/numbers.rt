//! Numbers at a place of bytes, the highest byte first.
ghost use Rattle.std.specs.Prelude.{◌≡◌, ◌+◌, ◌≤◌, length};
ghost use Rattle.nbd_wire.specs.Numbers.{half_at, word_at, long_at};

use byteorder::{BigEndian, ByteOrder};

/// The number of two bytes.
#[tactic(auto, unfolding(crate::specs::Numbers::half_at))]
pub(crate) fn half_at(place: usize, bytes: &[u8]) -> u16
    requires { place + 2 ≤ length bytes.now }
    ensures { result ≡ half_at place bytes.now }
{
    BigEndian::read_u16(&bytes[place..])
}

/// The number of four bytes.
#[tactic(auto, unfolding(crate::specs::Numbers::word_at))]
pub(crate) fn word_at(place: usize, bytes: &[u8]) -> u32
    requires { place + 4 ≤ length bytes.now }
    ensures { result ≡ word_at place bytes.now }
{
    BigEndian::read_u32(&bytes[place..])
}

/// The number of eight bytes.
#[tactic(auto, unfolding(crate::specs::Numbers::long_at))]
pub(crate) fn long_at(place: usize, bytes: &[u8]) -> u64
    requires { place + 8 ≤ length bytes.now }
    ensures { result ≡ long_at place bytes.now }
{
    BigEndian::read_u64(&bytes[place..])
}
