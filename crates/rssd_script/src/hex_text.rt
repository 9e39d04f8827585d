//! Bytes as hexadecimal digits in lower case, the higher digit of each byte first.

ghost use Rattle.std.specs.Prelude.{◌≡◌, ℕ, ◌*◌, ◌^◌, ◌<◌, true, List, length, IfSome, IfNone, IfOk, MatchBool};
ghost use Rattle.std.specs.List.{list_all};
ghost use Rattle.std.specs.Int.{w64, to_be_bytes};
ghost use Rattle.rssd_script.specs.Text.{hex_digit, hex_of, is_lower_digit, AreBytes};
ghost use Rattle.rssd_script.specs.Reading.{ReadsHex};

use crate::grammar::is_word;
use crate::{OutOfMemory, SectorBytes};
use std::alloc::Global;

/// Whether the byte is a digit of HEX.
fn is_digit(byte: u8) -> bool
    ensures { result ≡ is_lower_digit byte }
{
    matches!(byte, b'0'..=b'9' | b'a'..=b'f')
}

/// Whether each byte is a digit of HEX. It goes over all bytes with no exit on the way.
fn is_lower(text: &[u8]) -> bool
    ensures { result ≡ list_all is_lower_digit text.now }
{
    let mut all = true;
    for byte in text {
        all &= is_digit(*byte);
    }
    all
}

/// What a digit of HEX stands for.
fn value_of(digit: u8) -> u8
    requires { is_lower_digit digit ≡ true }
    ensures small { result < 16 }
    ensures value { hex_digit result ≡ digit }
{
    digit % 16 + 9 * (digit / 64)
}

/// Writes the bytes that the digits stand for.
fn write_bytes(digits: &[u8], bytes: &mut [u8])
    requires pairs { length digits.now ≡ 2 * length bytes.old }
    requires digits { list_all is_lower_digit digits.now ≡ true }
    ensures bytes { AreBytes bytes.new }
    ensures digits { digits.now ≡ hex_of bytes.new }
{
    for i in 0..bytes.len() {
        bytes[i] = value_of(digits[2 * i]) * 16 + value_of(digits[2 * i + 1]);
    }
}

/// The digit of a number.
fn digit_of(number: u8) -> u8
    requires { number < 16 }
    ensures { result ≡ hex_digit number }
{
    if number < 10 {
        48 + number
    } else {
        87 + number
    }
}

/// Writes the digits of the bytes. It looks nothing up, so that many bytes go at once.
pub fn write_digits(bytes: &[u8], digits: &mut [u8])
    requires { length digits.old ≡ 2 * length bytes.now }
    ensures { digits.new ≡ hex_of bytes.now }
{
    for i in 0..bytes.len() {
        digits[2 * i] = digit_of(bytes[i] / 16);
        digits[2 * i + 1] = digit_of(bytes[i] % 16);
    }
}

/// Whether the text is the digits of bytes, which are then written to `bytes`.
pub fn read_hex(text: &[u8], bytes: &mut [u8]) -> bool
    requires { length text.now ≡ 2 * length bytes.old }
    ensures { MatchBool result ((text.now ≡ hex_of bytes.new) × AreBytes bytes.new) ((b : List ℕ) → AreBytes b → text.now ≡ hex_of b → ⊥) }
{
    if !is_lower(text) {
        return false;
    }
    write_bytes(text, bytes);
    true
}

/// HEX, at most 512 bytes.
pub fn bytes_of(alloc: Global, text: &[u8]) -> Result<Option<SectorBytes>, OutOfMemory>
    ensures { IfOk result (ReadsHex text.now) }
{
    if is_word(text, b"-") {
        return Ok(Some(SectorBytes::from_vec(Vec::new(alloc))));
    }
    if text.is_empty() || text.len() > 1024 {
        return Ok(None);
    }
    if text.len() % 2 != 0 {
        return Ok(None);
    }
    let mut bytes = vec![in alloc; 0u8; text.len() / 2]?;
    if !read_hex(text, bytes.as_mut_slice()) {
        return Ok(None);
    }
    Ok(Some(SectorBytes::from_vec(bytes)))
}

/// Sixteen hexadecimal digits, the highest first.
pub fn mask_of(text: &[u8]) -> Option<u64>
    ensures found { IfSome result (λ m. (m < 2 ^ 64) × (text.now ≡ hex_of (to_be_bytes w64 m))) }
    ensures none { IfNone result ((m : ℕ) → m < 2 ^ 64 → text.now ≡ hex_of (to_be_bytes w64 m) → ⊥) }
{
    if text.len() != 16 {
        return None;
    }
    let mut bytes = [0u8; 8];
    if !read_hex(text, &mut bytes) {
        return None;
    }
    Some(u64::from_be_bytes(bytes))
}
