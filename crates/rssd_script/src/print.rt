//! Each line and each reply has one text, made in room on the stack and ended by a line feed.

ghost use Rattle.std.specs.Prelude.{◌≡◌, ℕ, ◌+◌, ◌*◌, ◌<◌, ◌≤◌, [], ◌∷◌, ◌++◌, length, IfOk, decimal};
ghost use Rattle.rssd_script.specs.Text.{hex_of, hex_or_dash};
ghost use Rattle.rssd_script.specs.Script.{IsWithinGrammar, line_text, torn_text};
ghost use Rattle.rssd_script.specs.Replies.{reply_text, reply_line, tagged_line};

use crate::hex_text::write_digits;
use crate::{Line, OutOfMemory, Reply, ReplyText, TornWord};
use arrayvec::ArrayVec;
use itoa::Buffer;
use std::alloc::Global;

/// Room for one text.
pub(crate) type TextRoom = ArrayVec<u8, 1100>;

/// Adds bytes at the end.
fn put(text: &mut TextRoom, more: &[u8])
    requires { length text.old.items + length more.now ≤ 1100 }
    ensures items { text.new.items ≡ text.old.items ++ more.now }
    ensures len { length text.new.items ≡ length text.old.items + length more.now }
{
    let _ = text.try_extend_from_slice(more);
}

/// Adds a number.
fn put_number(text: &mut TextRoom, n: u64)
    requires { length text.old.items ≤ 1000 }
    ensures items { text.new.items ≡ text.old.items ++ decimal n }
    ensures len { length text.new.items ≤ length text.old.items + 20 }
{
    let mut buffer = Buffer::new();
    put(text, buffer.format(n).as_bytes());
}

/// Adds the digits of bytes, which are made in this room.
fn put_digits(text: &mut TextRoom, bytes: &[u8], room: &mut [u8])
    requires fits { 2 * length bytes.now ≤ length room.old }
    requires room { length text.old.items + 2 * length bytes.now ≤ 1100 }
    ensures items { text.new.items ≡ text.old.items ++ hex_of bytes.now }
    ensures len { length text.new.items ≡ length text.old.items + 2 * length bytes.now }
{
    let digits = &mut room[..2 * bytes.len()];
    write_digits(bytes, digits);
    put(text, digits);
}

/// Adds the digits of bytes; few of them take little room.
fn put_hex(text: &mut TextRoom, bytes: &[u8])
    requires few { length bytes.now ≤ 512 }
    requires room { length text.old.items + 2 * length bytes.now ≤ 1100 }
    ensures items { text.new.items ≡ text.old.items ++ hex_of bytes.now }
    ensures len { length text.new.items ≡ length text.old.items + 2 * length bytes.now }
{
    if bytes.len() <= 16 {
        put_digits(text, bytes, &mut [0u8; 32]);
    } else {
        put_digits(text, bytes, &mut [0u8; 1024]);
    }
}

/// Adds HEX.
fn put_hex_or_dash(text: &mut TextRoom, bytes: &[u8])
    requires few { length bytes.now ≤ 512 }
    requires room { length text.old.items + 2 * length bytes.now + 1 ≤ 1100 }
    ensures items { text.new.items ≡ text.old.items ++ hex_or_dash bytes.now }
    ensures len { length text.new.items ≤ length text.old.items + 2 * length bytes.now + 1 }
{
    if bytes.is_empty() {
        text.push(b'-');
        return;
    }
    put_hex(text, bytes);
}

/// Adds TORN.
fn put_torn(text: &mut TextRoom, torn: TornWord)
    requires { length text.old.items ≤ 1000 }
    ensures items { text.new.items ≡ text.old.items ++ torn_text torn }
    ensures len { length text.new.items ≤ length text.old.items + 21 }
{
    match torn {
        TornWord::Nothing => put(text, b"none"),
        TornWord::All => put(text, b"all"),
        TornWord::Mask(mask) => {
            put(text, b"mask:");
            put_hex(text, &mask.to_be_bytes());
        }
    }
}

/// Adds a word and a number to a text that is empty.
fn put_numbered(text: &mut TextRoom, word: &[u8], n: u32)
    requires empty { text.old.items ≡ [] }
    requires word { length word.now ≤ 20 }
    ensures items { text.new.items ≡ word.now ++ decimal n }
    ensures len { length text.new.items ≤ 40 }
{
    put(text, word);
    put_number(text, u64::from(n));
}

/// Writes a line's text without its line feed into empty room.
fn put_line(text: &mut TextRoom, line: &Line)
    requires line { IsWithinGrammar line.now }
    requires empty { text.old.items ≡ [] }
    ensures items { text.new.items ≡ line_text line.now }
    ensures len { length text.new.items ≤ 1080 }
{
    match line {
        Line::Write { sector, bytes } => {
            put_numbered(text, b"write ", *sector);
            put(text, b" ");
            put_hex_or_dash(text, bytes.as_slice());
        }
        Line::Read { sector } => put_numbered(text, b"read ", *sector),
        Line::Trim { sector } => put_numbered(text, b"trim ", *sector),
        Line::Idle { n } => put_numbered(text, b"idle ", *n),
        Line::Cut { n, torn } => {
            put_numbered(text, b"cut ", *n);
            put(text, b" ");
            put_torn(text, *torn);
        }
        Line::FailRead { n } => put_numbered(text, b"failread ", *n),
        Line::Mount => put(text, b"mount"),
        Line::Stat => put(text, b"stat"),
    }
}

/// The one spelling of a line, with its line feed.
pub fn print_line(alloc: Global, line: &Line) -> Result<Vec<u8>, OutOfMemory>
    requires { IsWithinGrammar line.now }
    ensures { IfOk result (λ text. text.items ≡ line_text line.now ++ 10 ∷ []) }
{
    let mut text = ArrayVec::new();
    put_line(&mut text, line);
    put(&mut text, b"\n");
    Vec::from_slice(alloc, text.as_slice())
}

/// Writes the counts of `stat` into empty room.
fn put_counts(text: &mut TextRoom, first: u64, second: u64, declined: u64, moved: u64, erased: u64)
    requires { text.old.items ≡ [] }
    ensures items { text.new.items ≡ reply_text (Reply.Stat first second declined moved erased) }
    ensures len { length text.new.items ≤ 1060 }
{
    put(text, b"first ");
    put_number(text, first);
    put(text, b" second ");
    put_number(text, second);
    put(text, b" declined ");
    put_number(text, declined);
    put(text, b" moved ");
    put_number(text, moved);
    put(text, b" erased ");
    put_number(text, erased);
}

/// Writes a reply's text without its line feed into empty room.
fn put_reply(text: &mut TextRoom, reply: &Reply)
    requires { text.old.items ≡ [] }
    ensures items { text.new.items ≡ reply_text reply.now }
    ensures len { length text.new.items ≤ 1060 }
{
    match reply {
        Reply::First => put(text, b"first"),
        Reply::Second => put(text, b"second"),
        Reply::Declined => put(text, b"declined"),
        Reply::Bytes(bytes) => put_hex_or_dash(text, bytes.as_slice()),
        Reply::Done => put(text, b"ok"),
        Reply::Moves(n) => put_numbered(text, b"", *n),
        Reply::Stat {
            first,
            second,
            declined,
            moved,
            erased,
        } => put_counts(text, *first, *second, *declined, *moved, *erased),
        Reply::Range => put(text, b"range"),
        Reply::Long => put(text, b"long"),
        Reply::Off => put(text, b"off"),
        Reply::Fault => put(text, b"fault"),
        Reply::Spent => put(text, b"spent"),
        Reply::NoSpare => put(text, b"no spare"),
        Reply::NoMemory => put(text, b"no memory"),
    }
}

/// Puts a reply's text with its line feed in the place of what stands here.
pub(crate) fn put_reply_line(text: &mut TextRoom, reply: &Reply)
    ensures { text.new.items ≡ reply_line reply.now }
{
    text.clear();
    put_reply(text, reply);
    put(text, b"\n");
}

/// A reply's text, with its line feed.
pub fn print_reply(reply: &Reply) -> ReplyText
    ensures { result ≡ reply_line reply.now }
{
    let mut text = ReplyText::new();
    text.set(reply);
    text
}

/// A reply's text behind a tag and a space, with its line feed.
pub fn print_tagged(tag: u32, reply: &Reply) -> ReplyText
    ensures { result ≡ tagged_line tag reply.now }
{
    let mut room = ArrayVec::new();
    put_reply(&mut room, reply);
    let mut text = ArrayVec::new();
    put_number(&mut text, u64::from(tag));
    put(&mut text, b" ");
    put(&mut text, &room);
    put(&mut text, b"\n");
    ReplyText::from_bytes(text)
}

/// The line of a sector that is told: its number, a space and its bytes.
pub fn print_sector(sector: u32, bytes: &[u8]) -> ReplyText
    requires { length bytes.now ≤ 512 }
    ensures { result ≡ decimal sector ++ 32 ∷ hex_or_dash bytes.now ++ 10 ∷ [] }
{
    let mut text = ArrayVec::new();
    put_number(&mut text, u64::from(sector));
    put(&mut text, b" ");
    put_hex_or_dash(&mut text, bytes);
    put(&mut text, b"\n");
    ReplyText::from_bytes(text)
}
