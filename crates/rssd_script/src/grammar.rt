//! The bytes of one line, without its line feed, are read as a line: its word first, then its parts, which one space parts.

ghost use Rattle.std.specs.Prelude.{◌≡◌, List, ℕ, ◌∷◌, ◌++◌, IfSome, IfNone, IfOk, IsTrue, ◌↔◌, codes};
ghost use Rattle.rssd_script.specs.Reading.{Lacks, ReadsAs, ReadsTorn};

use crate::hex_text::{bytes_of, mask_of};
use crate::numbers::{arm_count_of, number_of};
use crate::{Line, OutOfMemory, TornWord};
use std::alloc::Global;

/// What follows `word` at the front of the text.
pub fn after<'a>(text: &'a [u8], word: &[u8]) -> Option<&'a [u8]>
    ensures found { IfSome result (λ rest. text.now ≡ word.now ++ rest.now) }
    ensures none { IfNone result ((rest : List ℕ) → text.now ≡ word.now ++ rest → ⊥) }
{
    text.strip_prefix(word)
}

/// What stands before and after the first place of a byte.
pub fn split_at_byte(text: &[u8], byte: u8) -> Option<(&[u8], &[u8])>
    ensures found { IfSome result (λ parts. (text.now ≡ parts.0.now ++ byte ∷ parts.1.now) × Lacks byte parts.0.now) }
    ensures none { IfNone result (Lacks byte text.now) }
{
    for (i, x) in text.iter().enumerate() {
        if *x == byte {
            return Some((&text[..i], &text[i + 1..]));
        }
    }
    None
}

/// Whether the text is the word.
pub fn is_word(text: &[u8], word: &[u8]) -> bool
    ensures { IsTrue result ↔ (text.now ≡ word.now) }
{
    *text == *word
}

/// TORN.
pub fn torn_of(text: &[u8]) -> Option<TornWord>
    ensures { ReadsTorn text.now result }
{
    if is_word(text, b"none") {
        return Some(TornWord::Nothing);
    }
    if is_word(text, b"all") {
        return Some(TornWord::All);
    }
    Some(TornWord::Mask(mask_of(after(text, b"mask:")?)?))
}

/// What follows `write `.
pub fn write_line(alloc: Global, rest: &[u8]) -> Result<Option<Line>, OutOfMemory>
    ensures { IfOk result (ReadsAs (codes "write " ++ rest.now)) }
{
    let Some((number, digits)) = split_at_byte(rest, b' ') else {
        return Ok(None);
    };
    let Some(sector) = number_of(number) else {
        return Ok(None);
    };
    let Some(bytes) = bytes_of(alloc, digits)? else {
        return Ok(None);
    };
    Ok(Some(Line::Write { sector, bytes }))
}

/// What follows `read `.
pub fn read_line(rest: &[u8]) -> Option<Line>
    ensures { ReadsAs (codes "read " ++ rest.now) result }
{
    Some(Line::Read {
        sector: number_of(rest)?,
    })
}

/// What follows `trim `.
pub fn trim_line(rest: &[u8]) -> Option<Line>
    ensures { ReadsAs (codes "trim " ++ rest.now) result }
{
    Some(Line::Trim {
        sector: number_of(rest)?,
    })
}

/// What follows `idle `.
pub fn idle_line(rest: &[u8]) -> Option<Line>
    ensures { ReadsAs (codes "idle " ++ rest.now) result }
{
    Some(Line::Idle {
        n: number_of(rest)?,
    })
}

/// What follows `cut `.
pub fn cut_line(rest: &[u8]) -> Option<Line>
    ensures { ReadsAs (codes "cut " ++ rest.now) result }
{
    let (number, word) = split_at_byte(rest, b' ')?;
    let n = arm_count_of(number)?;
    let torn = torn_of(word)?;
    Some(Line::Cut { n, torn })
}

/// What follows `failread `.
pub fn fail_line(rest: &[u8]) -> Option<Line>
    ensures { ReadsAs (codes "failread " ++ rest.now) result }
{
    Some(Line::FailRead {
        n: arm_count_of(rest)?,
    })
}

/// The line that the text spells.
pub fn line_of(alloc: Global, text: &[u8]) -> Result<Option<Line>, OutOfMemory>
    ensures { IfOk result (ReadsAs text.now) }
{
    if let Some(rest) = after(text, b"write ") {
        return write_line(alloc, rest);
    }
    if let Some(rest) = after(text, b"read ") {
        return Ok(read_line(rest));
    }
    if let Some(rest) = after(text, b"trim ") {
        return Ok(trim_line(rest));
    }
    if let Some(rest) = after(text, b"idle ") {
        return Ok(idle_line(rest));
    }
    if let Some(rest) = after(text, b"cut ") {
        return Ok(cut_line(rest));
    }
    if let Some(rest) = after(text, b"failread ") {
        return Ok(fail_line(rest));
    }
    if is_word(text, b"mount") {
        return Ok(Some(Line::Mount));
    }
    if is_word(text, b"stat") {
        return Ok(Some(Line::Stat));
    }
    Ok(None)
}
