//! Whole lines taken from a piece of a script's text: a line feed ends a line, and what a piece only begins is kept.

ghost use Rattle.std.specs.Prelude.{◌≡◌, ℕ, ◌+◌, ◌≤◌, List, [], ◌++◌, length, IfOk, MatchBool};
ghost use Rattle.rssd_script.specs.Reading.{SpellsNone};
ghost use Rattle.rssd_script.specs.Scripts.{Adds, Whole, Broken};

use crate::grammar::{line_of, split_at_byte};
use crate::{Line, OutOfMemory};
use arrayvec::ArrayVec;
use std::alloc::Global;

/// The most bytes of a line that a reader has room for. No line of the grammar has more.
pub const LINE_ROOM: usize = 1048;

/// Adds the line that the text spells, or answers false.
pub fn add_line(alloc: Global, lines: &mut Vec<Line>, text: &[u8]) -> Result<bool, OutOfMemory>
    ensures ok { IfOk result (λ added. MatchBool added
        (Adds lines.old.items lines.new.items text.now)
        (SpellsNone text.now × (lines.new.items ≡ lines.old.items))) }
    ensures count { length lines.new.items ≤ length lines.old.items + 1 }
{
    match line_of(alloc, text)? {
        Some(line) => {
            lines.push(line)?;
            Ok(true)
        }
        None => Ok(false),
    }
}

/// Ends the line that has begun and adds it, or answers false.
pub fn end_line(
    alloc: Global,
    lines: &mut Vec<Line>,
    rest: &mut ArrayVec<u8, LINE_ROOM>,
    front: &[u8],
) -> Result<bool, OutOfMemory>
    ensures ok { IfOk result (λ added. MatchBool added
        (Adds lines.old.items lines.new.items (rest.old.items ++ front.now) × (rest.new.items ≡ []))
        (SpellsNone (rest.old.items ++ front.now) × (lines.new.items ≡ lines.old.items))) }
    ensures count { length lines.new.items ≤ length lines.old.items + 1 }
{
    if rest.is_empty() {
        return add_line(alloc, lines, front);
    }
    if rest.try_extend_from_slice(front).is_err() {
        return Ok(false);
    }
    let added = add_line(alloc, lines, rest.as_slice())?;
    rest.clear();
    Ok(added)
}

/// Adds the whole lines of a piece, and keeps what it begins. Answers false at the first bad line.
pub fn read_piece(
    alloc: Global,
    lines: &mut Vec<Line>,
    rest: &mut ArrayVec<u8, LINE_ROOM>,
    piece: &[u8],
) -> Result<bool, OutOfMemory>
    ensures ok { (text : List ℕ) → Whole text lines.old.items rest.old.items → IfOk result (λ good. MatchBool good
        (Whole (text ++ piece.now) lines.new.items rest.new.items)
        (Broken (text ++ piece.now) (length lines.new.items + 1))) }
    ensures count { length lines.new.items ≤ length lines.old.items + length piece.now }
{
    let mut left = piece;
    while let Some((front, back)) = split_at_byte(left, b'\n') {
        if !end_line(alloc, lines, rest, front)? {
            return Ok(false);
        }
        left = back;
    }
    Ok(rest.try_extend_from_slice(left).is_ok())
}
