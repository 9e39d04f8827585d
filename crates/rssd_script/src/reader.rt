//! A script's text, in pieces, read as its lines. A bad line is kept until the end, since `TooLong` comes before it.

ghost use Rattle.std.specs.Prelude.{◌≡◌, ℕ, ◌≤◌, List, [], ◌++◌, length, Err, IsErr, OnOk, OnErr, MatchResult};

use crate::pieces::{LINE_ROOM, add_line, read_piece};
use crate::{Line, OutOfMemory, ScriptError};
use arrayvec::ArrayVec;
use std::alloc::{AllocError, Global};

/// The most bytes of a script.
const MOST_BYTES: u32 = 1_048_576;

/// Reads a script that comes in pieces. The text is not held beside its lines.
#[derive(Drop)]
pub struct ScriptReader {
    alloc: Global,
    lines: Vec<Line>,
    // What has come of the next line.
    rest: ArrayVec<u8, LINE_ROOM>,
    // How many bytes have come, or one more than the most.
    taken: u32,
    // The first bad line, counted from 1.
    bad: Option<u32>,
    failed: bool,
    ghost counted: { length lines.items ≤ taken },
    ghost bounded: { taken ≤ 1_048_577 },
}

impl ScriptReader {
    ghost use Rattle.rssd_script.specs.Readers.{HasRead, HasFailed};
    ghost use Rattle.rssd_script.specs.Scripts.{Reads, Refuses};
    ghost use Rattle.rssd_script.specs.declared.error.ScriptError.TheVariants.{OutOfMemory as NoRoom};

    /// A reader that has read nothing. It takes no memory.
    pub fn new(alloc: Global) -> ScriptReader
        ensures { HasRead result [] }
    {
        ScriptReader {
            alloc,
            lines: Vec::new(alloc),
            rest: ArrayVec::new(),
            taken: 0,
            bad: None,
            failed: false,
        }
    }

    /// Reads one more piece.
    pub fn feed(&mut self, piece: &[u8]) -> Result<(), OutOfMemory>
        ensures reads { (text : List ℕ) → HasRead self.old text → OnOk result (HasRead self.new (text ++ piece.now)) }
        // After an `Err` every call answers so.
        ensures failed { OnErr result (HasFailed self.new) }
        ensures fails { HasFailed self.old → IsErr result }
    {
        if self.failed {
            return Err(AllocError);
        }
        if self.taken > MOST_BYTES || piece.len() > (MOST_BYTES - self.taken) as usize {
            self.taken = MOST_BYTES + 1;
            return Ok(());
        }
        self.taken += piece.len() as u32;
        if self.bad.is_some() {
            return Ok(());
        }
        match read_piece(self.alloc, &mut self.lines, &mut self.rest, piece) {
            Ok(true) => Ok(()),
            Ok(false) => {
                self.bad = Some(self.lines.len() as u32 + 1);
                Ok(())
            }
            Err(error) => {
                self.failed = true;
                Err(error)
            }
        }
    }

    /// What all pieces in a row spell.
    pub fn end(self) -> Result<Vec<Line>, ScriptError>
        ensures reads { (text : List ℕ) → HasRead self text → MatchResult result (λ lines. Reads text lines.items) (Refuses text) }
        ensures failed { HasFailed self → result ≡ Err NoRoom }
    {
        if self.failed {
            return Err(ScriptError::OutOfMemory);
        }
        if self.taken > MOST_BYTES {
            return Err(ScriptError::TooLong);
        }
        if let Some(line) = self.bad {
            return Err(ScriptError::BadLine(line));
        }
        let ScriptReader {
            alloc,
            mut lines,
            rest,
            ..
        } = self;
        if rest.is_empty() {
            return Ok(lines);
        }
        match add_line(alloc, &mut lines, rest.as_slice()) {
            Ok(true) => Ok(lines),
            Ok(false) => Err(ScriptError::BadLine(lines.len() as u32 + 1)),
            Err(_) => Err(ScriptError::OutOfMemory),
        }
    }
}
