//! A whole script is one piece and the end.

ghost use Rattle.std.specs.Prelude.{◌≡◌, ℕ, ◌<◌, ◌≤◌, ◌⊎◌, List, length, IfOk, MatchResult};
ghost use Rattle.std.specs.List.{All, AllByRecursion};
ghost use Rattle.rssd_script.specs.declared.lines.Line.{Line};
ghost use Rattle.rssd_script.specs.declared.error.ScriptError.TheVariants.{TooLong, BadLine, OutOfMemory};
ghost use Rattle.rssd_script.specs.Script.{IsWithinGrammar, script_text};
ghost use Rattle.rssd_script.specs.Scripts.{Reads, Refuses};

use crate::reader::ScriptReader;
use crate::{Line, ScriptError};
use std::alloc::Global;

fn read_all(alloc: Global, text: &[u8]) -> Result<Vec<Line>, ScriptError>
    ensures { MatchResult result (λ lines. Reads text.now lines.items) (Refuses text.now) }
{
    let mut reader = ScriptReader::new(alloc);
    if reader.feed(text).is_err() {
        return Err(ScriptError::OutOfMemory);
    }
    reader.end()
}

/// The lines that the text spells.
pub fn parse(alloc: Global, text: &[u8]) -> Result<Vec<Line>, ScriptError>
    ensures answer { MatchResult result (λ lines. Reads text.now lines.items) (Refuses text.now) }
    ensures within { IfOk result (λ lines. All IsWithinGrammar lines.items) }
    // No other answer is right, unless memory runs out.
    ensures lines_only { (lines : List Line) → Reads text.now lines → MatchResult result (λ v. v.items ≡ lines) (λ e. e ≡ OutOfMemory) }
    ensures bad_only { (k : ℕ) → Refuses text.now (BadLine k) → MatchResult result (λ _. ⊥) (λ e. (e ≡ BadLine k) ⊎ (e ≡ OutOfMemory)) }
    ensures long_only { 1_048_576 < length text.now → MatchResult result (λ _. ⊥) (λ e. (e ≡ TooLong) ⊎ (e ≡ OutOfMemory)) }
{
    read_all(alloc, text)
}

/// Lines as `print_line` prints them, one after another, are the script of these lines.
pub fn printed_lines_are_read()
    ensures { (lines : List Line) → AllByRecursion IsWithinGrammar lines → length (script_text lines) ≤ 1_048_576 → Reads (script_text lines) lines }
{}
