//! Lines that are read from a source, a line at a time: a line's text ends with a line feed, which the last may lack.
ghost use Rattle.std.specs.Prelude.{◌≡◌, ◌⊎◌, ◌+◌, ◌<◌, ◌≤◌, ℕ, List, [], ◌∷◌, ◌++◌, length, take, IfSome, IfNone, IfOk, IfErr, OnOk, OnErr};
ghost use Rattle.rssd_script.specs.Reading.{Lacks};
ghost use Rattle.rssd_script.specs.Scripts.{Reads};
ghost use Rattle.lab_stream.specs.Texts.{IsEnded, IsText, ReadsNone};

use arrayvec::ArrayVec;
use lab_lines::{Lines, LinesEnd};
use rssd_io::Source;
use rssd_script::{Line, ScriptError, parse};
use std::alloc::{AllocError, Global};

/// How many bytes are taken at a time.
const PIECE_BYTES: usize = 65_536;

/// The most bytes of a text with its line feed. No line of the grammar has more.
const TEXT_ROOM: usize = 1_049;

/// Room for the text of a line.
type TextRoom = ArrayVec<u8, TEXT_ROOM>;

/// The lines of a source. After its making only the bytes of a write take memory, and only while they are read.
#[derive(Drop)]
pub struct Stream<S: Drop> {
    source: S,
    // The piece that was taken last, of which the bytes from `at` to `end` are not read yet.
    piece: Vec<u8>,
    at: usize,
    end: usize,
    lines: u64,
    ghost order: { at ≤ end },
    ghost room: { end ≤ length piece.items },
    ghost size: { length piece.items ≡ 65_536 },
}

/// How many bytes there are up to the first line feed and with it.
fn length_with_feed(text: &[u8]) -> Option<usize>
    ensures found { IfSome result (λ n. (n ≤ length text.now) × IsEnded (take n text.now)) }
    ensures none { IfNone result (Lacks 10 text.now) }
{
    for (k, byte) in text.iter().enumerate() {
        if *byte == b'\n' {
            return Some(k + 1);
        }
    }
    None
}

/// The line that a text spells.
fn read_line(alloc: Global, text: &[u8], number: u64) -> Result<Line, LinesEnd>
    requires text { IsText text.now }
    requires short { length text.now ≤ 1_048_576 }
    ensures line { IfOk result (λ line. Reads text.now (line ∷ [])) }
    ensures stops { IfErr result (λ why. (why ≡ LinesEnd.OutOfMemory)
        ⊎ ((why ≡ LinesEnd.BadLine number) × ReadsNone text.now)) }
{
    match parse(alloc, text) {
        Ok(mut lines) => match lines.pop() {
            Some(line) => Ok(line),
            None => unreachable!(),
        },
        Err(ScriptError::OutOfMemory) => Err(LinesEnd::OutOfMemory),
        Err(ScriptError::BadLine(_)) => Err(LinesEnd::BadLine(number)),
        Err(ScriptError::TooLong) => unreachable!(),
    }
}

/// Room for a piece.
fn new_piece(alloc: Global) -> Result<Vec<u8>, AllocError>
    ensures { IfOk result (λ piece. length piece.items ≡ 65_536) }
{
    vec![in alloc; 0u8; PIECE_BYTES]
}

impl<S: Source + Drop> Stream<S> {
    ghost use Rattle.rssd_io.specs.Event.{Event, HasFailed, bytes_of, moved};
    ghost use Rattle.lab_stream.specs.Streaming.{ahead_of, lines_of, source_of, IsPart, MovesPart, IsWhole, TooLong, TakesPiece, TakesText, HasText, StopsStream};

    /// The lines of a source. Where there is no memory for a piece, the source comes back.
    pub fn new(alloc: Global, source: S) -> Result<Stream<S>, S>
        ensures ahead { IfOk result (λ stream. ahead_of stream ≡ []) }
        ensures lines { IfOk result (λ stream. lines_of stream ≡ 0) }
        ensures source { IfOk result (λ stream. source_of stream ≡ source) }
        ensures same { IfErr result (λ back. back ≡ source) }
    {
        match new_piece(alloc) {
            Ok(piece) => Ok(Stream {
                source,
                piece,
                at: 0,
                end: 0,
                lines: 0,
            }),
            Err(_) => Err(source),
        }
    }

    /// The source.
    pub fn into_source(self) -> S
        ensures { result ≡ source_of self }
    {
        self.source
    }

    /// How many bytes of the next text the piece has, and whether the text is whole with them.
    fn part(&self) -> (usize, bool)
        ensures { IsPart (ahead_of self.now) result.0 result.1 }
    {
        let ahead = &self.piece[self.at..self.end];
        match length_with_feed(ahead) {
            Some(count) => (count, true),
            None => (ahead.len(), false),
        }
    }

    /// Adds what the piece has of the next text, and says whether the text is whole then. Where it is longer than any line of the
    /// grammar, the line of this number is bad.
    fn add(&mut self, text: &mut TextRoom, number: u64) -> Result<bool, LinesEnd>
        requires { Lacks 10 text.old.items }
        ensures room { OnOk result (length text.new.items ≤ 1_049) }
        ensures moves { OnOk result (MovesPart self.old text.old.items self.new text.new.items) }
        ensures whole { IfOk result (λ whole. IsWhole whole text.new.items self.new) }
        ensures too_long { OnErr result (TooLong self.old text.old.items self.new) }
        ensures why { IfErr result (λ why. why ≡ LinesEnd.BadLine number) }
    {
        let (count, whole) = self.part();
        let from = self.at;
        self.at += count;
        match text.try_extend_from_slice(&self.piece[from..self.at]) {
            Ok(()) => Ok(whole),
            Err(_) => Err(LinesEnd::BadLine(number)),
        }
    }

    /// Takes the next piece, where all of the last one was read. It says whether some bytes came.
    fn take(&mut self) -> Result<bool, LinesEnd>
        requires { ahead_of self.old ≡ [] }
        ensures takes { IfOk result (λ some. TakesPiece S.log self.old some self.new) }
        ensures fault { OnErr result (HasFailed (S.log self.old.source) (S.log self.new.source)) }
        ensures why { IfErr result (λ why. why ≡ LinesEnd.Fault) }
    {
        self.at = 0;
        self.end = 0;
        match self.source.take(&mut self.piece) {
            Ok(count) => {
                self.end = count;
                Ok(count > 0)
            }
            Err(_) => Err(LinesEnd::Fault),
        }
    }

    /// Takes the next text, and what of the source it takes to have it whole.
    fn next_text(&mut self, text: &mut TextRoom) -> Result<(), LinesEnd>
        requires { text.old.items ≡ [] }
        ensures takes { OnOk result (TakesText S.log self.old text.new.items self.new) }
        ensures has { OnOk result (HasText S.log self.old text.new.items self.new) }
        ensures lines { OnOk result (self.new.lines ≡ self.old.lines) }
        ensures stops { IfErr result (λ why. StopsStream S.log self.old why self.new) }
    {
        let number = self.lines.saturating_add(1);
        loop {
            match self.add(text, number) {
                Ok(true) => return Ok(()),
                Ok(false) => {}
                Err(why) => return Err(why),
            }
            match self.take() {
                Ok(true) => {}
                Ok(false) => return Ok(()),
                Err(why) => return Err(why),
            }
        }
    }
}

impl<S: Source + Drop> Lines for Stream<S> {
    ghost use Rattle.lab_stream.specs.Streaming.{TakesLine, TakesNone, StopsStream};

    ghost gives = { TakesLine S.log };

    ghost ended = { TakesNone S.log };

    ghost stops = { StopsStream S.log };

    fn next_line(&mut self, alloc: Global) -> Result<Option<Line>, LinesEnd> {
        let mut text = ArrayVec::new();
        match self.next_text(&mut text) {
            Ok(()) => {}
            Err(why) => return Err(why),
        }
        if text.is_empty() {
            return Ok(None);
        }
        let number = self.lines.saturating_add(1);
        match read_line(alloc, text.as_slice(), number) {
            Ok(line) => {
                self.lines = number;
                Ok(Some(line))
            }
            Err(why) => Err(why),
        }
    }
}
