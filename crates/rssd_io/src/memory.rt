//! Sources and sinks in memory. A call fails exactly where its number, counted from 1, is listed, and a sink also where a
//! piece does not fit its room; such a call moves no byte.
ghost use Rattle.std.specs.Prelude.{◌≡◌, ◌≤◌, [], Some, min, take, length, IfOk, vec_capacity};
ghost use Rattle.rssd_io.specs.Event.{bytes_of};

use crate::log::Log;
use crate::{ReadFault, Sink, Source, WriteFault};
use std::alloc::{AllocError, Global};

/// A source of these bytes, of which the calls with the listed numbers, counted from 1, fail.
#[derive(Drop)]
pub struct MemSource {
    bytes: Vec<u8>,
    at: usize,
    fail_at: Vec<u64>,
    calls: u64,
    log: Log,
    ghost within: { at ≤ length bytes.items },
}

impl MemSource {
    ghost use Rattle.rssd_io.specs.Memory.{source_left, source_log, source_calls, source_fail_at};

    /// A source that was not called yet.
    pub fn new(bytes: Vec<u8>, fail_at: Vec<u64>) -> MemSource
        ensures left { source_left result ≡ bytes.items }
        ensures log { source_log result ≡ [] }
        ensures calls { source_calls result ≡ 0 }
        ensures fail_at { source_fail_at result ≡ fail_at.items }
    {
        MemSource {
            bytes,
            at: 0,
            fail_at,
            calls: 0,
            log: Log::new(),
        }
    }
}

/// Copies the first bytes of `from`, as many as there is room for.
fn copy_front(from: &[u8], into: &mut [u8]) -> usize
    ensures count { result ≡ min (length from.now) (length into.old) }
    ensures bytes { take result into.new ≡ take result from.now }
{
    let count = from.len().min(into.len());
    into[..count].copy_from_slice(&from[..count]);
    count
}

impl Source for MemSource {
    ghost use Rattle.std.specs.Prelude.{◌≡◌, ◌↔◌, ◌<◌, Some, min, length, Contains, IsErr, IfOk};
    ghost use Rattle.std.specs.Io.{ReadsAtMost};
    ghost use Rattle.std.specs.Io.KnownBytes.{ReadConsumes};
    ghost use Rattle.rssd_io.specs.Event.{Adds, took};
    ghost use Rattle.rssd_io.specs.Faults.{raised};
    ghost use Rattle.rssd_io.specs.Memory.{source_left, source_log, source_calls, source_fail_at};

    ghost log = { source_log };

    ghost left = { λ s. Some (source_left s) };

    fn take(&mut self, into: &mut [u8]) -> Result<usize, ReadFault>
        requires { 0 < length into.old }
        ensures bound { ReadsAtMost result into.new }
        ensures bytes { ReadConsumes (Some (source_left self.old)) (Some (source_left self.new)) result into.new }
        ensures log { Adds (took result into.new) (source_log self.old) (source_log self.new) }
        // Which calls fail, and how much each other call takes.
        ensures listed { IsErr result ↔ Contains (source_fail_at self.old) (source_calls self.new) }
        ensures counted { source_calls self.new ≡ raised (source_calls self.old) }
        ensures same_list { source_fail_at self.new ≡ source_fail_at self.old }
        ensures count { IfOk result (λ n. n ≡ min (length (source_left self.old)) (length into.old)) }
    {
        self.calls = self.calls.saturating_add(1);
        if self.fail_at.contains(&self.calls) {
            self.log.note_failure();
            return Err(ReadFault);
        }
        let count = copy_front(&self.bytes[self.at..], into);
        self.log.note(&into[..count]);
        self.at += count;
        Ok(count)
    }
}

/// A source of these bytes that never fails: its count of faults is 0.
#[derive(Drop)]
pub struct HonestSource {
    bytes: Vec<u8>,
    at: usize,
    log: Log,
    ghost within: { at ≤ length bytes.items },
}

impl HonestSource {
    ghost use Rattle.rssd_io.specs.Memory.{honest_left};

    /// A source of which nothing was taken yet.
    pub fn new(bytes: Vec<u8>) -> HonestSource
        ensures left { honest_left result ≡ bytes.items }
        ensures log { result.log.events ≡ [] }
    {
        HonestSource {
            bytes,
            at: 0,
            log: Log::new(),
        }
    }
}

impl Source for HonestSource {
    ghost use Rattle.std.specs.Prelude.{◌≡◌, ◌<◌, Some, min, length, IsOk, IfOk};
    ghost use Rattle.std.specs.Io.{ReadsAtMost};
    ghost use Rattle.std.specs.Io.KnownBytes.{ReadConsumes};
    ghost use Rattle.rssd_io.specs.Event.{Adds, took};
    ghost use Rattle.rssd_io.specs.Memory.{honest_left};

    ghost log = { λ s. s.log.events };

    ghost left = { λ s. Some (honest_left s) };

    fn take(&mut self, into: &mut [u8]) -> Result<usize, ReadFault>
        requires { 0 < length into.old }
        ensures bound { ReadsAtMost result into.new }
        ensures bytes { ReadConsumes (Some (honest_left self.old)) (Some (honest_left self.new)) result into.new }
        ensures log { Adds (took result into.new) self.old.log.events self.new.log.events }
        ensures served { IsOk result }
        ensures count { IfOk result (λ n. n ≡ min (length (honest_left self.old)) (length into.old)) }
    {
        let count = copy_front(&self.bytes[self.at..], into);
        self.log.note(&into[..count]);
        self.at += count;
        Ok(count)
    }
}

/// A sink with room for so many bytes, which takes all its memory at its making. The calls with the listed numbers, counted
/// from 1, fail, and so does a piece that there is no room for.
#[derive(Drop)]
pub struct MemSink {
    bytes: Vec<u8>,
    room: u32,
    fail_at: Vec<u64>,
    calls: u64,
    log: Log,
    ghost has_room: { room ≤ vec_capacity bytes },
    ghost on_record: { bytes_of log.events ≡ bytes.items },
}

impl MemSink {
    ghost use Rattle.std.specs.Prelude.{◌+◌, ◌↔◌, IsTrue};
    ghost use Rattle.rssd_io.specs.Memory.{sink_written, sink_log, sink_calls, sink_fail_at, sink_room};

    /// An empty sink that was not called yet.
    pub fn new(alloc: Global, room: u32, fail_at: Vec<u64>) -> Result<MemSink, AllocError>
        ensures written { IfOk result (λ sink. sink_written sink ≡ []) }
        ensures log { IfOk result (λ sink. sink_log sink ≡ []) }
        ensures calls { IfOk result (λ sink. sink_calls sink ≡ 0) }
        ensures fail_at { IfOk result (λ sink. sink_fail_at sink ≡ fail_at.items) }
        ensures room { IfOk result (λ sink. sink_room sink ≡ room) }
    {
        Ok(MemSink {
            bytes: Vec::with_capacity(alloc, room as usize)?,
            room,
            fail_at,
            calls: 0,
            log: Log::new(),
        })
    }

    /// Whether there is room for a piece.
    fn fits(&self, piece: &[u8]) -> bool
        ensures { IsTrue result ↔ (length (sink_written self.now) + length piece.now ≤ sink_room self.now) }
    {
        let room = self.room as usize;
        piece.len() <= room && self.bytes.len() <= room - piece.len()
    }

    /// The bytes that were given.
    pub fn bytes(&self) -> &[u8]
        ensures { result.now ≡ sink_written self.now }
    {
        &self.bytes
    }
}

impl Sink for MemSink {
    ghost use Rattle.std.specs.Prelude.{◌≡◌, ◌↔◌, ◌⊎◌, ◌+◌, ◌++◌, ◌<◌, Some, length, Contains, IsErr, OnOk, OnErr};
    ghost use Rattle.rssd_io.specs.Event.{Gave, Flushed};
    ghost use Rattle.rssd_io.specs.Faults.{raised};
    ghost use Rattle.rssd_io.specs.Told.{TellsHeld};
    ghost use Rattle.rssd_io.specs.Memory.{sink_written, sink_log, sink_calls, sink_fail_at, sink_room};

    ghost log = { sink_log };

    ghost written = { λ s. Some (sink_written s) };

    fn give(&mut self, piece: &[u8]) -> Result<(), WriteFault>
        ensures log { Gave result piece.now (sink_log self.old) (sink_log self.new) }
        ensures held { TellsHeld (Some (sink_written self.old)) (Some (sink_written self.new)) (sink_log self.old) (sink_log self.new) }
        ensures all { OnOk result (sink_written self.new ≡ sink_written self.old ++ piece.now) }
        // Which calls fail, and that they append nothing.
        ensures listed { IsErr result ↔ (Contains (sink_fail_at self.old) (sink_calls self.new)
            ⊎ (sink_room self.old < length (sink_written self.old) + length piece.now)) }
        ensures none { OnErr result (sink_written self.new ≡ sink_written self.old) }
        ensures counted { sink_calls self.new ≡ raised (sink_calls self.old) }
        ensures same_list { sink_fail_at self.new ≡ sink_fail_at self.old }
        ensures same_room { sink_room self.new ≡ sink_room self.old }
    {
        self.calls = self.calls.saturating_add(1);
        if self.fail_at.contains(&self.calls) {
            self.log.note(&[]);
            self.log.note_failure();
            return Err(WriteFault);
        }
        if !self.fits(piece) {
            self.log.note(&[]);
            self.log.note_failure();
            return Err(WriteFault);
        }
        self.bytes.extend_from_slice(piece).unwrap();
        self.log.note(piece);
        Ok(())
    }

    fn flush(&mut self) -> Result<(), WriteFault>
        ensures log { Flushed result (sink_log self.old) (sink_log self.new) }
        ensures held { TellsHeld (Some (sink_written self.old)) (Some (sink_written self.new)) (sink_log self.old) (sink_log self.new) }
        ensures same { sink_written self.new ≡ sink_written self.old }
        // Which calls fail.
        ensures listed { IsErr result ↔ Contains (sink_fail_at self.old) (sink_calls self.new) }
        ensures counted { sink_calls self.new ≡ raised (sink_calls self.old) }
        ensures same_list { sink_fail_at self.new ≡ sink_fail_at self.old }
        ensures same_room { sink_room self.new ≡ sink_room self.old }
    {
        self.calls = self.calls.saturating_add(1);
        if self.fail_at.contains(&self.calls) {
            self.log.note_failure();
            return Err(WriteFault);
        }
        self.log.note_flush();
        Ok(())
    }
}
