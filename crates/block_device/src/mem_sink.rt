//! A sink in memory.
ghost use Rattle.std.specs.Prelude.{◌≡◌, ◌<◌, ◌≤◌, ◌+◌, ◌↔◌, ◌++◌, ◌&&◌, nat_lt, nat_le, [], length, IsErr, IsTrue, is_err, IfOk};
ghost use Rattle.block_device.specs.MemSeen.{empty_sink, sink_of, after_take, taken_count, is_next_refused};
ghost use Rattle.block_device.specs.StreamSeen.{WritesNext};

use crate::failing::Failing;
use crate::{Failed, Sink};
use std::alloc::{AllocError, Global};
use std::marker::Model;

/// A sink in memory with room for so many bytes, which takes at most so many at a time and fails at listed
/// calls, numbered from 1. Once it is full it fails at each piece that isn't empty.
///
/// A write costs the bytes that it takes, and a look through the list. It takes no memory.
#[derive(Drop)]
pub struct MemSink {
    text: Vec<u8>,
    room: usize,
    most: usize,
    calls: Failing,
}

impl Model for MemSink {
    ghost use Rattle.std.specs.Prelude.{◌≤◌, ◌<◌, length, vec_capacity};
    ghost use Rattle.block_device.specs.MemSeen.{MemSinkSeen};

    ghost Value = { MemSinkSeen };

    ghost view = { λ s. record { written = s.text.items; room = s.room; most = s.most; calls = s.calls } };

    ghost invariant = { λ s. (length s.text.items ≤ s.room) × (s.room ≤ vec_capacity s.text) × (0 < s.most) };
}

impl MemSink {
    /// An empty sink with room for `room` bytes, which takes at most `most` of them at a time, whose calls
    /// of these numbers fail.
    pub fn new(
        alloc: Global,
        room: usize,
        most: usize,
        fail_at: Vec<u64>,
    ) -> Result<MemSink, AllocError>
        requires { 0 < most }
        ensures { IfOk result (λ sink. sink ≡ empty_sink room most fail_at.items) }
    {
        Ok(MemSink {
            text: Vec::with_capacity(alloc, room)?,
            room,
            most,
            calls: Failing::new(fail_at),
        })
    }

    /// What was written.
    pub fn written(&self) -> &[u8]
        ensures { result.now ≡ self.now.written }
    {
        self.text.as_slice()
    }

    /// What was written. Takes no memory.
    pub fn into_written(self) -> Vec<u8>
        ensures { result.items ≡ self.written }
    {
        self.text
    }

    /// How many writes were asked for, those that failed among them. The count stays at 2^64 - 1.
    pub fn calls(&self) -> u64
        ensures { result ≡ self.now.calls.calls }
    {
        self.calls.calls()
    }

    // Is no room left for a piece of so many bytes?
    fn is_full_for(&self, size: usize) -> bool
        ensures { result ≡ (nat_lt 0 size && nat_le self.now.room (length self.now.written)) }
    {
        0 < size && self.room <= self.text.len()
    }

    // Appends so many bytes, for which there is room.
    fn take(&mut self, bytes: &[u8])
        requires { length self.old.written + length bytes.now ≤ self.old.room }
        ensures { self.new ≡ record self.old { written = self.old.written ++ bytes.now } }
    {
        self.text.extend_from_slice(bytes).unwrap();
    }
}

impl Sink for MemSink {
    ghost use Rattle.block_device.specs.MemSeen.{sink_of};

    ghost seen = { sink_of };

    fn faults(&self) -> u64 {
        self.calls.faults()
    }

    fn write(&mut self, from: &[u8]) -> Result<usize, Failed>
        ensures writes { WritesNext (sink_of self.old) (sink_of self.new) from.now result }
        ensures new { self.new ≡ after_take self.old (is_err result) from.now }
        ensures fails { IsErr result ↔ IsTrue (is_next_refused self.old (length from.now)) }
        ensures count { IfOk result (λ count. count ≡ taken_count self.old (length from.now)) }
    {
        let fails = self.calls.is_next_listed() || self.is_full_for(from.len());
        self.calls.count(fails);
        if fails {
            return Err(Failed);
        }
        let count = from.len().min(self.most.min(self.room - self.text.len()));
        self.take(&from[..count]);
        Ok(count)
    }
}
