//! A source in memory.
ghost use Rattle.std.specs.Prelude.{◌≡◌, ◌<◌, ◌↔◌, ◌++◌, length, take, drop, IsErr, IsTrue, is_err, IfOk, OnErr};
ghost use Rattle.block_device.specs.MemSeen.{fresh_source, source_of, after_give, given_count, is_next_listed};
ghost use Rattle.block_device.specs.StreamSeen.{ReadsNext};

use crate::failing::Failing;
use crate::{Failed, Source};
use std::marker::Model;

/// A source in memory, which gives at most so many bytes at a time and fails at listed calls, numbered
/// from 1. A read that fails leaves the buffer as it was.
///
/// A read costs the bytes that it gives, and a look through the list.
#[derive(Drop)]
pub struct MemSource {
    bytes: Vec<u8>,
    at: usize,
    most: usize,
    calls: Failing,
}

impl Model for MemSource {
    ghost use Rattle.std.specs.Prelude.{◌≤◌, ◌<◌, length, drop};
    ghost use Rattle.block_device.specs.MemSeen.{MemSourceSeen};

    ghost Value = { MemSourceSeen };

    ghost view = { λ s. record { rest = drop s.at s.bytes.items; most = s.most; calls = s.calls } };

    ghost invariant = { λ s. (s.at ≤ length s.bytes.items) × (0 < s.most) };
}

impl MemSource {
    /// A source of these bytes, at most `most` of them at a time, whose calls of these numbers fail.
    pub fn new(bytes: Vec<u8>, most: usize, fail_at: Vec<u64>) -> MemSource
        requires { 0 < most }
        ensures { result ≡ fresh_source bytes.items most fail_at.items }
    {
        MemSource {
            bytes,
            at: 0,
            most,
            calls: Failing::new(fail_at),
        }
    }

    /// The bytes that are still to come.
    pub fn rest(&self) -> &[u8]
        ensures { result.now ≡ self.now.rest }
    {
        &self.bytes[self.at..]
    }

    /// How many reads were asked for, those that failed among them. The count stays at 2^64 - 1.
    pub fn calls(&self) -> u64
        ensures { result ≡ self.now.calls.calls }
    {
        self.calls.calls()
    }

    // Gives the next bytes.
    fn give(&mut self, into: &mut [u8]) -> usize
        ensures count { result ≡ given_count self.old (length into.old) }
        ensures bytes { into.new ≡ take result self.old.rest ++ drop result into.old }
        ensures new { self.new ≡ record self.old { rest = drop result self.old.rest } }
    {
        let left = self.bytes.len() - self.at;
        let count = left.min(into.len().min(self.most));
        into[..count].copy_from_slice(&self.bytes[self.at..self.at + count]);
        self.at += count;
        count
    }
}

impl Source for MemSource {
    ghost use Rattle.block_device.specs.MemSeen.{source_of};

    ghost seen = { source_of };

    fn faults(&self) -> u64 {
        self.calls.faults()
    }

    fn read(&mut self, into: &mut [u8]) -> Result<usize, Failed>
        ensures reads { ReadsNext (source_of self.old) (source_of self.new) into.new result }
        // Exactly this:
        ensures new { self.new ≡ after_give self.old (is_err result) (length into.old) }
        ensures fails { IsErr result ↔ IsTrue (is_next_listed self.old.calls) }
        ensures count { IfOk result (λ count. count ≡ given_count self.old (length into.old)) }
        ensures bytes { IfOk result (λ count.
            into.new ≡ take count self.old.rest ++ drop count into.old) }
        ensures kept { OnErr result (into.new ≡ into.old) }
    {
        let fails = self.calls.is_next_listed();
        self.calls.count(fails);
        if fails {
            return Err(Failed);
        }
        Ok(self.give(into))
    }
}
