// A source and a sink in memory, which give and take small pieces and fail where they are told to.
ghost use Rattle.std.specs.Prelude.{◌≡◌, ◌+◌, ◌-◌, ◌<◌, ◌≤◌, ◌⊎◌, ◌++◌, [], List, ℕ, length, take, drop, max, Some, IsErr, IfOk, OnOk, OnErr, Contains, ◌↔◌};
ghost use Rattle.std.specs.Io.{ReadsAtMost, WritesAtMost};
ghost use Rattle.std.specs.Io.KnownBytes.{ReadConsumes, WriteAppends};
ghost use Rattle.media_base.specs.Causes.{HasCause};
ghost use Rattle.media_base.specs.Memory.{source_left, sink_written, given_count, taken_count, after_read, after_failed_read, after_write, after_failed_write};

use crate::{Failed, Sink, Source};
use std::alloc::{AllocError, Global};
use std::marker::Model;

/// A source that gives bytes of memory, at most `piece` a call, and fails at the calls listed.
#[derive(Drop)]
pub struct MemSource {
    bytes: Vec<u8>,
    at: usize,
    most: usize,
    failing: Vec<u64>,
    call_count: u64,
    fault_count: u64,
}

impl Model for MemSource {
    ghost use Rattle.std.specs.Prelude.{◌≤◌, ◌<◌, length, drop};
    ghost use Rattle.media_base.specs.Memory.{MemorySource};

    ghost Value = { MemorySource };

    ghost view = { λ s. record {
      left = drop s.at s.bytes.items;
      piece = s.most;
      failing = s.failing.items;
      calls = s.call_count;
      faults = s.fault_count;
    } };

    ghost invariant = { λ s. (s.at ≤ length s.bytes.items) × (0 < s.most) };
}

impl MemSource {
    /// Gives these bytes, at most `piece` a call (at least 1), and fails at the calls listed,
    /// counted from 0.
    pub fn new(bytes: Vec<u8>, piece: usize, failing: Vec<u64>) -> Self
        ensures left { source_left result ≡ bytes.items }
        ensures piece { result.piece ≡ max piece 1 }
        ensures failing { result.failing ≡ failing.items }
        ensures calls { result.calls ≡ 0 }
        ensures faults { result.faults ≡ 0 }
    {
        MemSource {
            bytes,
            at: 0,
            most: piece.max(1),
            failing,
            call_count: 0,
            fault_count: 0,
        }
    }
}

impl Source for MemSource {
    ghost left = { λ s. Some s.left };

    ghost fault_count = { λ s. s.faults };

    fn read(&mut self, buf: &mut [u8]) -> Result<usize, Failed>
        ensures bound { ReadsAtMost result buf.new }
        ensures bytes { ReadConsumes (Some self.old.left) (Some self.new.left) result buf.new }
        ensures cause { HasCause self.old.faults self.new.faults result }
        ensures same { OnOk result (self.new.faults ≡ self.old.faults) }
        ensures fails { IsErr result ↔ Contains self.old.failing self.old.calls }
        ensures count { IfOk result (λ n. n ≡ given_count self.old (length buf.old)) }
        ensures after { IfOk result (λ n. self.new ≡ after_read self.old n) }
        ensures failed { OnErr result (self.new ≡ after_failed_read self.old) }
        ensures given { IfOk result (λ n. buf.new ≡ take n self.old.left ++ drop n buf.old) }
        ensures kept { OnErr result (buf.new ≡ buf.old) }
    {
        let call = self.call_count;
        self.call_count = call.saturating_add(1);
        if self.failing.contains(&call) {
            self.fault_count = self.fault_count.saturating_add(1);
            return Err(Failed);
        }
        let rest = &self.bytes[self.at..];
        let count = self.most.min(buf.len()).min(rest.len());
        buf[..count].copy_from_slice(&rest[..count]);
        self.at += count;
        Ok(count)
    }

    fn faults(&self) -> u64 {
        self.fault_count
    }
}

/// A sink that takes bytes into memory that it has from the beginning.
#[derive(Drop)]
pub struct MemSink {
    bytes: Vec<u8>,
    limit: usize,
    most: usize,
    failing: Vec<u64>,
    call_count: u64,
    fault_count: u64,
}

impl Model for MemSink {
    ghost use Rattle.std.specs.Prelude.{◌≤◌, ◌<◌, length, vec_capacity};
    ghost use Rattle.media_base.specs.Memory.{MemorySink};

    ghost Value = { MemorySink };

    ghost view = { λ s. record {
      written = s.bytes.items;
      room = s.limit;
      piece = s.most;
      failing = s.failing.items;
      calls = s.call_count;
      faults = s.fault_count;
    } };

    ghost invariant = { λ s. (length s.bytes.items ≤ s.limit) × (s.limit ≤ vec_capacity s.bytes) × (0 < s.most) };
}

impl MemSink {
    /// Takes at most `room` bytes in all, at most `piece` a call (at least 1), and fails at the
    /// calls listed, counted from 0.
    pub fn new(
        alloc: Global,
        room: usize,
        piece: usize,
        failing: Vec<u64>,
    ) -> Result<Self, AllocError>
        ensures written { IfOk result (λ sink. sink_written sink ≡ []) }
        ensures room { IfOk result (λ sink. sink.room ≡ room) }
        ensures piece { IfOk result (λ sink. sink.piece ≡ max piece 1) }
        ensures failing { IfOk result (λ sink. sink.failing ≡ failing.items) }
        ensures calls { IfOk result (λ sink. sink.calls ≡ 0) }
        ensures faults { IfOk result (λ sink. sink.faults ≡ 0) }
    {
        Ok(MemSink {
            bytes: Vec::with_capacity(alloc, room)?,
            limit: room,
            most: piece.max(1),
            failing,
            call_count: 0,
            fault_count: 0,
        })
    }

    /// The bytes that it has taken.
    pub fn bytes(&self) -> &[u8]
        ensures { result.now ≡ sink_written self.now }
    {
        &self.bytes
    }
}

impl Sink for MemSink {
    ghost written = { λ s. Some s.written };

    ghost fault_count = { λ s. s.faults };

    fn write(&mut self, buf: &[u8]) -> Result<usize, Failed>
        ensures bound { WritesAtMost result buf.now }
        ensures some { 0 < length buf.now → IfOk result (λ count. 0 < count) }
        ensures bytes { WriteAppends (Some self.old.written) (Some self.new.written) result buf.now }
        ensures cause { HasCause self.old.faults self.new.faults result }
        ensures same { OnOk result (self.new.faults ≡ self.old.faults) }
        ensures fails { IsErr result ↔ (Contains self.old.failing self.old.calls
            ⊎ (self.old.room < length self.old.written + taken_count self.old (length buf.now))) }
        ensures count { IfOk result (λ n. n ≡ taken_count self.old (length buf.now)) }
        ensures after { IfOk result (λ n. self.new ≡ after_write self.old (take n buf.now)) }
        ensures failed { OnErr result (self.new ≡ after_failed_write self.old) }
    {
        let call = self.call_count;
        self.call_count = call.saturating_add(1);
        let count = self.most.min(buf.len());
        let full = self.limit - self.bytes.len() < count;
        if self.failing.contains(&call) || full {
            self.fault_count = self.fault_count.saturating_add(1);
            return Err(Failed);
        }
        match self.bytes.extend_from_slice(&buf[..count]) {
            Ok(()) => Ok(count),
            Err(_) => unreachable!(),
        }
    }

    fn faults(&self) -> u64 {
        self.fault_count
    }
}
