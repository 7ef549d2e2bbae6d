// A source and a sink in memory that fail at the calls that are named.
ghost use Rattle.std.specs.Prelude.{◌≡◌, ◌≤◌, ◌↔◌, Some, [], IsTrue, true, IsErr, IsErrOf, IfOk, max, take, length, ◌<◌};
ghost use Rattle.std.specs.Io.{ReadsAtMost, WritesAtMost};
ghost use Rattle.std.specs.Io.KnownBytes.{ReadConsumes, WriteAppends};
ghost use Rattle.amm_io.specs.Causes.{HasCause};
ghost use Rattle.amm_io.specs.Schedules.{after_call, fails_now};

use crate::sure::copy_front;
use crate::{Failed, IoFail, Sink, Source};
use std::alloc::Global;
use std::marker::Model;

/// Which calls fail, and how many calls and faults there were.
#[derive(Drop)]
struct Schedule {
    fails: Vec<u64>,
    calls: u64,
    faults: u64,
}

impl Model for Schedule {
    ghost use Rattle.amm_io.specs.Schedules.{Schedule as Plan};

    ghost Value = { Plan };

    ghost view = { λ s. record { fails = s.fails.items; calls = s.calls; faults = s.faults } };
}

impl Schedule {
    fn new(fails: Vec<u64>) -> Schedule
        ensures { result ≡ record { fails = fails.items; calls = 0; faults = 0 } }
    {
        Schedule {
            fails,
            calls: 0,
            faults: 0,
        }
    }

    /// Counts a call, and says whether it fails.
    fn next_fails(&mut self) -> bool
        ensures named { result ≡ fails_now self.old }
        ensures counted { self.new ≡ after_call self.old }
        ensures cause { HasCause self.old.faults self.new.faults (IsTrue result) }
    {
        let fails = self.fails.contains(&self.calls);
        self.calls = self.calls.saturating_add(1);
        if fails {
            self.faults = self.faults.saturating_add(1);
        }
        fails
    }
}

/// A source of bytes in memory that gives them in pieces, and fails at the calls that are named.
#[derive(Drop)]
pub struct MemSource {
    bytes: Vec<u8>,
    at: usize,
    piece: usize,
    schedule: Schedule,
}

impl Model for MemSource {
    ghost use Rattle.std.specs.Prelude.{drop, length, ◌≤◌, ◌<◌};
    ghost use Rattle.amm_io.specs.Schedules.{MemoryInput};

    ghost Value = { MemoryInput };

    ghost view = { λ s. record { left = drop s.at s.bytes.items; piece = s.piece; schedule = s.schedule } };

    ghost invariant = { λ s. (s.at ≤ length s.bytes.items) × (0 < s.piece) };
}

impl MemSource {
    /// A source of the bytes that gives at most `piece` of them in a call, and at least one.
    /// The calls whose numbers, counted from 0, are in `fails` fail.
    pub fn new(bytes: Vec<u8>, piece: usize, fails: Vec<u64>) -> MemSource
        ensures { result ≡ record { left = bytes.items; piece = max 1 piece; schedule = record { fails = fails.items; calls = 0; faults = 0 } } }
    {
        MemSource {
            bytes,
            at: 0,
            piece: piece.max(1),
            schedule: Schedule::new(fails),
        }
    }
}

impl Source for MemSource {
    ghost left = { λ s. Some s.left };

    ghost faults = { λ s. s.schedule.faults };

    fn read(&mut self, buf: &mut [u8]) -> Result<usize, Failed>
        ensures bound { ReadsAtMost result buf.new }
        ensures bytes { ReadConsumes (Some self.old.left) (Some self.new.left) result buf.new }
        ensures cause { HasCause self.old.schedule.faults self.new.schedule.faults (IsErr result) }
        ensures named { IsErr result ↔ (fails_now self.old.schedule ≡ true) }
        ensures schedule { self.new.schedule ≡ after_call self.old.schedule }
        ensures piece { IfOk result (λ count. count ≤ self.old.piece) }
        ensures kept { self.new.piece ≡ self.old.piece }
    {
        if self.schedule.next_fails() {
            return Err(Failed);
        }
        let count = copy_front(&self.bytes[self.at..], buf, self.piece);
        self.at += count;
        Ok(count)
    }
}

/// A sink in memory that takes each piece whole, and fails at the calls that are named.
#[derive(Drop)]
pub struct MemSink {
    bytes: Vec<u8>,
    schedule: Schedule,
}

impl Model for MemSink {
    ghost use Rattle.amm_io.specs.Schedules.{MemoryOutput};

    ghost Value = { MemoryOutput };

    ghost view = { λ s. record { written = s.bytes.items; schedule = s.schedule } };
}

impl MemSink {
    /// A sink that has taken nothing, and fails at the calls whose numbers, counted from 0, are in
    /// `fails`.
    pub fn new(alloc: Global, fails: Vec<u64>) -> MemSink
        ensures { result ≡ record { written = []; schedule = record { fails = fails.items; calls = 0; faults = 0 } } }
    {
        MemSink {
            bytes: Vec::new(alloc),
            schedule: Schedule::new(fails),
        }
    }

    /// What was written.
    pub fn bytes(&self) -> &[u8]
        ensures { result.now ≡ self.now.written }
    {
        self.bytes.as_slice()
    }
}

impl Sink for MemSink {
    ghost written = { λ s. Some s.written };

    ghost faults = { λ s. s.schedule.faults };

    fn write(&mut self, bytes: &[u8]) -> Result<usize, IoFail>
        ensures bound { WritesAtMost result bytes.now }
        ensures some { IfOk result (λ count. 0 < length bytes.now → 0 < count) }
        ensures bytes { WriteAppends (Some self.old.written) (Some self.new.written) result bytes.now }
        ensures cause { HasCause self.old.schedule.faults self.new.schedule.faults (IsErrOf result IoFail.Failed) }
        ensures named { IsErrOf result IoFail.Failed ↔ (fails_now self.old.schedule ≡ true) }
        ensures schedule { self.new.schedule ≡ after_call self.old.schedule }
        ensures whole { IfOk result (λ count. count ≡ length bytes.now) }
    {
        if self.schedule.next_fails() {
            return Err(IoFail::Failed);
        }
        match self.bytes.extend_from_slice(bytes) {
            Ok(()) => Ok(bytes.len()),
            Err(_) => Err(IoFail::Memory),
        }
    }
}
