//! A sink in memory, whose writes are short and fail where they shall.

ghost use Rattle.std.specs.Prelude.{◌≡◌, ◌≤◌, ◌<◌, IfOk, OnErr, [], Some, length};
ghost use Rattle.nr_bytes.specs.Outside.{Takes, Rose};
ghost use Rattle.nr_bytes.specs.Memory.{TakesNext};

use crate::sink::{Sink, WriteFailed};
use std::alloc::{AllocError, Global};
use std::marker::Model;

/// A sink in memory. It takes at most `step` bytes a call, but at least 1, and no more than the room that is left.
/// It fails at the calls whose numbers, from 1, are listed, and where no room is left. Its two counts stay at
/// 2^64 - 1.
#[derive(Debug, Drop)]
pub struct MemorySink {
    bytes: Vec<u8>,
    room: usize,
    step: usize,
    fail: Vec<u64>,
    calls: u64,
    faults: u64,
}

impl Model for MemorySink {
    ghost use Rattle.std.specs.Prelude.{◌≤◌, length};
    ghost use Rattle.std.specs.Vec.{vec_capacity};
    ghost use Rattle.nr_bytes.specs.Memory.{SinkInMemory};

    ghost Value = { SinkInMemory };

    ghost view = { λ a. record {
      taken = a.bytes.items;
      room = a.room;
      step = a.step;
      fail = a.fail.items;
      calls = a.calls;
      faults = a.faults;
    } };

    ghost invariant = { λ a. (length a.bytes.items ≤ a.room) × (a.room ≤ vec_capacity a.bytes) };
}

impl MemorySink {
    /// A sink with room for `room` bytes, which it reserves.
    ///
    /// # Errors
    ///
    /// Where memory ran out.
    pub fn new(
        alloc: Global,
        step: usize,
        fail: Vec<u64>,
        room: usize,
    ) -> Result<MemorySink, AllocError>
        ensures value { IfOk result (λ sink. sink
            ≡ record { taken = []; room = room; step = step; fail = fail.items; calls = 0; faults = 0 }) }
        ensures taken { IfOk result (λ sink. ⟦<MemorySink as Sink>⟧.taken sink ≡ Some []) }
        ensures faults { IfOk result (λ sink. ⟦<MemorySink as Sink>⟧.faults sink ≡ 0) }
    {
        Ok(MemorySink {
            bytes: Vec::with_capacity(alloc, room)?,
            room,
            step,
            fail,
            calls: 0,
            faults: 0,
        })
    }

    /// The bytes that it took.
    pub fn bytes(&self) -> &[u8]
        ensures { ⟦<MemorySink as Sink>⟧.taken self.now ≡ Some result.now }
    {
        &self.bytes
    }
}

impl Sink for MemorySink {
    ghost use Rattle.std.specs.Prelude.{Some};

    ghost taken = { λ s. Some s.taken };

    ghost faults = { λ s. s.faults };

    fn write(&mut self, piece: &[u8]) -> Result<usize, WriteFailed>
        ensures some { IfOk result (λ n. (0 < n) × (n ≤ length piece.now)) }
        ensures takes { Takes result (Some self.old.taken) (Some self.new.taken) piece.now }
        ensures failed { OnErr result (Rose self.old.faults self.new.faults) }
        ensures rises { self.old.faults ≤ self.new.faults }
        ensures exactly { TakesNext result self.old self.new piece.now }
    {
        self.calls = self.calls.saturating_add(1);
        let left = self.room - self.bytes.len();
        let count = piece.len().min(self.step.max(1)).min(left);
        if self.fail.contains(&self.calls) || count == 0 {
            self.faults = self.faults.saturating_add(1);
            return Err(WriteFailed);
        }
        if self.bytes.extend_from_slice(&piece[..count]).is_err() {
            self.faults = self.faults.saturating_add(1);
            return Err(WriteFailed);
        }
        Ok(count)
    }
}
