// An output in memory.
ghost use Rattle.std.specs.Prelude.{◌≡◌, ℕ, ◌+◌, ◌-◌, ◌≤◌, ◌<◌, ◌^◌, ◌⊎◌, ◌↔◌, List, Option, Some, IsSome, IfSome, [], min, length, take, drop, IfOk, IsErr, OnOk, OnErr, Contains};
ghost use Rattle.mu_model_flash.specs.Cause.{HasCause};
ghost use Rattle.mu_outside.specs.Stream.{WriteTakes, KeepsTold};

use crate::Sink;
use crate::calls::Calls;
use crate::memory::overwrite;
use mu_model_flash::Failed;
use std::alloc::{AllocError, Global};

/// An output in memory with room for so many octets, whose octets are always told. Its calls are numbered from 1,
/// and those whose number is named fail. So does a write of a piece that isn't empty when no room is left.
#[derive(Drop)]
pub struct BytesSink {
    octets: Vec<u8>,
    filled: usize,
    calls: Calls,
    ghost within: { filled ≤ length octets.items },
}

impl BytesSink {
    ghost use Rattle.mu_outside.specs.Bytes.{sink_octets, sink_room, sink_calls, sink_fails, sink_faults};

    /// An output of which the calls with these numbers fail.
    pub fn new(alloc: Global, room: u32, fails: &[u32]) -> Result<Self, AllocError>
        ensures written { IfOk result (λ sink. sink_octets sink ≡ []) }
        ensures room { IfOk result (λ sink. sink_room sink ≡ room) }
        ensures calls { IfOk result (λ sink. sink_calls sink ≡ 0) }
        ensures fails { IfOk result (λ sink. sink_fails sink ≡ fails.now) }
        ensures faults { IfOk result (λ sink. sink_faults sink ≡ 0) }
    {
        Ok(BytesSink {
            octets: vec![in alloc; 0; room as usize]?,
            filled: 0,
            calls: Calls::new(alloc, fails)?,
        })
    }

    /// The octets written so far.
    pub fn bytes(&self) -> &[u8]
        ensures { result.now ≡ sink_octets self.now }
    {
        &self.octets[..self.filled]
    }
}

impl Sink for BytesSink {
    ghost use Rattle.mu_outside.specs.Bytes.{sink_octets, sink_room, sink_calls, sink_fails, sink_faults};

    ghost written = { λ sink. Some (sink_octets sink) };

    ghost faults = { λ sink. sink_faults sink };

    ghost bounded = { λ sink. sink.calls.counted };

    fn write(&mut self, bytes: &[u8]) -> Result<usize, Failed>
        ensures within { IfOk result (λ n. n ≤ length bytes.now) }
        ensures some { IfOk result (λ n. n ≡ 0 → length bytes.now ≡ 0) }
        ensures takes { IfOk result (λ n. WriteTakes (Some (sink_octets self.old)) (Some (sink_octets self.new)) bytes.now n) }
        ensures same { OnErr result (KeepsTold (Some (sink_octets self.old)) (Some (sink_octets self.new))) }
        ensures cause { HasCause (sink_faults self.old) (sink_faults self.new) result }

        // It takes all that fits, and fails at the named calls and where nothing of a piece fits alone.
        ensures most { IfOk result (λ n. n ≡ min (length bytes.now) (sink_room self.old)) }
        ensures room { IfOk result (λ n. sink_room self.new + n ≡ sink_room self.old) }
        ensures full { OnErr result (sink_room self.new ≡ sink_room self.old) }
        ensures fails { IsErr result ↔ (Contains (sink_fails self.old) (sink_calls self.new) ⊎ ((0 < length bytes.now) × (sink_room self.old ≡ 0))) }
        ensures calls { sink_calls self.new ≡ min (sink_calls self.old + 1) (2 ^ 64 - 1) }
        ensures keeps { sink_fails self.new ≡ sink_fails self.old }
        ensures unfailed { OnOk result (sink_faults self.new ≡ sink_faults self.old) }
    {
        self.calls.begin()?;
        let filled = self.filled;
        let count = bytes.len().min(self.octets.len() - filled);
        if count == 0 && !bytes.is_empty() {
            return Err(self.calls.fail());
        }
        overwrite(&mut self.octets, filled, &bytes[..count]);
        self.filled += count;
        Ok(count)
    }
}
