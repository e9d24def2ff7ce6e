// An input in memory.
ghost use Rattle.std.specs.Prelude.{◌≡◌, ℕ, ◌+◌, ◌-◌, ◌≤◌, ◌<◌, ◌^◌, ◌↔◌, ◌++◌, List, Option, Some, IsSome, IfSome, min, length, take, drop, IfOk, IsErr, OnOk, OnErr, Contains};
ghost use Rattle.mu_model_flash.specs.Cause.{HasCause};
ghost use Rattle.mu_outside.specs.Stream.{ReadGives, KeepsTold};

use crate::Source;
use crate::calls::Calls;
use mu_model_flash::Failed;
use std::alloc::{AllocError, Global};

/// An input in memory, whose octets are always told. Its calls are numbered from 1, and those whose number is named fail.
#[derive(Drop)]
pub struct BytesSource {
    octets: Vec<u8>,
    at: usize,
    calls: Calls,
    ghost within: { at ≤ length octets.items },
}

impl BytesSource {
    ghost use Rattle.mu_outside.specs.Bytes.{source_octets, source_calls, source_fails, source_faults};

    /// An input of these octets, of which the calls with these numbers fail.
    pub fn new(alloc: Global, bytes: &[u8], fails: &[u32]) -> Result<Self, AllocError>
        ensures left { IfOk result (λ source. source_octets source ≡ bytes.now) }
        ensures calls { IfOk result (λ source. source_calls source ≡ 0) }
        ensures fails { IfOk result (λ source. source_fails source ≡ fails.now) }
        ensures faults { IfOk result (λ source. source_faults source ≡ 0) }
    {
        Ok(BytesSource {
            octets: Vec::from_slice(alloc, bytes)?,
            at: 0,
            calls: Calls::new(alloc, fails)?,
        })
    }
}

impl Source for BytesSource {
    ghost use Rattle.mu_outside.specs.Bytes.{source_octets, source_calls, source_fails, source_faults};

    ghost left = { λ source. Some (source_octets source) };

    ghost faults = { λ source. source_faults source };

    ghost bounded = { λ source. source.calls.counted };

    fn read(&mut self, out: &mut [u8]) -> Result<usize, Failed>
        ensures within { IfOk result (λ n. n ≤ length out.old) }
        ensures gives { IfOk result (λ n. ReadGives (Some (source_octets self.old)) (Some (source_octets self.new)) out.new n) }
        ensures same { OnErr result (KeepsTold (Some (source_octets self.old)) (Some (source_octets self.new))) }
        ensures cause { HasCause (source_faults self.old) (source_faults self.new) result }

        // It gives all that it has and `out` takes, and fails at the named calls alone.
        ensures most { IfOk result (λ n. n ≡ min (length (source_octets self.old)) (length out.old)) }
        ensures fails { IsErr result ↔ Contains (source_fails self.old) (source_calls self.new) }
        ensures calls { source_calls self.new ≡ min (source_calls self.old + 1) (2 ^ 64 - 1) }
        ensures keeps { source_fails self.new ≡ source_fails self.old }
        ensures unfailed { OnOk result (source_faults self.new ≡ source_faults self.old) }
    {
        self.calls.begin()?;
        let rest = &self.octets[self.at..];
        let count = rest.len().min(out.len());
        out[..count].copy_from_slice(&rest[..count]);
        self.at += count;
        Ok(count)
    }
}
