// A clock in memory.
ghost use Rattle.std.specs.Prelude.{◌≡◌, ℕ, ◌+◌, ◌-◌, ◌^◌, ◌<◌, Some, IfSome, IfOk, List, [], ◌∷◌, ◌++◌, min};

use crate::Clock;
use std::alloc::{AllocError, Global};

/// A clock in memory: call k answers the k-th time, later calls the last one, and 0 where there is none.
#[derive(Drop)]
pub struct SetClock {
    times: Vec<u64>,
    calls: u64,
    ghost counted: { calls < 2 ^ 64 },
}

impl SetClock {
    ghost use Rattle.mu_outside.specs.SetClock.{set_times, set_calls, time_at};

    /// It has answered nothing.
    pub fn new(alloc: Global, times: &[u64]) -> Result<SetClock, AllocError>
        ensures times { IfOk result (λ clock. set_times clock ≡ times.now) }
        ensures calls { IfOk result (λ clock. set_calls clock ≡ 0) }
    {
        Ok(SetClock {
            times: Vec::from_slice(alloc, times)?,
            calls: 0,
        })
    }

    fn time(&self, call: u64) -> u64
        ensures { result ≡ time_at (set_times self.now) call }
    {
        if self.times.is_empty() {
            return 0;
        }
        if call < self.times.len() as u64 {
            self.times[call as usize]
        } else {
            self.times[self.times.len() - 1]
        }
    }
}

impl Clock for SetClock {
    ghost use Rattle.mu_outside.specs.SetClock.{set_times, set_calls, time_at, told_times};

    ghost answered = { λ clock. told_times clock.times.items clock.calls };

    fn now(&mut self) -> u64
        ensures answered { IfSome (told_times (set_times self.new) (set_calls self.new)) (λ after. (before : List ℕ) × (told_times (set_times self.old) (set_calls self.old) ≡ Some before) × (after ≡ before ++ result ∷ [])) }
        ensures value { result ≡ time_at (set_times self.old) (set_calls self.old) }
        ensures times { set_times self.new ≡ set_times self.old }
        ensures calls { set_calls self.new ≡ min (set_calls self.old + 1) (2 ^ 64 - 1) }
    {
        let call = self.calls;
        self.calls = call.saturating_add(1);
        self.time(call)
    }
}
