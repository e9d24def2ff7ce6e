// Requests on receivers, done in memory.
ghost use Rattle.std.specs.Prelude.{◌≡◌, ◌≤◌, IfErr, OnErr};
ghost use Rattle.std.specs.List.{AllByRecursion};
ghost use Rattle.mu_model_distributor.specs.DistState.{DistState};
ghost use Rattle.mu_model_distributor.specs.Receivers.{receivers_add, receivers_delete_all};
ghost use Rattle.mu_model_distributor.specs.Sound.{IsEntry};
ghost use Rattle.mu_distributor_rows.specs.Due.{IsDueOf};
ghost use Rattle.mu_distributor_rows.specs.Receivers.{entries_of, rows_stepped, with_rows};
ghost use Rattle.mu_distributor_memory.specs.Shows.{rows_in, IsMemoryOf, SameHead};

use crate::memory::Memory;
use mu_distributor_rows::{receivers_add, receivers_delete_all};

impl Memory {
    /// Firmware Distribution Receivers Add: each new address is added, and one that is there is passed over. Answers whether what is kept changes, or
    /// the status that refuses: 7 while a distribution isn't Idle, 1 where more than 128 would stand.
    pub fn add_receivers(&mut self, entries: &[(u16, u8)]) -> Result<bool, u8>
        requires { AllByRecursion IsEntry (entries_of entries.now) }
        ensures known { IfErr result (λ status. status ≤ 13) }
        ensures same { SameHead self.old self.new }
        ensures step { (s : DistState) → IsMemoryOf self.old s → receivers_add s (entries_of entries.now) ≡ rows_stepped s (rows_in self.new) result }
        ensures due { (s : DistState) → IsMemoryOf self.old s → IsDueOf result s (with_rows s (rows_in self.new)) }
        ensures refused { OnErr result (rows_in self.new ≡ rows_in self.old) }
    {
        receivers_add(&mut self.rows, self.head.phase, entries)
    }

    /// Firmware Distribution Receivers Delete All. Answers whether what is kept changes, or 7 while a distribution isn't Idle.
    pub fn delete_receivers(&mut self) -> Result<bool, u8>
        ensures known { IfErr result (λ status. status ≤ 13) }
        ensures same { SameHead self.old self.new }
        ensures step { (s : DistState) → IsMemoryOf self.old s → receivers_delete_all s ≡ rows_stepped s (rows_in self.new) result }
        ensures due { (s : DistState) → IsMemoryOf self.old s → IsDueOf result s (with_rows s (rows_in self.new)) }
        ensures refused { OnErr result (rows_in self.new ≡ rows_in self.old) }
    {
        receivers_delete_all(&mut self.rows, self.head.phase)
    }
}
