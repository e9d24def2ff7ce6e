// An input.
ghost use Rattle.std.specs.Prelude.{◌≡◌, ℕ, ◌≤◌, ◌<◌, ◌^◌, List, Option, Result, length, IfOk, OnErr};
ghost use Rattle.mu_model_flash.specs.Cause.{HasCause};
ghost use Rattle.mu_outside.specs.Stream.{ReadGives, KeepsTold};

use mu_model_flash::Failed;

/// An input that is read to its end.
pub trait Source {
    /// The octets left, where they are told.
    ghost left: { Self → Option (List ℕ) };

    /// How many of its calls have failed, which stays at 2^64 - 1.
    ghost faults: { Self → ℕ };

    /// Reads at most so many octets as `out` has, and answers how many. 0 into an `out` that isn't empty is the end of the input.
    /// A failed read leaves the octets left as they were.
    fn read(&mut self, out: &mut [u8]) -> Result<usize, Failed>
        ensures within { IfOk result (λ n. n ≤ length out.old) }
        ensures gives { IfOk result (λ n. ReadGives (left self.old) (left self.new) out.new n) }
        ensures same { OnErr result (KeepsTold (left self.old) (left self.new)) }
        ensures cause { HasCause (faults self.old) (faults self.new) result };

    ghost bounded: { (source : Self) → faults source < 2 ^ 64 };
}
