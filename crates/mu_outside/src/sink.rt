// An output.
ghost use Rattle.std.specs.Prelude.{◌≡◌, ℕ, ◌≤◌, ◌<◌, ◌^◌, List, Option, Result, length, IfOk, OnErr};
ghost use Rattle.mu_model_flash.specs.Cause.{HasCause};
ghost use Rattle.mu_outside.specs.Stream.{WriteTakes, KeepsTold};

use mu_model_flash::Failed;

/// An output that is written from its beginning.
pub trait Sink {
    /// The octets written so far, where they are told.
    ghost written: { Self → Option (List ℕ) };

    /// How many of its calls have failed, which stays at 2^64 - 1.
    ghost faults: { Self → ℕ };

    /// Appends the first octets of the piece, and answers how many: 0 only for an empty piece. A failed write appends nothing.
    fn write(&mut self, bytes: &[u8]) -> Result<usize, Failed>
        ensures within { IfOk result (λ n. n ≤ length bytes.now) }
        ensures some { IfOk result (λ n. n ≡ 0 → length bytes.now ≡ 0) }
        ensures takes { IfOk result (λ n. WriteTakes (written self.old) (written self.new) bytes.now n) }
        ensures same { OnErr result (KeepsTold (written self.old) (written self.new)) }
        ensures cause { HasCause (faults self.old) (faults self.new) result };

    ghost bounded: { (sink : Self) → faults sink < 2 ^ 64 };
}
