// A flash as its callers see it.
ghost use Rattle.std.specs.Prelude.{◌≡◌, ◌+◌, ◌*◌, ◌<◌, ◌≤◌, [], ◌∷◌, Some, None, true, false, length, slice_range, IsTrue, OnOk, Result};
ghost use Rattle.mu_model_flash.specs.Bits.{blank, written};
ghost use Rattle.mu_model_flash.specs.Cause.{HasCause};
ghost use Rattle.mu_model_flash.specs.Flash.{Seen, IsSound, Unchanged, LeftByPattern, ArmedAs};
ghost use Rattle.mu_model_flash.specs.Run.{exact, Runs};

use mu_model_flash::{Failed, Pattern};

/// A flash of pages of 4,096 octets. An erased page reads FF. An operation is a program or an erase.
pub trait Flash {
    /// All that it means at a moment.
    ghost seen: { Self → Seen };

    /// The number of pages.
    fn pages(&self) -> u32
        ensures { result ≡ (seen self.now).pages };

    /// Reads the octets from `at` on, which lie in the flash. It begins no operation, and no meaning changes but the count of faults.
    fn read(&mut self, at: u32, out: &mut [u8]) -> Result<(), Failed>
        requires { at + length out.old ≤ 4096 * (seen self.old).pages }
        ensures gives { OnOk result (IsTrue (seen self.old).told → out.new ≡ slice_range (seen self.old).octets at (at + length out.old)) }
        ensures same { Unchanged (seen self.old) (seen self.new) }
        ensures runs { Runs exact (seen self.old).octets [] (seen self.old) (seen self.new) result }
        ensures cause { HasCause (seen self.old).faults (seen self.new).faults result };

    /// One operation: sets 1..4,096 octets from `at` on, which lie in the flash and read FF before.
    fn program(&mut self, at: u32, bytes: &[u8]) -> Result<(), Failed>
        requires some { 0 < length bytes.now }
        requires few { length bytes.now ≤ 4096 }
        requires within { at + length bytes.now ≤ 4096 * (seen self.old).pages }
        requires is_blank { IsTrue (seen self.old).told → slice_range (seen self.old).octets at (at + length bytes.now) ≡ blank (length bytes.now) }
        ensures runs { Runs exact (seen self.old).octets (written (seen self.old).octets at bytes.now ∷ []) (seen self.old) (seen self.new) result }
        ensures torn { LeftByPattern (seen self.old) (seen self.new) at bytes.now }
        ensures cause { HasCause (seen self.old).faults (seen self.new).faults result };

    /// One operation: sets the octets of a page of the flash to FF.
    fn erase(&mut self, page: u32) -> Result<(), Failed>
        requires { page < (seen self.old).pages }
        ensures runs { Runs exact (seen self.old).octets (written (seen self.old).octets (4096 * page) (blank 4096) ∷ []) (seen self.old) (seen self.new) result }
        ensures torn { LeftByPattern (seen self.old) (seen self.new) (4096 * page) (blank 4096) }
        ensures cause { HasCause (seen self.old).faults (seen self.new).faults result };

    ghost sound: { (flash : Self) → IsSound (seen flash) };
}

/// The switch of a flash that can be cut.
pub trait Plug: Flash {
    /// Arms the n-th operation from now, in place of an earlier one: it will leave its range by the pattern and fail, and the power
    /// will be off from then on. `n` is at least 1 and the power is on.
    fn arm(&mut self, n: u32, pattern: Pattern)
        requires some { 0 < n }
        requires on { (Self.Flash.seen self.old).off ≡ false }
        ensures { ArmedAs (Some (record { number = n; pattern = pattern })) (Self.Flash.seen self.old) (Self.Flash.seen self.new) };

    /// Makes the armed operation none. The power is on.
    fn disarm(&mut self)
        requires { (Self.Flash.seen self.old).off ≡ false }
        ensures { ArmedAs None (Self.Flash.seen self.old) (Self.Flash.seen self.new) };
}
