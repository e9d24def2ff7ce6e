// What the banks hold, read.
ghost use Rattle.std.specs.Prelude.{◌≡◌, ℕ, ◌+◌, ◌*◌, ◌<◌, ◌≤◌, IsTrue, OnOk, None, List, Result, length};
ghost use Rattle.mu_model_flash.specs.Bits.{part_of};
ghost use Rattle.mu_model_record.specs.Record.{capacity_of};
ghost use Rattle.mu_model_record.specs.Store.{StoreState, whole, bank_place, content_of_bank};
ghost use Rattle.mu_record.specs.Reads.{ReadsOnly};
ghost use Rattle.mu_place.specs.Place.{place_seen, place_fault, place_record, PlaceHolds};
ghost use Rattle.mu_kept.specs.Views.{place_in};
ghost use Rattle.mu_kept.specs.Calls.{IsSameStore};

use crate::store::JobStore;
use mu_outside::{Failed, Flash};

impl<F: Flash> JobStore<F> {
    /// Reads the octets of a bank from a place in it on. No fault is kept, the bank is below `banks()`, and the range lies in the bank. It begins
    /// no operation, and nothing changes but the flash's count of faults.
    pub fn read_bank(&mut self, b: u8, at: u32, out: &mut [u8]) -> Result<(), Failed>
        requires fault { place_fault (place_in self.old) ≡ None }
        requires there { b < (place_record (place_in self.old)).number }
        requires within { at + length out.old ≤ capacity_of (place_record (place_in self.old)) }
        ensures gives { IsTrue (place_seen F.seen (place_in self.old)).told
            → OnOk result (out.new ≡ part_of (place_seen F.seen (place_in self.old)).octets (bank_place (place_record (place_in self.old)) b + at) (length out.old)) }
        ensures image { (s : StoreState) → PlaceHolds F.seen (place_in self.old) s → (octets : List ℕ) → content_of_bank s b ≡ whole octets
            → at + length out.old ≤ length octets → OnOk result (out.new ≡ part_of octets at (length out.old)) }
        ensures same { IsSameStore self.old self.new }
        ensures holds { (s : StoreState) → PlaceHolds F.seen (place_in self.old) s → PlaceHolds F.seen (place_in self.new) s }
        ensures reads { ReadsOnly (place_seen F.seen (place_in self.old)) (place_seen F.seen (place_in self.new)) result }
    {
        self.place.read_bank(b, at, out)
    }
}
