// What the banks of a store hold, read.
ghost use Rattle.std.specs.Prelude.{◌≡◌, ℕ, ◌+◌, ◌*◌, ◌<◌, ◌≤◌, IsTrue, OnOk, List, Result, length};
ghost use Rattle.mu_model_flash.specs.Bits.{part_of};
ghost use Rattle.mu_model_record.specs.Store.{StoreState, whole, bank_place, content_of_bank};
ghost use Rattle.mu_record.specs.Reads.{ReadsOnly};
ghost use Rattle.mu_store.specs.Booted.{FillingHolds};
ghost use Rattle.mu_store.specs.View.{store_flash, store_record, store_fresh, StoreHolds};
ghost use Rattle.mu_store.specs.FillingView.{filling_flash, filling_record, filling_fresh, IsSameFilling};

use crate::base::Base;
use crate::digest::bank_place;
use crate::filling::Filling;
use crate::laws::known;
use crate::store::Store;
use mu_outside::{Failed, Flash};

impl<F: Flash> Base<F> {
    // Reads the octets of a bank from a place in it on. It begins no operation.
    fn read_bank(&mut self, bank: u8, at: u32, out: &mut [u8]) -> Result<(), Failed>
        requires there { bank < self.old.fields.number }
        requires within { at + length out.old ≤ 4096 * self.old.fields.pages }
        ensures gives { IsTrue (F.seen self.old.flash).told → OnOk result (out.new ≡ part_of (F.seen self.old.flash).octets (bank_place self.old.fields bank + at) (length out.old)) }
        ensures fields { self.new.fields ≡ self.old.fields }
        ensures place { self.new.place ≡ self.old.place }
        ensures reads { ReadsOnly (F.seen self.old.flash) (F.seen self.new.flash) result }
    {
        let from = bank_place(&self.fields, bank) + at;
        self.flash.read(from, out)?;
        Ok(())
    }
}

impl<F: Flash> Store<F> {
    /// Reads the octets of a bank from a place in it on. The bank is below `banks()`, and the range lies in the bank. It begins no operation, and
    /// nothing changes but the flash's count of faults.
    pub fn read_bank(&mut self, b: u8, at: u32, out: &mut [u8]) -> Result<(), Failed>
        requires there { b < (store_record self.old).number }
        requires within { at + length out.old ≤ 4096 * (store_record self.old).pages }
        ensures gives { IsTrue (F.seen (store_flash self.old)).told
            → OnOk result (out.new ≡ part_of (F.seen (store_flash self.old)).octets (bank_place (store_record self.old) b + at) (length out.old)) }
        ensures image { (d : StoreState) → StoreHolds F.seen self.old d → (octets : List ℕ) → content_of_bank d b ≡ whole octets
            → at + length out.old ≤ length octets → OnOk result (out.new ≡ part_of octets at (length out.old)) }
        ensures fields { store_record self.new ≡ store_record self.old }
        ensures fresh { store_fresh self.new ≡ store_fresh self.old }
        ensures holds { (d : StoreState) → StoreHolds F.seen self.old d → StoreHolds F.seen self.new d }
        ensures reads { ReadsOnly (F.seen (store_flash self.old)) (F.seen (store_flash self.new)) result }
    {
        known();
        self.base.read_bank(b, at, out)?;
        Ok(())
    }
}

impl<F: Flash> Filling<F> {
    /// Reads the octets of a bank from a place in it on. The bank is below `banks()`, and the range lies in the bank. It begins no operation, and
    /// nothing changes but the flash's count of faults.
    pub fn read_bank(&mut self, b: u8, at: u32, out: &mut [u8]) -> Result<(), Failed>
        requires there { b < (filling_record self.old).number }
        requires within { at + length out.old ≤ 4096 * (filling_record self.old).pages }
        ensures gives { IsTrue (F.seen (filling_flash self.old)).told
            → OnOk result (out.new ≡ part_of (F.seen (filling_flash self.old)).octets (bank_place (filling_record self.old) b + at) (length out.old)) }
        ensures image { (d : StoreState) → FillingHolds F.seen self.old d → (octets : List ℕ) → content_of_bank d b ≡ whole octets
            → at + length out.old ≤ length octets → OnOk result (out.new ≡ part_of octets at (length out.old)) }
        ensures same { IsSameFilling self.old self.new }
        ensures holds { (d : StoreState) → FillingHolds F.seen self.old d → FillingHolds F.seen self.new d }
        ensures reads { ReadsOnly (F.seen (filling_flash self.old)) (F.seen (filling_flash self.new)) result }
    {
        known();
        self.base.read_bank(b, at, out)?;
        Ok(())
    }
}
