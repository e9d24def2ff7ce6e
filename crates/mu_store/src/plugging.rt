// A store on a flash whose power can be cut.
ghost use Rattle.std.specs.Prelude.{◌≡◌, ◌<◌, Some, None, false};
ghost use Rattle.mu_model_flash.specs.Flash.{ArmedAs};
ghost use Rattle.mu_model_record.specs.Store.{StoreState};
ghost use Rattle.mu_store.specs.Booted.{FillingHolds};
ghost use Rattle.mu_store.specs.View.{store_flash, store_record, store_fresh, StoreHolds};
ghost use Rattle.mu_store.specs.FillingView.{filling_flash, IsSameFilling};

use crate::base::Base;
use crate::filling::Filling;
use crate::store::Store;
use mu_outside::{Pattern, Plug};

impl<F: Plug> Base<F> {
    fn arm(&mut self, n: u32, pattern: Pattern)
        requires some { 0 < n }
        requires on { (F.Flash.seen self.old.flash).off ≡ false }
        ensures armed { ArmedAs (Some (record { number = n; pattern = pattern })) (F.Flash.seen self.old.flash) (F.Flash.seen self.new.flash) }
        ensures fields { self.new.fields ≡ self.old.fields }
        ensures place { self.new.place ≡ self.old.place }
    {
        self.flash.arm(n, pattern);
    }

    fn disarm(&mut self)
        requires { (F.Flash.seen self.old.flash).off ≡ false }
        ensures armed { ArmedAs None (F.Flash.seen self.old.flash) (F.Flash.seen self.new.flash) }
        ensures fields { self.new.fields ≡ self.old.fields }
        ensures place { self.new.place ≡ self.old.place }
    {
        self.flash.disarm();
    }
}

impl<F: Plug> Store<F> {
    /// Arms the n-th operation of the flash from now, in place of an earlier one. `n` is at least 1, and the power is on. Nothing else changes.
    pub fn arm(&mut self, n: u32, pattern: Pattern)
        requires some { 0 < n }
        requires on { (F.Flash.seen (store_flash self.old)).off ≡ false }
        ensures armed { ArmedAs (Some (record { number = n; pattern = pattern })) (F.Flash.seen (store_flash self.old)) (F.Flash.seen (store_flash self.new)) }
        ensures fields { store_record self.new ≡ store_record self.old }
        ensures fresh { store_fresh self.new ≡ store_fresh self.old }
        ensures holds { (d : StoreState) → StoreHolds F.Flash.seen self.old d → StoreHolds F.Flash.seen self.new d }
    {
        self.base.arm(n, pattern);
    }

    /// Makes the armed operation of the flash none. The power is on. Nothing else changes.
    pub fn disarm(&mut self)
        requires { (F.Flash.seen (store_flash self.old)).off ≡ false }
        ensures armed { ArmedAs None (F.Flash.seen (store_flash self.old)) (F.Flash.seen (store_flash self.new)) }
        ensures fields { store_record self.new ≡ store_record self.old }
        ensures fresh { store_fresh self.new ≡ store_fresh self.old }
        ensures holds { (d : StoreState) → StoreHolds F.Flash.seen self.old d → StoreHolds F.Flash.seen self.new d }
    {
        self.base.disarm();
    }
}

impl<F: Plug> Filling<F> {
    /// Arms the n-th operation of the flash from now, in place of an earlier one. `n` is at least 1, and the power is on. Nothing else changes.
    pub fn arm(&mut self, n: u32, pattern: Pattern)
        requires some { 0 < n }
        requires on { (F.Flash.seen (filling_flash self.old)).off ≡ false }
        ensures armed { ArmedAs (Some (record { number = n; pattern = pattern })) (F.Flash.seen (filling_flash self.old)) (F.Flash.seen (filling_flash self.new)) }
        ensures same { IsSameFilling self.old self.new }
        ensures holds { (d : StoreState) → FillingHolds F.Flash.seen self.old d → FillingHolds F.Flash.seen self.new d }
    {
        self.base.arm(n, pattern);
    }

    /// Makes the armed operation of the flash none. The power is on. Nothing else changes.
    pub fn disarm(&mut self)
        requires { (F.Flash.seen (filling_flash self.old)).off ≡ false }
        ensures armed { ArmedAs None (F.Flash.seen (filling_flash self.old)) (F.Flash.seen (filling_flash self.new)) }
        ensures same { IsSameFilling self.old self.new }
        ensures holds { (d : StoreState) → FillingHolds F.Flash.seen self.old d → FillingHolds F.Flash.seen self.new d }
    {
        self.base.disarm();
    }
}
