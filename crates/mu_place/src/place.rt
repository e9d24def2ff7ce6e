// A store that is owned, in whichever typed state it is.
ghost use Rattle.std.specs.Prelude.{◌≡◌, None};

use mu_outside::Flash;
use mu_store::{Booted, Filling, Stopped, Store, StoreFault};

/// A store that is owned: at rest, with a bank that is being filled, or halted by a fault, which is kept with the flash. The way on from
/// there is `boot`.
#[derive(Drop)]
pub enum Place<F: Flash> {
    Rest(Store<F>),
    Fill(Filling<F>),
    Halted(Stopped<F>),
}

/// The bank that is being filled, with the octets of its image and the log of its blocks, 12..14.
#[derive(Clone, Copy, Debug, PartialEq, Eq)]
pub struct FillingBank {
    pub bank: u8,
    pub size: u32,
    pub log: u8,
}

impl<F: Flash> Place<F> {
    ghost use Rattle.mu_model_record.specs.Store.{StoreState};
    ghost use Rattle.mu_store.specs.Booted.{BootedHolds};
    ghost use Rattle.mu_place.specs.Place.{placed, place_flash, place_fault, PlaceHolds};

    /// The store that a boot found.
    pub fn new(booted: Booted<F>) -> Place<F>
        ensures is { result ≡ placed booted }
        ensures fault { place_fault result ≡ None }
        ensures holds { (s : StoreState) → BootedHolds F.seen booted s → PlaceHolds F.seen result s }
    {
        match booted {
            Booted::Rest(store) => Place::Rest(store),
            Booted::Fill(filling) => Place::Fill(filling),
        }
    }

    /// The fault that is kept.
    pub fn fault(&self) -> Option<StoreFault>
        ensures { result ≡ place_fault self.now }
    {
        match self {
            Place::Rest(_) => None,
            Place::Fill(_) => None,
            Place::Halted(stopped) => Some(stopped.why),
        }
    }

    /// The flash that it owns.
    pub fn flash(&self) -> &F
        ensures { result.now ≡ place_flash self.now }
    {
        match self {
            Place::Rest(store) => store.flash(),
            Place::Fill(filling) => filling.flash(),
            Place::Halted(stopped) => &stopped.flash,
        }
    }

    /// The flash that it owned.
    pub fn into_flash(self) -> F
        ensures { result ≡ place_flash self }
    {
        match self {
            Place::Rest(store) => store.into_flash(),
            Place::Fill(filling) => filling.into_flash(),
            Place::Halted(stopped) => stopped.flash,
        }
    }
}
