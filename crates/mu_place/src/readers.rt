// What is kept of a store that is owned.
ghost use Rattle.std.specs.Prelude.{◌≡◌, ◌*◌, ◌<◌, ◌↔◌, IsTrue, IsSome, None, false, slice_index_or};
ghost use Rattle.std.specs.List.{All, count_by};
ghost use Rattle.mu_model_record.specs.Record.{entry_of};
ghost use Rattle.mu_place.specs.Place.{place_fault, place_record, place_fresh, place_filling, place_held};

use crate::place::{FillingBank, Place};
use mu_outside::Flash;
use mu_store::{BankState, Tag};

impl<F: Flash> Place<F> {
    /// The tag of the present record. No fault is kept.
    pub fn tag(&self) -> &Tag
        requires { place_fault self.now ≡ None }
        ensures { result.now ≡ (place_record self.now).tag }
    {
        match self {
            Place::Rest(store) => store.tag(),
            Place::Fill(filling) => filling.tag(),
            Place::Halted(_) => unreachable!(),
        }
    }

    /// The count of the present record. No fault is kept.
    pub fn count(&self) -> u32
        requires { place_fault self.now ≡ None }
        ensures { result ≡ (place_record self.now).count }
    {
        match self {
            Place::Rest(store) => store.count(),
            Place::Fill(filling) => filling.count(),
            Place::Halted(_) => unreachable!(),
        }
    }

    /// How many banks there are, 2..4. No fault is kept.
    pub fn banks(&self) -> u8
        requires { place_fault self.now ≡ None }
        ensures { result ≡ (place_record self.now).number }
    {
        match self {
            Place::Rest(store) => store.banks(),
            Place::Fill(filling) => filling.banks(),
            Place::Halted(_) => unreachable!(),
        }
    }

    /// The octets of a bank. No fault is kept.
    pub fn capacity(&self) -> u32
        requires { place_fault self.now ≡ None }
        ensures { result ≡ 4096 * (place_record self.now).pages }
    {
        match self {
            Place::Rest(store) => store.capacity(),
            Place::Fill(filling) => filling.capacity(),
            Place::Halted(_) => unreachable!(),
        }
    }

    /// What the present record says of a bank, which is below `banks()`. No fault is kept.
    pub fn bank_state(&self, b: u8) -> BankState
        requires fault { place_fault self.now ≡ None }
        requires there { b < (place_record self.now).number }
        ensures { result ≡ entry_of (place_record self.now) b }
    {
        match self {
            Place::Rest(store) => store.bank_state(b),
            Place::Fill(filling) => filling.bank_state(b),
            Place::Halted(_) => unreachable!(),
        }
    }

    /// How many slots after the present record's may still be written by this run, 0..3; 0 where a fault is kept.
    pub fn fresh(&self) -> u8
        ensures { result ≡ place_fresh self.now }
    {
        match self {
            Place::Rest(store) => store.fresh(),
            Place::Fill(filling) => filling.fresh(),
            Place::Halted(_) => 0,
        }
    }

    /// The bank that is being filled, if one is.
    pub fn filling(&self) -> Option<FillingBank>
        ensures { result ≡ place_filling self.now }
    {
        match self {
            Place::Fill(filling) => Some(FillingBank {
                bank: filling.bank(),
                size: filling.size(),
                log: filling.log(),
            }),
            Place::Rest(_) => None,
            Place::Halted(_) => None,
        }
    }

    /// Whether block `i` of the bank that is being filled is held; past the last block, and where no bank is being filled, none is.
    pub fn held(&self, i: u16) -> bool
        ensures { result ≡ slice_index_or (place_held self.now) i false }
    {
        match self {
            Place::Fill(filling) => filling.held(i),
            Place::Rest(_) => false,
            Place::Halted(_) => false,
        }
    }

    /// How many blocks of the bank that is being filled are held; 0 where none is being filled.
    pub fn held_count(&self) -> u16
        ensures { result ≡ count_by (λ held. held) (place_held self.now) }
    {
        match self {
            Place::Fill(filling) => filling.held_count(),
            Place::Rest(_) => 0,
            Place::Halted(_) => 0,
        }
    }

    /// Whether a bank is being filled and each of its blocks is held, as `seal` asks for.
    pub fn is_full(&self) -> bool
        ensures { IsTrue result ↔ (IsSome (place_filling self.now) × All IsTrue (place_held self.now)) }
    {
        match self {
            Place::Fill(filling) => filling.all_held(),
            Place::Rest(_) => false,
            Place::Halted(_) => false,
        }
    }
}
