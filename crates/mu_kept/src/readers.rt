// What is kept, read.
ghost use Rattle.std.specs.Prelude.{◌≡◌, ◌<◌, ◌≤◌, Bool, List, None, Some, false, length, slice_index_or};
ghost use Rattle.std.specs.List.{count_by, list_all};
ghost use Rattle.std.specs.Option.{option_map};
ghost use Rattle.mu_model_record.specs.Record.{entry_of, capacity_of};
ghost use Rattle.mu_model_node.specs.Slots.{Slots};
ghost use Rattle.mu_blob_rows.specs.Looks.{serving_with};
ghost use Rattle.mu_blob_rows.specs.Rows.{BlocksLookSo};
ghost use Rattle.mu_blob_session.specs.Sound.{IsSoundServing, blocks_of};
ghost use Rattle.mu_place.specs.Place.{place_fault, place_record, place_fresh, place_held};
ghost use Rattle.mu_kept.specs.Views.{place_in, job_in, expect_of, has_parameters, fills_in, flags_in, serving_of, serving_in, kept_in, is_whole, blocks_in};
ghost use Rattle.mu_kept.specs.Shows.{Shows, served_with};
ghost use Rattle.mu_kept.specs.Calls.{note_in};
ghost use Rattle.mu_kept.specs.Standing.{StandsSo};

use crate::store::{Expect, JobStore};
use mu_arith::block_count;
use mu_blob_rows::{BlocksLook, Serving, TransferLook};
use mu_blob_session::Kept;
use mu_note::{BlobJob, Note, note_of};
use mu_outside::Flash;
use mu_store::BankState;

// How the blocks of a job stand: there is none, or they are those of the bank that is being filled, or so many are all held.
#[derive(Clone, Copy)]
enum Standing {
    Nothing,
    Filling,
    Sealed(u16),
}

// What the rows look at of a job, of which all blocks are held or not.
fn serving_of(job: &Option<BlobJob>, all: bool) -> Serving
    ensures { (flags : List Bool) → all ≡ list_all (λ held. held) flags → result ≡ serving_of job.now flags }
{
    let Some(job) = job else {
        return Serving::NoJob;
    };
    let transfer = TransferLook {
        id: job.id,
        size: job.size,
        base: job.base,
        parameters: job.parameters,
    };
    match job.parameters {
        Some(_) if all => Serving::Whole(transfer),
        _ => Serving::Lacking(transfer),
    }
}

impl<F: Flash> JobStore<F> {
    /// What is expected for the job, if there is one.
    pub fn job(&self) -> Option<Expect>
        ensures { result ≡ option_map expect_of (job_in self.now) }
    {
        match self.job {
            None => None,
            Some(job) => Some(Expect {
                id: job.id,
                size: job.size,
                base: job.base,
                bank: job.bank,
            }),
        }
    }

    /// Whether there is a job with parameters: a transfer of it was begun.
    pub fn has_parameters(&self) -> bool
        ensures { result ≡ has_parameters (job_in self.now) }
    {
        match self.job {
            None => false,
            Some(job) => job.parameters.is_some(),
        }
    }

    /// Whether the job's bank is being filled. No fault is kept.
    pub fn fills(&self) -> bool
        requires { place_fault (place_in self.now) ≡ None }
        ensures { result ≡ fills_in self.now }
    {
        match self.job {
            None => false,
            Some(job) => matches!(self.place.bank_state(job.bank), BankState::Filling { .. }),
        }
    }

    // How the blocks of the job stand.
    fn standing(&self) -> Standing
        requires { place_fault (place_in self.now) ≡ None }
        ensures { StandsSo result (place_in self.now) (flags_in self.now) }
    {
        self.known();
        match self.job {
            None => Standing::Nothing,
            Some(job) => match job.parameters {
                None => Standing::Nothing,
                Some(parameters) => match self.place.bank_state(job.bank) {
                    BankState::Empty => Standing::Nothing,
                    BankState::Filling { .. } => Standing::Filling,
                    BankState::Sealed(_) => {
                        Standing::Sealed(block_count(parameters.size, parameters.log))
                    }
                },
            },
        }
    }

    // How many blocks the job has, 0 without parameters.
    pub(crate) fn block_total(&self) -> u16
        requires { place_fault (place_in self.now) ≡ None }
        ensures count { result ≡ length (flags_in self.now) }
        ensures few { result ≤ 256 }
    {
        self.known();
        match self.job {
            None => 0,
            Some(job) => match job.parameters {
                None => 0,
                Some(parameters) => block_count(parameters.size, parameters.log),
            },
        }
    }

    /// Whether a block of the job is held; past the last block, and without parameters, none is. No fault is kept.
    pub fn held(&self, block: u16) -> bool
        requires { place_fault (place_in self.now) ≡ None }
        ensures { result ≡ slice_index_or (flags_in self.now) block false }
    {
        match self.standing() {
            Standing::Nothing => false,
            Standing::Filling => self.place.held(block),
            Standing::Sealed(count) => block < count,
        }
    }

    /// Whether the job has parameters and all its blocks are held. No fault is kept.
    pub fn is_whole(&self) -> bool
        requires { place_fault (place_in self.now) ≡ None }
        ensures { result ≡ is_whole (serving_in self.now) }
    {
        matches!(self.kept().serving, Serving::Whole(_))
    }

    // Whether each block of the job is held; so it is without parameters.
    fn are_held(&self) -> bool
        requires { place_fault (place_in self.now) ≡ None }
        ensures { result ≡ list_all (λ held. held) (flags_in self.now) }
    {
        match self.standing() {
            Standing::Nothing => true,
            Standing::Filling => self.place.is_full(),
            Standing::Sealed(_) => true,
        }
    }

    /// How many blocks the job has, 0 without parameters, and whether one of them is held. No fault is kept.
    pub fn blocks(&self, block: u16) -> BlocksLook
        requires { place_fault (place_in self.now) ≡ None }
        ensures looks { result ≡ blocks_in self.now block }
        ensures count { result.count ≡ blocks_of (serving_in self.now) }
        ensures so { (held : Slots) → Shows self.now held → BlocksLookSo held block result }
    {
        self.known();
        BlocksLook {
            count: self.block_total(),
            is_held: self.held(block),
        }
    }

    /// What the rows look at of what is kept. No fault is kept.
    pub fn kept(&self) -> Kept
        requires { place_fault (place_in self.now) ≡ None }
        ensures looks { result ≡ kept_in self.now }
        ensures sound { IsSoundServing result.serving }
        ensures shows { (held : Slots) → Shows self.now held → serving_with result.serving held ≡ served_with (job_in self.now) held }
    {
        self.known();
        Kept {
            capacity: self.place.capacity(),
            serving: serving_of(&self.job, self.are_held()),
        }
    }

    /// The note of the present record. No fault is kept.
    pub fn note(&self) -> &Note
        requires { place_fault (place_in self.now) ≡ None }
        ensures { result.now ≡ note_in self.now }
    {
        note_of(self.place.tag())
    }

    /// The count of the present record. No fault is kept.
    pub fn count(&self) -> u32
        requires { place_fault (place_in self.now) ≡ None }
        ensures { result ≡ (place_record (place_in self.now)).count }
    {
        self.place.count()
    }

    /// How many banks there are, 2..4. No fault is kept.
    pub fn banks(&self) -> u8
        requires { place_fault (place_in self.now) ≡ None }
        ensures { result ≡ (place_record (place_in self.now)).number }
    {
        self.place.banks()
    }

    /// The octets of a bank. No fault is kept.
    pub fn capacity(&self) -> u32
        requires { place_fault (place_in self.now) ≡ None }
        ensures { result ≡ capacity_of (place_record (place_in self.now)) }
    {
        self.place.capacity()
    }

    /// What the present record says of a bank, which is below `banks()`. No fault is kept.
    pub fn bank_state(&self, b: u8) -> BankState
        requires fault { place_fault (place_in self.now) ≡ None }
        requires there { b < (place_record (place_in self.now)).number }
        ensures { result ≡ entry_of (place_record (place_in self.now)) b }
    {
        self.place.bank_state(b)
    }

    /// How many slots after the present record's may still be written by this run, 0..3; 0 where a fault is kept.
    pub fn fresh(&self) -> u8
        ensures { result ≡ place_fresh (place_in self.now) }
    {
        self.place.fresh()
    }

    /// How many blocks of the bank that is being filled are held; 0 where none is being filled.
    pub fn held_count(&self) -> u16
        ensures { result ≡ count_by (λ held. held) (place_held (place_in self.now)) }
    {
        self.place.held_count()
    }
}
