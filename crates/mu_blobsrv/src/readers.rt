// What a server tells its owner.
ghost use Rattle.std.specs.Prelude.{◌≡◌, ◌+◌, ◌<◌, ◌≤◌, ℕ, IsTrue, OnOk, None, List, Result, length};
ghost use Rattle.std.specs.List.{count_by};
ghost use Rattle.std.specs.Option.{option_map};
ghost use Rattle.mu_model_flash.specs.Bits.{part_of};
ghost use Rattle.mu_model_wire.specs.Reports.{complement};
ghost use Rattle.mu_model_record.specs.Record.{entry_of, capacity_of};
ghost use Rattle.mu_model_record.specs.Store.{StoreState, whole, bank_place, content_of_bank};
ghost use Rattle.mu_model_node.specs.Slots.{Slots, missing, received};
ghost use Rattle.mu_model_node.specs.BlobServer.{blob_number, server_phase};
ghost use Rattle.mu_block.specs.Coming.{chunks_of};
ghost use Rattle.mu_record.specs.Reads.{ReadsOnly};
ghost use Rattle.mu_blob_session.specs.Blocks.{is_cut_link};
ghost use Rattle.mu_place.specs.Place.{place_seen, place_record, place_held, PlaceHolds};
ghost use Rattle.mu_kept.specs.Views.{job_in, expect_of, has_parameters, flags_in, serving_in, fills_in, is_whole};
ghost use Rattle.mu_kept.specs.Shows.{Shows};
ghost use Rattle.mu_kept.specs.Calls.{note_in, IsSameStore};
ghost use Rattle.mu_blobsrv.specs.Views.{store_of, place_of, fault_of, session_of, coming_of, server_of};

use crate::server::BlobServer;
use mu_kept::{Expect, Note};
use mu_outside::{Failed, Flash};
use mu_report::NumberSet;
use mu_store::{BankState, StoreFault};

impl<F: Flash> BlobServer<F> {
    /// The fault that is kept.
    pub fn fault(&self) -> Option<StoreFault>
        ensures { result ≡ fault_of self.now }
    {
        self.store.fault()
    }

    /// The phase of the transfer as it stands on the wire, 0 to 5 (MshMBT, Transfer Phase). No fault is kept.
    pub fn phase(&self) -> u8
        requires { fault_of self.now ≡ None }
        ensures { (held : Slots) (now : ℕ) → result ≡ blob_number (server_phase (server_of self.now held now)) }
    {
        self.session.phase_number(self.store.kept())
    }

    /// The chunks of the block that comes that are missing: those below its count that weren't received since it began. The empty set below 0
    /// where no block comes. No fault is kept.
    pub fn missing(&self) -> NumberSet
        requires { fault_of self.now ≡ None }
        ensures missing { result ≡ missing (chunks_of (coming_of self.now)) }
        ensures rest { result ≡ complement (received (chunks_of (coming_of self.now))) }
    {
        self.session.missing()
    }

    /// The blocks of the job that are missing: those below its count that aren't held. The empty set below 0 without parameters. No fault is kept.
    pub fn blocks_missing(&self) -> NumberSet
        requires { fault_of self.now ≡ None }
        ensures rest { result ≡ complement (flags_in (store_of self.now)) }
        ensures missing { (held : Slots) → Shows (store_of self.now) held → result ≡ missing held }
    {
        self.store.blocks_missing()
    }

    /// What is expected for the job, if there is one. No fault is kept.
    pub fn job(&self) -> Option<Expect>
        requires { fault_of self.now ≡ None }
        ensures { result ≡ option_map expect_of (job_in (store_of self.now)) }
    {
        self.store.job()
    }

    /// Whether there is a job with parameters: a transfer of it was begun. No fault is kept.
    pub fn has_parameters(&self) -> bool
        requires { fault_of self.now ≡ None }
        ensures { result ≡ has_parameters (job_in (store_of self.now)) }
    {
        self.store.has_parameters()
    }

    /// Whether the job's bank is being filled. No fault is kept.
    pub fn fills(&self) -> bool
        requires { fault_of self.now ≡ None }
        ensures { result ≡ fills_in (store_of self.now) }
    {
        self.store.fills()
    }

    /// Whether there is a job of which each block is held. No fault is kept.
    pub fn is_whole(&self) -> bool
        requires { fault_of self.now ≡ None }
        ensures { result ≡ is_whole (serving_in (store_of self.now)) }
    {
        self.store.is_whole()
    }

    /// Whether the link is Cut. No fault is kept.
    pub fn is_cut(&self) -> bool
        requires { fault_of self.now ≡ None }
        ensures { result ≡ is_cut_link (session_of self.now).link }
    {
        self.session.is_cut()
    }

    /// How many blocks of the bank that is being filled are held; 0 where none is being filled. No fault is kept.
    pub fn held_count(&self) -> u16
        requires { fault_of self.now ≡ None }
        ensures { result ≡ count_by (λ held. held) (place_held (place_of self.now)) }
    {
        self.store.held_count()
    }

    /// What the present record says of a bank, which is below `banks()`. No fault is kept.
    pub fn bank_state(&self, b: u8) -> BankState
        requires fault { fault_of self.now ≡ None }
        requires there { b < (place_record (place_of self.now)).number }
        ensures { result ≡ entry_of (place_record (place_of self.now)) b }
    {
        self.store.bank_state(b)
    }

    /// How many banks there are, 2..4. No fault is kept.
    pub fn banks(&self) -> u8
        requires { fault_of self.now ≡ None }
        ensures { result ≡ (place_record (place_of self.now)).number }
    {
        self.store.banks()
    }

    /// The octets of a bank. No fault is kept.
    pub fn capacity(&self) -> u32
        requires { fault_of self.now ≡ None }
        ensures { result ≡ capacity_of (place_record (place_of self.now)) }
    {
        self.store.capacity()
    }

    /// The note of the present record. No fault is kept.
    pub fn note(&self) -> &Note
        requires { fault_of self.now ≡ None }
        ensures { result.now ≡ note_in (store_of self.now) }
    {
        self.store.note()
    }

    /// The count of the present record. No fault is kept.
    pub fn count(&self) -> u32
        requires { fault_of self.now ≡ None }
        ensures { result ≡ (place_record (place_of self.now)).count }
    {
        self.store.count()
    }

    /// Reads the octets of a bank from a place in it on. No fault is kept, the bank is below `banks()`, and the range lies in the bank. It begins
    /// no operation, and nothing changes but the flash's count of faults.
    pub fn read_bank(&mut self, b: u8, at: u32, out: &mut [u8]) -> Result<(), Failed>
        requires fault { fault_of self.old ≡ None }
        requires there { b < (place_record (place_of self.old)).number }
        requires within { at + length out.old ≤ capacity_of (place_record (place_of self.old)) }
        ensures gives { IsTrue (place_seen F.seen (place_of self.old)).told
            → OnOk result (out.new ≡ part_of (place_seen F.seen (place_of self.old)).octets (bank_place (place_record (place_of self.old)) b + at) (length out.old)) }
        ensures image { (s : StoreState) → PlaceHolds F.seen (place_of self.old) s → (octets : List ℕ) → content_of_bank s b ≡ whole octets
            → at + length out.old ≤ length octets → OnOk result (out.new ≡ part_of octets at (length out.old)) }
        ensures same { IsSameStore (store_of self.old) (store_of self.new) }
        ensures session { session_of self.new ≡ session_of self.old }
        ensures holds { (s : StoreState) → PlaceHolds F.seen (place_of self.old) s → PlaceHolds F.seen (place_of self.new) s }
        ensures reads { ReadsOnly (place_seen F.seen (place_of self.old)) (place_seen F.seen (place_of self.new)) result }
    {
        self.store.read_bank(b, at, out)
    }
}
