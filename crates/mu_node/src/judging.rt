// Whether the present record of a server is a node's.
ghost use Rattle.std.specs.Prelude.{◌≡◌, ◌↔◌, ◌<◌, IsTrue, IfSome, None, Some, List, ℕ, Option, slice_get, is_some};
ghost use Rattle.std.specs.List.{AllByRecursion};
ghost use Rattle.std.specs.Option.{option_map};
ghost use Rattle.mu_model_record.specs.declared.BankState.TheVariants.{Sealed};
ghost use Rattle.mu_model_record.specs.Record.{entry_of};
ghost use Rattle.mu_model_node.specs.declared.Parameters.{Parameters as TransferParameters};
ghost use Rattle.mu_model_represents.specs.Images.{IsSealed, is_among, AllDiffer};
ghost use Rattle.mu_model_represents.specs.RepresentsNode.{IsNewerThan, IsNewerThanBank, StoredGoesWith, IsNodeJob, HasNodeJob, IsNoNodeRecord};
ghost use Rattle.mu_note.specs.Views.{active_banks, note_job, node_note};
ghost use Rattle.mu_place.specs.Place.{place_record};
ghost use Rattle.mu_kept.specs.Views.{job_in, part_in, expect_of, has_parameters};
ghost use Rattle.mu_blobsrv.specs.Views.{store_of, place_of, fault_of};
ghost use Rattle.mu_node.specs.Rules.{GoesWith, HasRules};

use mu_blobsrv::{BankState, BlobServer, Expect};
use mu_image::Meta;
use mu_model_node::Stored;
use mu_model_represents::laws::blob_parts;
use mu_model_stored_node::laws::node_is_read;
use mu_note::{Active, NodeNote, NoteJob, node_note_from};
use mu_outside::Flash;

fn is_active(active: Active, bank: u8) -> bool
    ensures { result ≡ is_among (active_banks active) bank }
{
    match active {
        Active::One(first) => first == bank,
        Active::Two(first, second) => first == bank || second == bank,
    }
}

fn are_different(active: Active) -> bool
    ensures { IsTrue result ↔ AllDiffer (active_banks active) }
{
    match active {
        Active::One(_) => true,
        Active::Two(first, second) => first != second,
    }
}

/// The bank of the active image of an index, where there is one.
pub(crate) fn bank_of(active: Active, index: u8) -> Option<u8>
    ensures { result ≡ slice_get (active_banks active) index }
{
    match (active, index) {
        (Active::One(first), 0) => Some(first),
        (Active::Two(first, _), 0) => Some(first),
        (Active::Two(_, second), 1) => Some(second),
        _ => None,
    }
}

// What a record says of a bank; nothing of one that isn't there.
fn state_of<F: Flash>(server: &BlobServer<F>, bank: u8) -> BankState
    requires { fault_of server.now ≡ None }
    ensures { result ≡ entry_of (place_record (place_of server.now)) bank }
{
    server.known();
    if bank < server.banks() {
        server.bank_state(bank)
    } else {
        BankState::Empty
    }
}

fn is_sealed(state: BankState) -> bool
    ensures { IsTrue result ↔ IsSealed state }
{
    matches!(state, BankState::Sealed(_))
}

fn are_sealed<F: Flash>(server: &BlobServer<F>, active: Active) -> bool
    requires { fault_of server.now ≡ None }
    ensures { IsTrue result ↔ AllByRecursion (λ (b : ℕ). IsSealed (entry_of (place_record (place_of server.now)) b)) (active_banks active) }
{
    match active {
        Active::One(first) => is_sealed(state_of(server, first)),
        Active::Two(first, second) => {
            is_sealed(state_of(server, first)) && is_sealed(state_of(server, second))
        }
    }
}

fn is_newer(version: u32, state: BankState) -> bool
    ensures { IsTrue result ↔ IsNewerThan version state }
{
    match state {
        BankState::Sealed(meta) => meta.version < version,
        _ => false,
    }
}

fn is_newer_than_bank<F: Flash>(server: &BlobServer<F>, version: u32, bank: Option<u8>) -> bool
    requires { fault_of server.now ≡ None }
    ensures { IsTrue result ↔ IsNewerThanBank (place_record (place_of server.now)) version bank }
{
    match bank {
        Some(bank) => is_newer(version, state_of(server, bank)),
        None => false,
    }
}

fn is_sealed_with(state: BankState, meta: &Meta) -> bool
    ensures { IsTrue result ↔ (state ≡ Sealed meta.now) }
{
    match state {
        BankState::Sealed(other) => other == *meta,
        _ => false,
    }
}

// Whether a stored phase goes with a job that has parameters or none, and with its bank.
fn stored_goes_with(stored: Stored, meta: &Meta, has_parameters: bool, state: BankState) -> bool
    ensures { (parameters : Option TransferParameters) → is_some parameters ≡ has_parameters → IsTrue result ↔ StoredGoesWith stored meta.now parameters state }
{
    match stored {
        Stored::Filling => !has_parameters || matches!(state, BankState::Filling { .. }),
        Stored::Refused => !has_parameters,
        Stored::Verified | Stored::Applied => has_parameters && is_sealed_with(state, meta),
    }
}

// Whether what the note says of a job goes with what the BLOB part does.
fn job_goes_with<F: Flash>(
    server: &BlobServer<F>,
    active: Active,
    expect: Expect,
    job: &NoteJob,
) -> bool
    requires fault { fault_of server.now ≡ None }
    requires job { Some expect ≡ option_map expect_of (job_in (store_of server.now)) }
    ensures { IfSome (part_in (store_of server.now)) (λ b. IsTrue result ↔ IsNodeJob (place_record (place_of server.now)) (active_banks active) b (note_job job.now)) }
{
    let newer = is_newer_than_bank(server, job.meta.version, bank_of(active, job.index));
    let stored = stored_goes_with(
        job.stored,
        &job.meta,
        server.has_parameters(),
        state_of(server, expect.bank),
    );
    !is_active(active, expect.bank) && job.meta.size == expect.size && newer && stored
}

fn jobs_go_together<F: Flash>(server: &BlobServer<F>, note: &NodeNote) -> bool
    requires { fault_of server.now ≡ None }
    ensures { IsTrue result ↔ HasNodeJob (place_record (place_of server.now)) (active_banks note.now.active) (part_in (store_of server.now)) (option_map note_job note.now.job) }
{
    match (server.job(), &note.job) {
        (None, None) => true,
        (Some(expect), Some(job)) => job_goes_with(server, note.active, expect, job),
        _ => false,
    }
}

// Whether a note goes with the banks and the BLOB part of the present record. No fault is kept.
fn goes_with<F: Flash>(server: &BlobServer<F>, note: &NodeNote) -> bool
    requires { fault_of server.now ≡ None }
    ensures { IsTrue result ↔ HasRules (place_record (place_of server.now)) (part_in (store_of server.now)) (node_note note.now) }
{
    are_different(note.active) && are_sealed(server, note.active) && jobs_go_together(server, note)
}

// What the note of the present record says, where that is a node's by every rule. No fault is kept.
#[tactic(auto, using(crate::proofs::Judged::no_rules))]
pub(crate) fn note_in<F: Flash>(server: &BlobServer<F>) -> Option<NodeNote>
    requires { fault_of server.now ≡ None }
    ensures some { IfSome result (λ note. GoesWith (place_record (place_of server.now)) (part_in (store_of server.now)) (node_note note)) }
    ensures none { result ≡ None → IsNoNodeRecord (place_record (place_of server.now)) }
{
    server.known();
    blob_parts();
    node_is_read();
    match node_note_from(server.banks(), server.note()) {
        Err(_) => None,
        Ok(note) if goes_with(server, &note) => Some(note),
        Ok(_) => None,
    }
}
