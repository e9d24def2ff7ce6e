// Whether the present record of a server is a distributor's.
ghost use Rattle.std.specs.Prelude.{◌≡◌, ◌↔◌, ◌≤◌, IsTrue, IfSome, None, Some, true, [], ℕ, List, Option, length, take, map, is_some};
ghost use Rattle.std.specs.List.{AllByRecursion};
ghost use Rattle.std.specs.Option.{option_map};
ghost use Rattle.mu_model_record.specs.Record.{entry_of};
ghost use Rattle.mu_model_node.specs.declared.Parameters.{Parameters};
ghost use Rattle.mu_model_represents.specs.BlobPart.{BlobJob};
ghost use Rattle.mu_model_represents.specs.Images.{IsSealed, is_among};
ghost use Rattle.mu_model_represents_distributor.specs.RepresentsDistributor.{UploadBank, HasUploadOf, UploadGoesWith, IsNoDistributorRecord};
ghost use Rattle.mu_place.specs.Place.{place_record};
ghost use Rattle.mu_kept.specs.Views.{part_in};
ghost use Rattle.mu_blobsrv.specs.Views.{store_of, place_of, fault_of, server_of};
ghost use Rattle.mu_model_node.specs.Slots.{Slots};
ghost use Rattle.mu_model_node.specs.BlobServer.{server_phase};
ghost use Rattle.mu_distributor_kept.specs.Views.{upload_phase};
ghost use Rattle.mu_distributor_note.specs.Views.{distributor_note};
ghost use Rattle.mu_distributor_server.specs.Boots.{meta_by, lags_in, GoesWith, IsBooted};

use mu_blobsrv::{BankState, BlobServer};
use mu_distributor_memory::{Memory, NoteHead, UploadPhase};
use mu_distributor_note::distributor_note_from;
use mu_distributor_rows::{has_bank, is_at_rest};
use mu_image::Meta;
use mu_model_distributor::DistPhase;
use mu_model_represents::laws::blob_parts;
use mu_model_represents_distributor::laws::distributor_is_sound;
use mu_model_stored_distributor::laws::distributor_is_read;
use mu_outside::Flash;

const NO_META: Meta = Meta {
    size: 0,
    version: 0,
    digest: [0; 32],
};

// What a record says of a bank; nothing of one that isn't there.
fn state_of<F: Flash>(server: &BlobServer<F>, bank: u8) -> BankState
    requires { fault_of server.now ≡ None }
    ensures { result ≡ entry_of (place_record (place_of server.now)) bank }
{
    server.known();
    if bank < server.banks() {
        server.bank_state(bank)
    } else {
        BankState::Empty
    }
}

fn is_sealed(state: BankState) -> bool
    ensures { IsTrue result ↔ IsSealed state }
{
    matches!(state, BankState::Sealed(_))
}

fn are_sealed<F: Flash>(server: &BlobServer<F>, banks: &[u8]) -> bool
    requires { fault_of server.now ≡ None }
    ensures { IsTrue result ↔ AllByRecursion (λ (b : ℕ). IsSealed (entry_of (place_record (place_of server.now)) b)) banks.now }
{
    for i in 0..banks.len() {
        if !is_sealed(state_of(server, banks[i])) {
            return false;
        }
    }
    true
}

// Whether a bank is one of these, where it is Sealed.
fn is_known<F: Flash>(server: &BlobServer<F>, banks: &[u8], bank: u8) -> bool
    requires { fault_of server.now ≡ None }
    ensures { IsTrue result ↔ (IsSealed (entry_of (place_record (place_of server.now)) bank) → is_among banks.now bank ≡ true) }
{
    !is_sealed(state_of(server, bank)) || has_bank(banks, bank)
}

// Whether each Sealed bank is one of these.
#[tactic(auto, using(crate::proofs::Judged::four_known))]
fn are_known<F: Flash>(server: &BlobServer<F>, banks: &[u8]) -> bool
    requires { fault_of server.now ≡ None }
    ensures { IsTrue result ↔ ((b : ℕ) → IsSealed (entry_of (place_record (place_of server.now)) b) → is_among banks.now b ≡ true) }
{
    server.known();
    is_known(server, banks, 0)
        && is_known(server, banks, 1)
        && is_known(server, banks, 2)
        && is_known(server, banks, 3)
}

fn phase_goes_with(upload: UploadPhase, phase: DistPhase, has_job: bool) -> bool
    ensures { (part : Option BlobJob) → is_some part ≡ has_job → IsTrue result ↔ UploadGoesWith (upload_phase upload) phase part }
{
    match upload {
        UploadPhase::Idle | UploadPhase::TransferSuccess => !has_job,
        UploadPhase::TransferActive => has_job && is_at_rest(phase),
        UploadPhase::TransferError => true,
    }
}

fn bank_goes_with(has_parameters: bool, state: BankState) -> bool
    ensures { (parameters : Option Parameters) → is_some parameters ≡ has_parameters → IsTrue result ↔ UploadBank parameters state }
{
    match state {
        BankState::Empty => !has_parameters,
        BankState::Filling { .. } => has_parameters,
        BankState::Sealed(_) => false,
    }
}

// Whether the upload's metadata and the bank of its job go with the BLOB part.
fn job_goes_with<F: Flash>(server: &BlobServer<F>, meta: &Meta) -> bool
    requires { fault_of server.now ≡ None }
    ensures { IsTrue result ↔ HasUploadOf (place_record (place_of server.now)) meta.now (part_in (store_of server.now)) }
{
    match server.job() {
        None => true,
        Some(job) => {
            let state = state_of(server, job.bank);
            job.size == meta.size && bank_goes_with(server.has_parameters(), state)
        }
    }
}

fn goes_with<F: Flash>(server: &BlobServer<F>, head: &NoteHead) -> bool
    requires { fault_of server.now ≡ None }
    ensures { IsTrue result ↔ GoesWith (place_record (place_of server.now)) (part_in (store_of server.now)) (distributor_note head.now []) }
{
    let banks = head.banks.as_slice();
    server.banks() == 4
        && are_sealed(server, banks)
        && are_known(server, banks)
        && phase_goes_with(head.upload, head.phase, server.job().is_some())
        && job_goes_with(server, &head.upload_meta)
}

fn meta_by(state: BankState) -> Meta
    ensures { result ≡ meta_by state }
{
    match state {
        BankState::Sealed(meta) => meta,
        _ => NO_META,
    }
}

// The metadata of banks, of which there are at most four.
fn metas_of<F: Flash>(server: &BlobServer<F>, banks: &[u8]) -> [Meta; 4]
    requires fault { fault_of server.now ≡ None }
    requires few { length banks.now ≤ 4 }
    ensures { take (length banks.now) result ≡ map (λ b. meta_by (entry_of (place_record (place_of server.now)) b)) banks.now }
{
    let mut metas = [NO_META; 4];
    for i in 0..banks.len() {
        metas[i] = meta_by(state_of(server, banks[i]));
    }
    metas
}

// Whether an upload in this phase was broken off, as not each of its blocks is held.
fn lags<F: Flash>(server: &BlobServer<F>, upload: UploadPhase) -> bool
    requires { fault_of server.now ≡ None }
    ensures { (held : Slots) (now : ℕ) → result ≡ lags_in upload (server_phase (server_of server.now held now)) }
{
    match upload {
        UploadPhase::TransferActive => server.phase() != 4,
        _ => false,
    }
}

// What the present record says, where that is a distributor's by every rule. No fault is kept. An upload that is active lags where not each of
// its blocks is held.
#[tactic(none)]
pub(crate) fn memory_of<F: Flash>(server: &BlobServer<F>) -> Option<Memory>
    requires { fault_of server.now ≡ None }
    ensures some { IfSome result (λ m. IsBooted F.seen server.now m) }
    ensures none { result ≡ None → IsNoDistributorRecord (place_record (place_of server.now)) }
{
    server.known();
    blob_parts();
    distributor_is_sound();
    distributor_is_read();
    let Ok((head, rows)) = distributor_note_from(server.note()) else {
        return None;
    };
    if !goes_with(server, &head) {
        return None;
    }
    let metas = metas_of(server, head.banks.as_slice());
    let lags = lags(server, head.upload);
    Some(Memory::new(head, rows, metas, lags))
}
