// Banks, and the capabilities.
ghost use Rattle.std.specs.Prelude.{◌≡◌, ◌<◌, ◌≤◌, ◌*◌, ◌^◌, ℕ, not, ◌||◌, length, List, if◌then◌else◌};
ghost use Rattle.mu_model_distributor.specs.DistState.{DistState};
ghost use Rattle.mu_model_distributor.specs.Receivers.{capabilities};
ghost use Rattle.mu_model_represents.specs.Images.{is_among};
ghost use Rattle.mu_distributor_rows.specs.Looks.{seen, LooksAs};
ghost use Rattle.mu_distributor_rows.specs.Decided.{is_taken_by, free_banks, lowest};

use crate::looks::{DistLook, UploadLook};
use crate::replies::{DistAnswer, DistReply};

/// Whether a bank is one of these.
pub fn has_bank(banks: &[u8], bank: u8) -> bool
    ensures { result ≡ is_among banks.now bank }
{
    banks.iter().any(|other| *other == bank)
}

// Whether a job has begun in a bank.
fn is_taken(job: Option<UploadLook>, bank: u8) -> bool
    ensures { result ≡ is_taken_by job bank }
{
    match job {
        None => false,
        Some(job) => job.has_parameters && job.bank == bank,
    }
}

fn is_free(banks: &[u8], job: Option<UploadLook>, bank: u8) -> bool
    ensures { result ≡ not (is_among banks.now bank || is_taken_by job bank) }
{
    !(has_bank(banks, bank) || is_taken(job, bank))
}

// 1 or 0.
fn one_if(free: bool) -> u32
    ensures { result ≡ (if free then 1 else 0) }
{
    if free { 1 } else { 0 }
}

#[tactic(auto, using(crate::proofs::Seen::four_counted))]
fn free_count(banks: &[u8], job: Option<UploadLook>) -> u32
    ensures count { result ≡ length (free_banks banks.now job) }
    ensures few { result ≤ 4 }
{
    let first = one_if(is_free(banks, job, 0)) + one_if(is_free(banks, job, 1));
    let last = one_if(is_free(banks, job, 2)) + one_if(is_free(banks, job, 3));
    first + last
}

/// The lowest bank without an image, where there is one.
pub(crate) fn lowest_free(banks: &[u8]) -> Option<u8>
    ensures { result ≡ lowest (free_banks banks.now None) }
{
    if is_free(banks, None, 0) {
        Some(0)
    } else if is_free(banks, None, 1) {
        Some(1)
    } else if is_free(banks, None, 2) {
        Some(2)
    } else if is_free(banks, None, 3) {
        Some(3)
    } else {
        None
    }
}

/// The Firmware Distribution Capabilities Status: a bank counts as empty where its job has no parameters.
pub fn capabilities_answer<'a>(look: DistLook<'a>) -> DistAnswer
    requires { 4 * look.capacity < 2 ^ 32 }
    ensures { (s : DistState) → LooksAs look.entry s → result ≡ capabilities s }
{
    DistAnswer::new(DistReply::CapabilitiesStatus {
        capacity: look.capacity,
        remaining: look.capacity * free_count(look.banks, look.job),
    })
}
