// The phase of an update.
ghost use Rattle.std.specs.Prelude.{◌≡◌};
ghost use Rattle.mu_model_node.specs.NodeState.{NodeState, update_phase};
ghost use Rattle.mu_update_rows.specs.Looks.{LooksAs, kind_of, phase_number};
ghost use Rattle.mu_update_rows.specs.Decided.{linked_seen, job_seen, phase_seen};

use crate::look::{JobLook, NodeLook};
use mu_model_node::{Link, Stored};

/// The phase of an update (MshDFU, Update Phase).
#[derive(Clone, Copy, Debug, PartialEq, Eq)]
pub enum Phase {
    Idle,
    TransferError,
    TransferActive,
    Verifying,
    Succeeded,
    Failed,
    Applying,
}

impl Phase {
    /// The phase on the wire, 0 to 6.
    pub fn number(self) -> u8
        ensures { result ≡ phase_number self }
    {
        match self {
            Phase::Idle => 0,
            Phase::TransferError => 1,
            Phase::TransferActive => 2,
            Phase::Verifying => 3,
            Phase::Succeeded => 4,
            Phase::Failed => 5,
            Phase::Applying => 6,
        }
    }
}

fn linked(link: Link) -> Phase
    ensures { result ≡ linked_seen link }
{
    match link {
        Link::Cut => Phase::TransferError,
        Link::Ready | Link::Running => Phase::TransferActive,
    }
}

fn job_phase(job: &JobLook, link: Link) -> Phase
    ensures { result ≡ job_seen link job.now }
{
    match job.stored {
        Stored::Filling if job.is_whole => Phase::Verifying,
        Stored::Filling => linked(link),
        Stored::Verified => Phase::Succeeded,
        Stored::Refused => Phase::Failed,
        Stored::Applied => Phase::Applying,
    }
}

/// The phase of the update that a node has.
#[tactic(auto, using(crate::proofs::Phased::phase_is))]
pub fn phase_of(look: &NodeLook) -> Phase
    ensures { (s : NodeState) → LooksAs look.now s → result ≡ kind_of (update_phase s) }
{
    phase_in(look)
}

pub(crate) fn phase_in(look: &NodeLook) -> Phase
    ensures { result ≡ phase_seen look.now.link look.now.job }
{
    match &look.job {
        None => Phase::Idle,
        Some(job) => job_phase(job, look.link),
    }
}
