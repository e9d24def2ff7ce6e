// The phases of a node, each with what it has.
ghost use Rattle.std.specs.Prelude.{◌≡◌};
ghost use Rattle.mu_model_node.specs.BlobServer.{serving_phase};
ghost use Rattle.mu_model_node.specs.NodeState.{link_phase, filling_phase, job_phase, serving_in};
ghost use Rattle.mu_reference.specs.View.{job_of, session_of, update_phase_of, serving_of, blob_phase_of};
ghost use Rattle.mu_model_node.specs.There.{there};
ghost use Rattle.mu_reference.specs.UpdateRows.{JobIs};

use crate::values::{CurrentBlock, Job, Session};
use mu_model_node::{Link, Parameters, Stored};

/// The phase of an update (MshDFU, Update Phase).
#[derive(Clone, Copy)]
pub enum UpdatePhase<'a> {
    Idle,
    TransferError(&'a Job),
    TransferActive(&'a Job),
    Verifying(&'a Job),
    Succeeded(&'a Job),
    Failed(&'a Job),
    Applying(&'a Job),
}

/// What the node says of its job to the BLOB server.
#[derive(Clone, Copy)]
pub enum Serving<'a> {
    NoJob,
    Lacking(&'a Job),
    Whole(&'a Job),
}

/// The phase of a transfer (MshMBT, Transfer Phase).
#[derive(Clone, Copy)]
pub enum BlobPhase<'a> {
    Inactive,
    WaitingForStart(&'a Job),
    NextBlock(&'a Job, Parameters),
    NextChunk(&'a Job, Parameters, &'a CurrentBlock),
    Complete(&'a Job),
    Suspended(&'a Job, Parameters),
}

fn linked<'a>(job: &'a Job, link: Link) -> UpdatePhase<'a>
    ensures phase { update_phase_of result ≡ link_phase (job_of job.now) link }
    ensures job { JobIs (update_phase_of result) (Some (job_of job.now)) }
{
    match link {
        Link::Cut => UpdatePhase::TransferError(job),
        Link::Ready | Link::Running => UpdatePhase::TransferActive(job),
    }
}

fn filling<'a>(job: &'a Job, link: Link) -> UpdatePhase<'a>
    ensures phase { update_phase_of result ≡ filling_phase (job_of job.now) link job.now.parameters }
    ensures job { JobIs (update_phase_of result) (Some (job_of job.now)) }
{
    if job.parameters.is_some() && job.held.is_full() {
        UpdatePhase::Verifying(job)
    } else {
        linked(job, link)
    }
}

/// The phase of the update that a node has.
pub fn update_phase<'a>(job: &'a Option<Job>, link: Link) -> UpdatePhase<'a>
    ensures phase { update_phase_of result ≡ job_phase link (there job_of job.now) }
    ensures job { JobIs (update_phase_of result) (there job_of job.now) }
{
    match job {
        None => UpdatePhase::Idle,
        Some(job) => match job.stored {
            Stored::Filling => filling(job, link),
            Stored::Verified => UpdatePhase::Succeeded(job),
            Stored::Refused => UpdatePhase::Failed(job),
            Stored::Applied => UpdatePhase::Applying(job),
        },
    }
}

/// What the node says of its job in an update phase.
pub fn serving_at<'a>(phase: UpdatePhase<'a>) -> Serving<'a>
    ensures { serving_of result ≡ serving_in (update_phase_of phase.entry) }
{
    match phase {
        UpdatePhase::Idle | UpdatePhase::Failed(_) => Serving::NoJob,
        UpdatePhase::TransferError(job) | UpdatePhase::TransferActive(job) => Serving::Lacking(job),
        UpdatePhase::Verifying(job) | UpdatePhase::Succeeded(job) | UpdatePhase::Applying(job) => {
            Serving::Whole(job)
        }
    }
}

fn transferring<'a>(job: &'a Job, session: &'a Session) -> BlobPhase<'a>
    ensures { blob_phase_of result ≡ serving_phase (session_of session.now) (serving_of (Serving.Lacking job.entry)) }
{
    match (job.parameters, session.rest.link) {
        (None, Link::Cut) => BlobPhase::Inactive,
        (None, _) => BlobPhase::WaitingForStart(job),
        (Some(parameters), Link::Running) => match &session.current {
            None => BlobPhase::NextBlock(job, parameters),
            Some(current) => BlobPhase::NextChunk(job, parameters, current),
        },
        (Some(parameters), _) => BlobPhase::Suspended(job, parameters),
    }
}

/// The phase of the transfer that a node has.
pub fn blob_phase<'a>(serving: Serving<'a>, session: &'a Session) -> BlobPhase<'a>
    ensures { blob_phase_of result ≡ serving_phase (session_of session.now) (serving_of serving.entry) }
{
    match serving {
        Serving::NoJob => BlobPhase::Inactive,
        Serving::Lacking(job) => transferring(job, session),
        Serving::Whole(job) => BlobPhase::Complete(job),
    }
}
