// What an event did, found by comparing the states before and after.
ghost use Rattle.std.specs.Prelude.{◌≡◌, ◌<◌, ◌≤◌, ◌+◌, ◌++◌, map};
ghost use Rattle.mu_model_node.specs.NodeState.{update_phase, update_number};
ghost use Rattle.mu_model_node.specs.Log.{same_job, reopened, is_new, took, asked, gone, was_there, reached, logged_by};
ghost use Rattle.mu_model_node.specs.UpdateTable.{same_meta};
ghost use Rattle.mu_reference.specs.View.{state_of};
ghost use Rattle.mu_model_node.specs.There.{there};
ghost use Rattle.mu_reference_node.specs.Logging.{what_of, listed, bare, seen, job_seen};
ghost use Rattle.arrayvec.specs.ArrayVec.{array_vec_len};

use arrayvec::ArrayVec;
use mu_image::Meta;
use mu_model_node::Stored;
use mu_reference::State;

/// What an event did at a node (this profile).
#[derive(Clone, Copy, Debug, PartialEq, Eq)]
pub enum What {
    /// An Update Start wrote a new job.
    Took {
        /// The BLOB ID.
        id: u64,
        /// The index of the image.
        index: u8,
        meta: Meta,
    },
    /// An Update Apply reached the job verified.
    Asked {
        id: u64,
    },
    /// The active image of an index is another.
    Active {
        index: u8,
        meta: Meta,
    },
    /// The job went by an Update Cancel.
    Canceled {
        id: u64,
    },
    /// The update phase is this with the job, and wasn't so before, or the job is new.
    Reached {
        id: u64,
        phase: u8,
    },
}

impl Default for What {
    // It fills the places that a list doesn't use.
    fn default() -> What {
        What::Asked { id: 0 }
    }
}

/// What one event did, in the order of the log.
pub type Entries = ArrayVec<What, 4>;

/// What the log looks at of a job.
#[derive(Clone, Copy)]
pub(crate) struct JobGlance {
    id: u64,
    index: u8,
    meta: Meta,
    ttl: u8,
    base: u16,
    stored: Stored,
}

/// What the log looks at of a node.
#[derive(Clone, Copy)]
pub(crate) struct Glance {
    job: Option<JobGlance>,
    phase: u8,
}

/// What the log looks at of a node.
pub(crate) fn glance_at(state: &State) -> Glance
    ensures job { job_seen result ≡ there bare (state_of state.now).durable.job }
    ensures phase { result.phase ≡ update_number (update_phase (state_of state.now)) }
{
    let job = match &state.job {
        None => None,
        Some(job) => Some(JobGlance {
            id: job.id,
            index: job.index,
            meta: job.meta,
            ttl: job.ttl,
            base: job.base,
            stored: job.stored,
        }),
    };
    Glance {
        job,
        phase: state.phase_number(),
    }
}

fn is_same_meta(a: &Meta, b: &Meta) -> bool
    ensures { result ≡ same_meta a.now b.now }
{
    a.size == b.size && a.version == b.version && a.digest == b.digest
}

fn is_same_job(new: &JobGlance, old: &JobGlance) -> bool
    ensures { result ≡ same_job (seen new.now) (seen old.now) }
{
    new.ttl == old.ttl
        && new.base == old.base
        && new.id == old.id
        && new.index == old.index
        && is_same_meta(&new.meta, &old.meta)
}

fn is_reopened(old: Stored, new: Stored) -> bool
    ensures { result ≡ reopened old new }
{
    match (old, new) {
        (Stored::Refused, Stored::Filling) => true,
        _ => false,
    }
}

fn is_new(old: &Option<JobGlance>, new: &JobGlance) -> bool
    ensures { result ≡ is_new (there seen old.now) (seen new.now) }
{
    match old {
        None => true,
        Some(old) => !is_same_job(new, old) || is_reopened(old.stored, new.stored),
    }
}

fn took(old: &Glance, new: &Glance) -> Option<What>
    ensures { listed result ≡ took (job_seen old.now) (job_seen new.now) }
{
    match &new.job {
        Some(job) if is_new(&old.job, job) => Some(What::Took {
            id: job.id,
            index: job.index,
            meta: job.meta,
        }),
        _ => None,
    }
}

fn asked(old: &Glance, new: &Glance) -> Option<What>
    ensures { listed result ≡ asked (job_seen old.now) (job_seen new.now) }
{
    match (&old.job, &new.job) {
        (Some(old), Some(new)) => match (old.stored, new.stored) {
            (Stored::Verified, Stored::Applied) => Some(What::Asked { id: new.id }),
            _ => None,
        },
        _ => None,
    }
}

fn gone(old: &Glance, new: &Glance) -> Option<What>
    ensures { listed result ≡ gone (job_seen old.now) (job_seen new.now) }
{
    match (&old.job, &new.job) {
        (Some(old), None) => match old.stored {
            Stored::Applied => Some(What::Active {
                index: old.index,
                meta: old.meta,
            }),
            _ => Some(What::Canceled { id: old.id }),
        },
        _ => None,
    }
}

fn was_there(old: &Glance, job: &JobGlance, phase: u8) -> bool
    ensures { result ≡ was_there (job_seen old.now) (seen job.now) old.now.phase phase }
{
    match &old.job {
        None => false,
        Some(before) => old.phase == phase && before.id == job.id && !is_new(&old.job, job),
    }
}

fn reached(old: &Glance, new: &Glance) -> Option<What>
    ensures { listed result ≡ reached (job_seen old.now) (job_seen new.now) old.now.phase new.now.phase }
{
    match &new.job {
        Some(job) if !was_there(old, job, new.phase) => Some(What::Reached {
            id: job.id,
            phase: new.phase,
        }),
        _ => None,
    }
}

fn put(entries: &mut Entries, what: Option<What>)
    requires { array_vec_len entries.old < 4 }
    ensures entries { map what_of entries.new.items ≡ map what_of entries.old.items ++ listed what }
    ensures room { array_vec_len entries.new ≤ array_vec_len entries.old + 1 }
{
    if let Some(what) = what {
        entries.push(what);
    }
}

/// What an event did, from what was before and what is after.
pub(crate) fn entries(old: &Glance, new: &Glance) -> Entries
    ensures { map what_of result.items ≡ logged_by (job_seen old.now) (job_seen new.now) old.now.phase new.now.phase }
{
    let mut entries = Entries::new();
    put(&mut entries, took(old, new));
    put(&mut entries, asked(old, new));
    put(&mut entries, gone(old, new));
    put(&mut entries, reached(old, new));
    entries
}
