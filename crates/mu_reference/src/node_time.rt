// What a node does as time passes.
ghost use Rattle.std.specs.Prelude.{◌≡◌, ◌<◌, IfOk, None, Some, map, set};
ghost use Rattle.mu_model_image.specs.Meta.{is_fit};
ghost use Rattle.mu_model_node.specs.Slots.{joined};
ghost use Rattle.mu_model_node.specs.NodeState.{update_phase};
ghost use Rattle.mu_model_node.specs.TimeTable.{on_time};
ghost use Rattle.mu_model_node.specs.Sound.{IsNodeState};
ghost use Rattle.mu_reference.specs.View.{state_of, image_of, job_of};
ghost use Rattle.mu_reference.specs.NodeRows.{DoneAs, activated_with, verified_with, judged_with, switched_to, time_done, replies_of};
ghost use Rattle.mu_reference.specs.Outcomes.{blob_replies_of};
ghost use Rattle.mu_model_node.specs.NodeOutcome.{by_blob};
ghost use Rattle.mu_model_node.specs.Events.{last_count};

use crate::blob_events::Served;
use crate::node::{Done, Reply};
use crate::phases::UpdatePhase;
use crate::recording::Stop;
use crate::slots::Slots;
use crate::values::{Image, Job, State};
use mu_image::Digesting;
use mu_model_node::{FlashWork, Stored};
use std::alloc::{AllocError, Global};

/// What a time event is at a node.
#[derive(Clone, Copy)]
pub enum TimeKind {
    Activate,
    Verify,
    Serve,
}

/// Whether a job's blocks are the image that was offered.
fn is_whole(alloc: Global, job: &Job) -> Result<bool, AllocError>
    ensures { IfOk result (λ whole. whole ≡ is_fit (joined job.now.held) job.now.meta) }
{
    let octets = job.held.joined(alloc)?;
    let mut digesting = Digesting::new();
    digesting.take(&octets);
    let digest = digesting.done();
    Ok(octets.len() == job.meta.size as usize && digest == job.meta.digest)
}

impl State {
    /// What a time event is.
    pub fn time_kind(&self) -> TimeKind
        ensures { on_time (state_of self.now) (update_phase (state_of self.now)) ≡ time_done (state_of self.now) result }
    {
        match self.update_phase() {
            UpdatePhase::Applying(_) => TimeKind::Activate,
            UpdatePhase::Verifying(_) => TimeKind::Verify,
            _ => TimeKind::Serve,
        }
    }

    /// An image takes the place of the one at an index, if there is one.
    #[tactic(auto, using(crate::proofs::Images::images_set, crate::proofs::Images::images_past))]
    fn put_image(&mut self, index: u8, image: Image)
        ensures { state_of self.new ≡ record (state_of self.old) { durable = record ((state_of self.old).durable) { images = set (state_of self.old).durable.images index (image_of image) } } }
    {
        let index = usize::from(index);
        if index < self.images.len() {
            self.images[index] = image;
        }
    }

    /// One record makes the job's image, which has these octets, the active one.
    fn switch(&mut self, octets: Vec<u8>)
        requires { self.old.count < last_count }
        ensures { state_of self.new ≡ switched_to (state_of self.old) octets.items (state_of self.old).durable.job }
    {
        if let Some(job) = self.job.take() {
            let image = Image {
                octets,
                meta: job.meta,
            };
            self.put_image(job.index, image);
            self.record();
            self.session.unlink();
        }
    }

    /// The job's image becomes the active one.
    fn activate(&mut self, alloc: Global) -> Result<Done, Stop>
        ensures { DoneAs (state_of self.old) (activated_with (state_of self.old) (state_of self.old).durable.job) result (state_of self.new) }
    {
        let Some(job) = &self.job else {
            return Ok(Done {
                reply: None,
                work: FlashWork::Untouched,
            });
        };
        if self.is_at_last_record() {
            return Err(Stop::Worn);
        }
        let Ok(octets) = job.held.joined(alloc) else {
            return Err(Stop::NoMemory);
        };
        self.switch(octets);
        Ok(Done {
            reply: None,
            work: FlashWork::Recorded { is_long: false },
        })
    }

    /// One record says that the job's image is whole, or that it isn't.
    fn judge(&mut self, alloc: Global, is_whole: bool)
        requires { self.old.count < last_count }
        ensures { state_of self.new ≡ judged_with (state_of self.old) is_whole (state_of self.old).durable.job }
    {
        let Some(job) = &mut self.job else {
            return;
        };
        if is_whole {
            job.stored = Stored::Verified;
        } else {
            job.stored = Stored::Refused;
            job.parameters = None;
            job.held = Slots::none(alloc);
            self.session.unlink();
        }
        self.record();
    }

    /// The job's blocks are verified.
    fn verify(&mut self, alloc: Global) -> Result<Done, Stop>
        ensures { DoneAs (state_of self.old) (verified_with (state_of self.old) (state_of self.old).durable.job) result (state_of self.new) }
    {
        let Some(job) = &self.job else {
            return Ok(Done {
                reply: None,
                work: FlashWork::Untouched,
            });
        };
        if self.is_at_last_record() {
            return Err(Stop::Worn);
        }
        let Ok(is_whole) = is_whole(alloc, job) else {
            return Err(Stop::NoMemory);
        };
        self.judge(alloc, is_whole);
        Ok(Done {
            reply: None,
            work: FlashWork::Recorded { is_long: false },
        })
    }

    /// A time event.
    pub fn pass_time(&mut self, alloc: Global) -> Result<Done, Stop>
        requires { IsNodeState (state_of self.old) }
        ensures { DoneAs (state_of self.old) (on_time (state_of self.old) (update_phase (state_of self.old))) result (state_of self.new) }
    {
        match self.time_kind() {
            TimeKind::Activate => self.activate(alloc),
            TimeKind::Verify => self.verify(alloc),
            TimeKind::Serve => Ok(serving(self.on_server_time())),
        }
    }
}

/// What the BLOB server did.
pub fn serving(done: Served) -> Done
    ensures replies { replies_of result.reply ≡ map by_blob (blob_replies_of done.reply) }
    ensures work { result.work ≡ done.work }
{
    let Served { reply, work } = done;
    match reply {
        None => Done { reply: None, work },
        Some((to, reply)) => Done {
            reply: Some((to, Reply::Serving(reply))),
            work,
        },
    }
}
