// A node as the rows of the update model look at it.
ghost use Rattle.std.specs.Prelude.{◌≡◌, ℕ, None, map};
ghost use Rattle.mu_model_record.specs.Record.{entry_of};
ghost use Rattle.mu_model_node.specs.NodeState.{NodeState};
ghost use Rattle.mu_model_represents.specs.Images.{IsSealed};
ghost use Rattle.mu_model_stored_node.specs.NodeIn.{meta_in};
ghost use Rattle.mu_update_rows.specs.Looks.{LooksAs, one_or_two, there, look_at};
ghost use Rattle.mu_note.specs.Views.{active_banks};
ghost use Rattle.mu_place.specs.Place.{place_record};
ghost use Rattle.mu_node.specs.Views.{fault_in, place_in, note_in};
ghost use Rattle.mu_node.specs.Does.{HasInMemory};
ghost use Rattle.mu_node.specs.Steps.{JobIsKept, IsLookAt};

use crate::node::Node;
use mu_blobsrv::BankState;
use mu_image::Meta;
use mu_model_shown_node::laws::memory_is_looked_at;
use mu_note::Active;
use mu_outside::Flash;
use mu_update_rows::{ActiveMetas, JobLook, NodeLook};

impl<F: Flash> Node<F> {
    // The metadata of a bank that is Sealed.
    pub(crate) fn meta_of(&self, bank: u8) -> Meta
        requires fault { fault_in self.now ≡ None }
        requires sealed_bank { IsSealed (entry_of (place_record (place_in self.now)) bank) }
        ensures { result ≡ meta_in (entry_of (place_record (place_in self.now)) bank) }
    {
        self.server.known();
        let BankState::Sealed(meta) = self.server.bank_state(bank) else {
            unreachable!()
        };
        meta
    }

    // The metadata of the active images.
    fn metas(&self) -> ActiveMetas
        requires { fault_in self.now ≡ None }
        ensures { one_or_two result ≡ map (λ (b : ℕ). meta_in (entry_of (place_record (place_in self.now)) b)) (active_banks (note_in self.now).active) }
    {
        match self.note.active {
            Active::One(first) => ActiveMetas {
                first: self.meta_of(first),
                second: None,
            },
            Active::Two(first, second) => ActiveMetas {
                first: self.meta_of(first),
                second: Some(self.meta_of(second)),
            },
        }
    }

    fn job_look(&self) -> Option<JobLook>
        requires { fault_in self.now ≡ None }
        ensures shown { (n : NodeState) → HasInMemory self.now n → result ≡ there look_at n.durable.job }
        ensures kept { JobIsKept result self.now }
    {
        memory_is_looked_at();
        match (self.server.job(), self.note.job) {
            (Some(expect), Some(job)) => Some(JobLook {
                id: expect.id,
                index: job.index,
                meta: job.meta,
                ttl: job.ttl,
                base: expect.base,
                stored: job.stored,
                is_whole: self.server.is_whole(),
            }),
            _ => None,
        }
    }

    // No fault is kept.
    pub(crate) fn look(&self) -> NodeLook
        requires { fault_in self.now ≡ None }
        ensures shown { (n : NodeState) → HasInMemory self.now n → LooksAs result n }
        ensures kept { IsLookAt result self.now }
    {
        memory_is_looked_at();
        NodeLook {
            capacity: self.server.capacity(),
            active: self.metas(),
            job: self.job_look(),
            link: self.server.link(),
        }
    }
}
