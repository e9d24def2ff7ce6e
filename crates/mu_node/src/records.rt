// The records of a node: each writes one, with its note, through the BLOB server.
ghost use Rattle.std.specs.Prelude.{◌≡◌, ◌≤◌, ℕ, IfOk, None, Some, slice_get};
ghost use Rattle.mu_model_image.specs.Meta.{IsMeta};
ghost use Rattle.mu_model_record.specs.Record.{capacity_of};
ghost use Rattle.mu_model_node.specs.declared.Stored.TheVariants.{Verified};
ghost use Rattle.mu_model_node.specs.NodeState.{NodeState};
ghost use Rattle.mu_model_represents.specs.RepresentsNode.{IsNewerThanBank};
ghost use Rattle.mu_update_rows.specs.Rows.{update_stepped};
ghost use Rattle.mu_update_rows.specs.declared.table.UpdateStep.TheVariants.{Take, Lose, Apply};
ghost use Rattle.mu_note.specs.Views.{active_banks};
ghost use Rattle.mu_place.specs.Place.{place_record};
ghost use Rattle.mu_place.specs.Calls.{Answers, WornAtLast, WornUntouched, HasRisen};
ghost use Rattle.mu_node.specs.Views.{fault_in, place_in, note_in, config_of, moment_of};
ghost use Rattle.mu_node.specs.Does.{Remembers, Runs};
ghost use Rattle.mu_node.specs.Taken.{HasNumbers};

use crate::node::Node;
use crate::ways::NodeWays;
use mu_blobsrv::{Expect, StoreFault};
use mu_model_flash::laws::runs;
use mu_model_node::Stored;
use mu_model_shown_node::laws::{memory_goes_on, rules_go_on};
use mu_model_written_node::laws::{written_in_a_store, written_in_memory};
use mu_note::{NodeNote, NoteJob, node_note_octets};
use mu_outside::Flash;
use mu_update_rows::NewJob;

// The numbers of an update are those of their types.
fn numbers(what: NewJob)
    ensures { HasNumbers what }
{
    let _ = (what.id, what.index, what.ttl, what.base);
}

impl<F: Flash> Node<F> {
    // One record takes an update in place of an earlier one: it fits a bank, and is newer than the active image of its index.
    pub(crate) fn take(&mut self, what: NewJob, now: u64) -> Result<(), StoreFault>
        requires fault { fault_in self.old ≡ None }
        requires moment { now ≡ moment_of self.old }
        requires ranges { IsMeta what.meta }
        requires room { what.meta.size ≤ capacity_of (place_record (place_in self.old)) }
        requires newer { IsNewerThanBank (place_record (place_in self.old)) what.meta.version (slice_get (active_banks (note_in self.old).active) what.index) }
        ensures answers { Answers (place_in self.new) result }
        ensures config { config_of self.new ≡ config_of self.old }
        ensures remembers { (to : ℕ) → Remembers (λ n. update_stepped n to (Take what)) self.old self.new result }
        ensures worn { WornAtLast (place_in self.old) result }
        ensures untouched { WornUntouched (place_in self.old) (place_in self.new) result }
        ensures cause { HasRisen F.seen (place_in self.old) (place_in self.new) result }
        ensures runs { (to : ℕ) → Runs F.seen (λ n. update_stepped n to (Take what)) self.old self.new result }
    {
        runs::<NodeWays<F>>();
        written_in_memory();
        written_in_a_store();
        memory_goes_on();
        rules_go_on();
        self.known();
        numbers(what);
        let bank = self.free_bank();
        self.server.known();
        let note = NodeNote {
            active: self.note.active,
            job: Some(NoteJob {
                stored: Stored::Filling,
                ttl: what.ttl,
                meta: what.meta,
                index: what.index,
            }),
        };
        let expect = Expect {
            id: what.id,
            size: what.meta.size,
            base: what.base,
            bank,
        };
        match self.server.expect(expect, &node_note_octets(&note), now) {
            Ok(()) => {
                self.server.known();
                self.note = note;
                Ok(())
            }
            Err(why) => Err(why),
        }
    }

    // One record drops the update, if there is one.
    pub(crate) fn lose(&mut self) -> Result<(), StoreFault>
        requires fault { fault_in self.old ≡ None }
        ensures answers { Answers (place_in self.new) result }
        ensures config { config_of self.new ≡ config_of self.old }
        ensures remembers { (to : ℕ) → Remembers (λ n. update_stepped n to Lose) self.old self.new result }
        ensures worn { WornAtLast (place_in self.old) result }
        ensures untouched { WornUntouched (place_in self.old) (place_in self.new) result }
        ensures cause { HasRisen F.seen (place_in self.old) (place_in self.new) result }
        ensures runs { (to : ℕ) → Runs F.seen (λ n. update_stepped n to Lose) self.old self.new result }
    {
        runs::<NodeWays<F>>();
        written_in_memory();
        written_in_a_store();
        memory_goes_on();
        rules_go_on();
        self.known();
        self.free_bank();
        self.server.known();
        let note = NodeNote {
            active: self.note.active,
            job: None,
        };
        match self.server.drop_job(&node_note_octets(&note)) {
            Ok(()) => {
                self.server.known();
                self.note = note;
                Ok(())
            }
            Err(why) => Err(why),
        }
    }

    // One record says that the update, which is verified, is to be applied.
    pub(crate) fn apply(&mut self, job: NoteJob) -> Result<(), StoreFault>
        requires fault { fault_in self.old ≡ None }
        requires job { (note_in self.old).job ≡ Some job }
        requires verified { job.stored ≡ Verified }
        ensures answers { Answers (place_in self.new) result }
        ensures config { config_of self.new ≡ config_of self.old }
        ensures remembers { (to : ℕ) → Remembers (λ n. update_stepped n to Apply) self.old self.new result }
        ensures worn { WornAtLast (place_in self.old) result }
        ensures untouched { WornUntouched (place_in self.old) (place_in self.new) result }
        ensures cause { HasRisen F.seen (place_in self.old) (place_in self.new) result }
        ensures runs { (to : ℕ) → Runs F.seen (λ n. update_stepped n to Apply) self.old self.new result }
    {
        runs::<NodeWays<F>>();
        written_in_memory();
        written_in_a_store();
        memory_goes_on();
        rules_go_on();
        self.known();
        self.free_bank();
        self.server.known();
        let note = NodeNote {
            active: self.note.active,
            job: Some(NoteJob {
                stored: Stored::Applied,
                ttl: job.ttl,
                meta: job.meta,
                index: job.index,
            }),
        };
        match self.server.commit(&node_note_octets(&note)) {
            Ok(()) => {
                self.server.known();
                self.note = note;
                Ok(())
            }
            Err(why) => Err(why),
        }
    }
}
