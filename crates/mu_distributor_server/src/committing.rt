// An event's end: one record, exactly where what is kept is to be another (this profile).
ghost use Rattle.std.specs.Prelude.{◌≡◌, IfOk, None};
ghost use Rattle.mu_model_node.specs.declared.FlashWork.TheVariants.{Recorded};
ghost use Rattle.mu_model_distributor.specs.Commit.{is_long, recorded, committed, work_to};
ghost use Rattle.mu_model_distributor.specs.DistState.{DistState};
ghost use Rattle.mu_model_distributor.specs.Same.{same_durable};
ghost use Rattle.mu_model_distributor.specs.Sound.{IsDistDurable};
ghost use Rattle.mu_place.specs.Calls.{Answers, WornAtLast, WornUntouched, HasRisen};
ghost use Rattle.mu_distributor_rows.specs.Due.{IsDue};
ghost use Rattle.mu_distributor_server.specs.Events.{ServerWorks, FaultBy, SameBesideNote};
ghost use Rattle.mu_distributor_server.specs.Shows.{Shows, Carries};
ghost use Rattle.mu_distributor_server.specs.Views.{server_in, place_in, fault_in, address_of};

use crate::distributor::Distributor;
use crate::ways::Ways;
use mu_model_distributor_laws::laws::flash_work;
use mu_model_flash::laws::runs;
use mu_model_jobs::laws::states_stay;
use mu_model_represents::laws::represented_is_sound;
use mu_model_represents_distributor::laws::{
    distributor_is_sound, distributor_runs_are_read, written_distributor,
};
use mu_model_stored_distributor::laws::{distributor_is_kept, distributor_steps};
use mu_outside::Flash;
use mu_store::StoreFault;

impl<F: Flash> Distributor<F> {
    // Writes one record of what is in memory, all else as it was. No fault is kept.
    pub(crate) fn commit(&mut self) -> Result<(), StoreFault>
        requires fault { fault_in self.old ≡ None }
        ensures answers { Answers (place_in self.new) result }
        ensures shows { (t : DistState) → Shows self.old t → IfOk result (λ _. Shows self.new (recorded t)) }
        ensures works { (s t : DistState) → Shows self.old t → Carries F.seen (server_in self.old) s → SameBesideNote s t → IsDistDurable (recorded t).durable
            → ServerWorks F.seen s (recorded t) (Recorded (is_long t.durable)) (server_in self.old) (server_in self.new) result }
        ensures worn { WornAtLast (place_in self.old) result }
        ensures untouched { WornUntouched (place_in self.old) (place_in self.new) result }
        ensures cause { HasRisen F.seen (place_in self.old) (place_in self.new) result }
        ensures address { address_of self.new ≡ address_of self.old }
    {
        runs::<Ways<F>>();
        states_stay();
        represented_is_sound();
        distributor_is_sound();
        distributor_runs_are_read();
        written_distributor();
        distributor_is_kept();
        distributor_steps();
        self.server.known();
        let note = self.memory.record();
        self.server.commit(&note)
    }

    // Writes one record where what is kept is to be another. No fault is kept.
    pub(crate) fn end(&mut self, due: bool) -> Result<(), StoreFault>
        requires fault { fault_in self.old ≡ None }
        ensures answers { Answers (place_in self.new) result }
        ensures shows { (s t : DistState) → Shows self.old t → IsDue due s.durable t.durable → IfOk result (λ _. Shows self.new (committed s t)) }
        ensures works { (s t : DistState) → Shows self.old t → Carries F.seen (server_in self.old) s → SameBesideNote s t → IsDue due s.durable t.durable
            → IsDistDurable (committed s t).durable → ServerWorks F.seen s (committed s t) (work_to t (same_durable s.durable t.durable)) (server_in self.old) (server_in self.new) result }
        ensures faults { (s t : DistState) → IsDue due s.durable t.durable → FaultBy (work_to t (same_durable s.durable t.durable)) (place_in self.old) result }
        ensures untouched { WornUntouched (place_in self.old) (place_in self.new) result }
        ensures cause { HasRisen F.seen (place_in self.old) (place_in self.new) result }
        ensures address { address_of self.new ≡ address_of self.old }
    {
        flash_work();
        runs::<Ways<F>>();
        distributor_runs_are_read();
        self.server.known();
        if !due {
            return Ok(());
        }
        self.commit()
    }
}
