// Requests on receivers, and those that only ask (MshDFU, Firmware Distribution Server behavior; in this profile).
ghost use Rattle.std.specs.Prelude.{◌≡◌, ◌≤◌, ◌∷◌, [], ℕ, Bool, true, IfOk, IfErr, None, Some, Err, List, Result, map};
ghost use Rattle.mu_codec.specs.View.{packet_of};
ghost use Rattle.mu_model_distributor.specs.DistEvents.{at_moment};
ghost use Rattle.mu_model_distributor.specs.DistMessages.{ByDistribution, sent_packet};
ghost use Rattle.mu_model_distributor.specs.DistState.{DistState};
ghost use Rattle.mu_model_distributor.specs.DistTable.{on_request};
ghost use Rattle.mu_model_distributor.specs.Commit.{answered};
ghost use Rattle.mu_model_distributor.specs.Replies.{DistReply};
ghost use Rattle.mu_distmsg.specs.declared.message.ReceiverRow.{ReceiverRow};
ghost use Rattle.mu_store.specs.declared.faults.StoreFault.{StoreFault as Fault};
ghost use Rattle.mu_model_distributor.specs.Sound.{IsDistDurable, DistRequestFits};
ghost use Rattle.mu_place.specs.Calls.{Answers, WornUntouched, HasRisen};
ghost use Rattle.mu_distributor_rows.specs.Receivers.{rows_stepped};
ghost use Rattle.mu_distributor_answers.specs.Fits.{HasFirmwareId};
ghost use Rattle.mu_distributor_answers.specs.Messages.{dist_request_of};
ghost use Rattle.mu_distributor_answers.specs.Steps.{shown_to};
ghost use Rattle.mu_distributor_server.specs.Events.{Did, Works, ServerWorks, FaultBy};
ghost use Rattle.mu_distributor_server.specs.Requests.{is_done_here, asked_status, Changed, StandsBy};
ghost use Rattle.mu_distributor_server.specs.Shows.{Shows, Holds, Carries};
ghost use Rattle.mu_distributor_server.specs.Views.{server_in, place_in, fault_in, address_of, moment_of};

use crate::distributor::Distributor;
use crate::looking::upload_look;
use crate::ways::Ways;
use mu_codec::Outbox;
use mu_distributor_answers::send;
use mu_distributor_memory::DistRequest;
use mu_model_flash::laws::runs;
use mu_model_represents_distributor::laws::distributor_runs_are_read;
use mu_outside::Flash;
use mu_store::StoreFault;

// The status that answers a request that only asks.
fn asked_status<'a>(request: &DistRequest<'a>) -> u8
    ensures status { result ≡ asked_status (dist_request_of request.now) }
    ensures known { result ≤ 13 }
{
    match request {
        DistRequest::StartUploadOob => 9,
        _ => 0,
    }
}

impl<F: Flash> Distributor<F> {
    // The last moment is the greatest that was handed in.
    fn hand_moment(&mut self, now: u64)
        ensures server { server_in self.new ≡ server_in self.old }
        ensures address { address_of self.new ≡ address_of self.old }
        ensures shows { (s : DistState) → Shows self.old s → Shows self.new (at_moment s now) }
    {
        if now > self.moment {
            self.moment = now;
        }
    }

    // An event's end on receivers, which were done in memory. No fault is kept.
    fn receivers(&mut self, changed: Result<bool, u8>) -> Result<u8, StoreFault>
        requires fault { fault_in self.old ≡ None }
        requires known { IfErr changed (λ status. status ≤ 13) }
        ensures answers { Answers (place_in self.new) result }
        ensures known { IfOk result (λ status. status ≤ 13) }
        ensures did { (s : DistState) (rows : List ReceiverRow) (to : ℕ) (show : ℕ → DistState → DistReply) → StandsBy self.old s rows changed
            → IfOk result (λ status. Changed (answered s to show (rows_stepped s rows changed)) to (show status) self.new) }
        ensures works { (s : DistState) (rows : List ReceiverRow) (to : ℕ) (show : ℕ → DistState → DistReply) → StandsBy self.old s rows changed → Carries F.seen (server_in self.old) s
            → IsDistDurable (answered s to show (rows_stepped s rows changed)).next.durable
            → ServerWorks F.seen s (answered s to show (rows_stepped s rows changed)).next (answered s to show (rows_stepped s rows changed)).work (server_in self.old) (server_in self.new) result }
        ensures faults { (s : DistState) (rows : List ReceiverRow) (to : ℕ) (show : ℕ → DistState → DistReply) → StandsBy self.old s rows changed
            → FaultBy (answered s to show (rows_stepped s rows changed)).work (place_in self.old) result }
        ensures untouched { WornUntouched (place_in self.old) (place_in self.new) result }
        ensures cause { HasRisen F.seen (place_in self.old) (place_in self.new) result }
        ensures address { address_of self.new ≡ address_of self.old }
    {
        runs::<Ways<F>>();
        distributor_runs_are_read();
        self.server.known();
        match changed {
            Ok(due) => match self.end(due) {
                Ok(()) => Ok(0),
                Err(why) => Err(why),
            },
            Err(status) => Ok(status),
        }
    }

    // What a request makes of what is kept, with the status that is answered: receivers are added or deleted, and all else that is done here tells
    // something. No fault is kept.
    fn change<'a>(&mut self, request: &DistRequest<'a>) -> Result<u8, StoreFault>
        requires fault { fault_in self.old ≡ None }
        requires here { is_done_here (dist_request_of request.now) ≡ true }
        requires fits { DistRequestFits (dist_request_of request.now) }
        ensures answers { Answers (place_in self.new) result }
        ensures known { IfOk result (λ status. status ≤ 13) }
        ensures did { (address to : ℕ) (s : DistState) → Shows self.old s → IfOk result (λ status. Changed (on_request address s to (dist_request_of request.now)) to (shown_to (dist_request_of request.now) status) self.new) }
        ensures works { (address to : ℕ) (s : DistState) → Holds F.seen self.old s → IsDistDurable (on_request address s to (dist_request_of request.now)).next.durable
            → ServerWorks F.seen s (on_request address s to (dist_request_of request.now)).next (on_request address s to (dist_request_of request.now)).work (server_in self.old) (server_in self.new) result }
        ensures faults { (address to : ℕ) (s : DistState) → Shows self.old s → FaultBy (on_request address s to (dist_request_of request.now)).work (place_in self.old) result }
        ensures untouched { WornUntouched (place_in self.old) (place_in self.new) result }
        ensures cause { HasRisen F.seen (place_in self.old) (place_in self.new) result }
        ensures address { address_of self.new ≡ address_of self.old }
    {
        runs::<Ways<F>>();
        distributor_runs_are_read();
        self.server.known();
        match request {
            DistRequest::ReceiversAdd { entries } => {
                let changed = self.memory.add_receivers(entries.as_slice());
                self.receivers(changed)
            }
            DistRequest::ReceiversDeleteAll => {
                let changed = self.memory.delete_receivers();
                self.receivers(changed)
            }
            _ => Ok(asked_status(request)),
        }
    }

    // Sends what answers a request with a status. No fault is kept.
    fn reply<'a>(&self, to: u16, request: &DistRequest<'a>, status: u8, out: &mut Outbox)
        requires fault { fault_in self.now ≡ None }
        requires known { status ≤ 13 }
        requires id { HasFirmwareId request.now }
        requires empty { out.old.items ≡ [] }
        ensures { (s : DistState) → Shows self.now s → map packet_of out.new.items ≡ sent_packet (address_of self.now) (to, ByDistribution (shown_to (dist_request_of request.now) status s)) ∷ [] }
    {
        self.server.known();
        let capacity = self.server.capacity();
        let job = upload_look(&self.server);
        let answer = self.memory.answer(capacity, job, request, status);
        send(self.address, to, answer, out);
    }

    /// A request of the Firmware Distribution Server on receivers, or one that only asks, of a source. It is answered by the first rule of its row that
    /// holds, once its record is written, if one is due. The outbox is empty, and is left so where a fault is answered. `Worn` comes exactly where a record is due
    /// and the count is 4,294,967,295.
    pub fn on_request<'a>(
        &mut self,
        from: u16,
        request: &DistRequest<'a>,
        now: u64,
        out: &mut Outbox,
    ) -> Result<(), StoreFault>
        requires here { is_done_here (dist_request_of request.now) ≡ true }
        requires fits { DistRequestFits (dist_request_of request.now) }
        requires id { HasFirmwareId request.now }
        requires empty { out.old.items ≡ [] }
        ensures answers { Answers (place_in self.new) result }
        ensures kept { (why : Fault) → fault_in self.old ≡ Some why → (result ≡ Err why) × (self.new ≡ self.old) }
        ensures silent { IfErr result (λ _. out.new.items ≡ []) }
        ensures did { (s : DistState) → Shows self.old s → IfOk result (λ _. Did (address_of self.old) (on_request (address_of self.old) (at_moment s now) from (dist_request_of request.now)) self.new (map packet_of out.new.items)) }
        ensures works { (s : DistState) → Holds F.seen self.old s → IsDistDurable (on_request (address_of self.old) (at_moment s now) from (dist_request_of request.now)).next.durable
            → Works F.seen s (on_request (address_of self.old) (at_moment s now) from (dist_request_of request.now)) self.old self.new result }
        ensures faults { fault_in self.old ≡ None → (s : DistState) → Shows self.old s → FaultBy (on_request (address_of self.old) (at_moment s now) from (dist_request_of request.now)).work (place_in self.old) result }
        ensures untouched { WornUntouched (place_in self.old) (place_in self.new) result }
        ensures cause { HasRisen F.seen (place_in self.old) (place_in self.new) result }
        ensures address { address_of self.new ≡ address_of self.old }
    {
        if let Some(why) = self.server.fault() {
            return Err(why);
        }
        self.hand_moment(now);
        match self.change(request) {
            Ok(status) => {
                self.reply(from, request, status, out);
                Ok(())
            }
            Err(why) => Err(why),
        }
    }
}
