// Messages of the Firmware Update model.
ghost use Rattle.std.specs.Prelude.{◌≡◌, [], IfOk, IfErr, None, map};
ghost use Rattle.mu_codec.specs.View.{packet_of};
ghost use Rattle.mu_model_node.specs.NodeMessages.{reply_packet};
ghost use Rattle.mu_model_node.specs.Events.{at_moment};
ghost use Rattle.mu_model_node.specs.NodeState.{NodeState};
ghost use Rattle.mu_model_node.specs.UpdateTable.{on_update};
ghost use Rattle.mu_update_rows.specs.Fits.{IsKnown, IsStepOf};
ghost use Rattle.mu_update_rows.specs.Messages.{update_request_of};
ghost use Rattle.mu_update_rows.specs.Rows.{update_stepped};
ghost use Rattle.mu_place.specs.Calls.{Answers, WornUntouched, HasRisen};
ghost use Rattle.mu_node.specs.Views.{fault_in, place_in, config_of, Shows, Holds};
ghost use Rattle.mu_node.specs.Does.{Remembers, Runs, NodeRuns, KeepsNode};
ghost use Rattle.mu_node.specs.Steps.{IsLookAt, StepFault, UpdateFault};

use crate::node::Node;
use crate::steps::status_of;
use mu_blobsrv::StoreFault;
use mu_codec::Outbox;
use mu_model_node::laws::states_are_sound;
use mu_model_serving::laws::nodes_serve_by_their_blocks;
use mu_outside::Flash;
use mu_update_answers::send;
use mu_update_rows::{
    NodeLook, UpdateRequest, UpdateStep, apply_step, cancel_step, check_answer, information,
    start_step, update_answer,
};

impl<F: Flash> Node<F> {
    // Does a step, and answers with its status and the phase after it.
    fn answer_step(
        &mut self,
        from: u16,
        look: &NodeLook,
        step: UpdateStep,
        out: &mut Outbox,
    ) -> Result<(), StoreFault>
        requires fault { fault_in self.old ≡ None }
        requires looks { IsLookAt look.now self.old }
        requires of { IsStepOf look.now step }
        requires known { IsKnown step }
        requires empty { out.old.items ≡ [] }
        ensures answers { Answers (place_in self.new) result }
        ensures config { config_of self.new ≡ config_of self.old }
        ensures remembers { Remembers (λ n. update_stepped n from step) self.old self.new result }
        ensures silent { IfErr result (λ _. out.new.items ≡ []) }
        ensures sent { (n : NodeState) → Shows self.old n → IfOk result (λ _. map packet_of out.new.items ≡ map (reply_packet (config_of self.old).address) (update_stepped n from step).replies) }
        ensures faults { StepFault step (place_in self.old) result }
        ensures untouched { WornUntouched (place_in self.old) (place_in self.new) result }
        ensures cause { HasRisen F.seen (place_in self.old) (place_in self.new) result }
        ensures runs { Runs F.seen (λ n. update_stepped n from step) self.old self.new result }
    {
        match self.do_step(look, step) {
            Ok(()) => {
                let answer = update_answer(&self.look(), status_of(step));
                send(self.config.address, from, answer, out);
                Ok(())
            }
            Err(why) => Err(why),
        }
    }

    // Does what a Firmware Update Server does with a message: the row of the table.
    fn update_row<'a>(
        &mut self,
        from: u16,
        request: UpdateRequest<'a>,
        out: &mut Outbox,
    ) -> Result<(), StoreFault>
        requires fault { fault_in self.old ≡ None }
        requires empty { out.old.items ≡ [] }
        ensures answers { Answers (place_in self.new) result }
        ensures config { config_of self.new ≡ config_of self.old }
        ensures remembers { Remembers (λ n. on_update n from (update_request_of request.entry)) self.old self.new result }
        ensures silent { IfErr result (λ _. out.new.items ≡ []) }
        ensures sent { (n : NodeState) → Shows self.old n → IfOk result (λ _. map packet_of out.new.items ≡ map (reply_packet (config_of self.old).address) (on_update n from (update_request_of request.entry)).replies) }
        ensures faults { (n : NodeState) → Shows self.old n → UpdateFault (on_update n from (update_request_of request.entry)) (place_in self.old) result }
        ensures untouched { WornUntouched (place_in self.old) (place_in self.new) result }
        ensures cause { HasRisen F.seen (place_in self.old) (place_in self.new) result }
        ensures runs { Runs F.seen (λ n. on_update n from (update_request_of request.entry)) self.old self.new result }
    {
        self.rests();
        let look = self.look();
        match request {
            UpdateRequest::InformationGet { first, limit } => {
                send(
                    self.config.address,
                    from,
                    information(&look, first, limit),
                    out,
                );
                Ok(())
            }
            UpdateRequest::MetadataCheck { index, metadata } => {
                send(
                    self.config.address,
                    from,
                    check_answer(&look, index, metadata),
                    out,
                );
                Ok(())
            }
            UpdateRequest::UpdateGet => {
                send(self.config.address, from, update_answer(&look, 0), out);
                Ok(())
            }
            UpdateRequest::StartUpdate(asked) => {
                let step = start_step(&look, asked);
                self.answer_step(from, &look, step, out)
            }
            UpdateRequest::UpdateCancel => {
                let step = cancel_step(&look);
                self.answer_step(from, &look, step, out)
            }
            UpdateRequest::UpdateApply => {
                let step = apply_step(&look);
                self.answer_step(from, &look, step, out)
            }
        }
    }

    /// A message of the Firmware Update model from a peer: the row of the table (MshDFU, Firmware Update Server behavior). The outbox is empty, and is
    /// left so where a fault is answered. `Worn` comes exactly where a record is due and the count is 4,294,967,295, before anything is written. A
    /// fault that was kept before is answered again, and nothing changes.
    pub fn on_update<'a>(
        &mut self,
        from: u16,
        request: UpdateRequest<'a>,
        now: u64,
        out: &mut Outbox,
    ) -> Result<(), StoreFault>
        requires empty { out.old.items ≡ [] }
        ensures answers { Answers (place_in self.new) result }
        ensures kept { KeepsNode self.old self.new result }
        ensures config { config_of self.new ≡ config_of self.old }
        ensures silent { IfErr result (λ _. out.new.items ≡ []) }
        ensures state { (n : NodeState) → Shows self.old n → IfOk result (λ _. Shows self.new (on_update (at_moment n now) from (update_request_of request.entry)).next) }
        ensures sent { (n : NodeState) → Shows self.old n → IfOk result (λ _. map packet_of out.new.items ≡ map (reply_packet (config_of self.old).address) (on_update (at_moment n now) from (update_request_of request.entry)).replies) }
        ensures faults { fault_in self.old ≡ None → (n : NodeState) → Shows self.old n → UpdateFault (on_update (at_moment n now) from (update_request_of request.entry)) (place_in self.old) result }
        ensures untouched { WornUntouched (place_in self.old) (place_in self.new) result }
        ensures cause { HasRisen F.seen (place_in self.old) (place_in self.new) result }
        ensures runs { (n : NodeState) → Holds F.seen self.old n → NodeRuns F.seen n (on_update (at_moment n now) from (update_request_of request.entry)) self.old self.new result }
    {
        if let Some(why) = self.server.fault() {
            return Err(why);
        }
        states_are_sound();
        nodes_serve_by_their_blocks();
        self.hand_moment(now);
        self.update_row(from, request, out)
    }
}
