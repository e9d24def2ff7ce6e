// The client.
ghost use Rattle.std.specs.Prelude.{◌≡◌, ◌≤◌, ◌<◌, ◌⊎◌, [], map, length, slice_index_or, IsTrue, IfSome, OnOk, OnErr};
ghost use Rattle.mu_codec.specs.View.{packet_of};
ghost use Rattle.mu_model_wire.specs.Spelling.{Fits};
ghost use Rattle.mu_model_wire.specs.Blob.{blob_rows};
ghost use Rattle.mu_model_wire.specs.Update.{update_rows};
ghost use Rattle.mu_blobmsg.specs.View.{view as blob_view};
ghost use Rattle.mu_updmsg.specs.View.{view as update_view};
ghost use Rattle.mu_model_flash.specs.Cause.{HasCause};
ghost use Rattle.mu_model_client.specs.Answers.{answer_of};
ghost use Rattle.mu_model_client.specs.Begin.{start, resume, take_apply, take_cancel, cause_of, stage_of, stage_at, stage_in, is_ended};
ghost use Rattle.mu_model_client.specs.Client.{Receiver, at_moment, rows};
ghost use Rattle.mu_model_client.specs.Due.{due};
ghost use Rattle.mu_model_client.specs.Going.{going};
ghost use Rattle.mu_model_client.specs.Packets.{answer_handled, request_packet};
ghost use Rattle.mu_receivers.specs.Image.{Image, IsSame};
ghost use Rattle.mu_told.specs.Told.{IsSendable};
ghost use Rattle.mu_rounds.specs.Time.{HasSize};
ghost use Rattle.mu_client_messages.specs.Messages.{HasMode};
ghost use Rattle.mu_updcli.specs.Client.{row_shown};

use crate::rows::{cause_of, first_place, row_of, rows_of, slots_again, slots_of};
use arrayvec::ArrayVec;
use mu_blobmsg::BlobMsg;
use mu_client_messages::{on_blob, on_time, on_update};
use mu_codec::Outbox;
use mu_distmsg::ReceiverRow;
use mu_model_client::{Dropped, Part, Place, Plan, Purpose, Stage, Step};
use mu_model_flash::Failed;
use mu_receivers::ImageBytes;
use mu_rounds::{Rounds, part_of, rounds_at};
use mu_updmsg::UpdMsg;
use std::marker::Model;

/// A client that updates its receivers with one image. It takes about 140 KB: for each of 128 receivers four sets of at most
/// 2,048 numbers; nothing is allocated. A time event visits each receiver a few times and each packet that it sends, and no receiver
/// for each chunk. A message visits each receiver's address once, and then costs what its own length does.
#[derive(Drop)]
pub struct UpdateClient {
    rounds: Rounds,
}

impl Model for UpdateClient {
    ghost use Rattle.mu_model_client.specs.Client.{Client};
    ghost use Rattle.mu_updcli.specs.Client.{update_client_of, IsWholeClient};

    ghost Value = { Client };

    ghost view = { update_client_of };

    ghost invariant = { IsWholeClient };
}

// The stage that a part belongs to.
fn stage_in(part: Part) -> Stage
    ensures { result ≡ stage_in part }
{
    match part {
        Part::Transferring => Stage::Transfer,
        Part::Applying => Stage::Applying,
        Part::Cancelling => Stage::Canceling,
    }
}

fn stage_at(place: Place) -> Stage
    ensures { result ≡ stage_at place }
{
    match place {
        Place::Before(step) | Place::At(step) => stage_in(part_of(step)),
        Place::Verified => Stage::Verified,
        Place::Ended(_) => Stage::Ended,
    }
}

impl UpdateClient {
    /// A client of at most 128 receivers with different unicast addresses, each with the index of its image, which begins in its
    /// first time event.
    pub fn start(plan: Plan, rows: &[(u16, u8)]) -> UpdateClient
        requires few { length rows.now ≤ 128 }
        requires range { IsSendable plan.sending }
        requires mode { HasMode plan.sending }
        ensures { result ≡ start plan rows.now }
    {
        UpdateClient {
            rounds: rounds_at(
                plan.sending,
                Purpose::Update(plan.meta, plan.apply),
                slots_of(rows),
                Place::Before(Step::Check),
            ),
        }
    }

    /// A client that goes on after a boot with these rows, at most 128, at this stage.
    pub fn resume(plan: Plan, rows: &[ReceiverRow], stage: Stage) -> UpdateClient
        requires few { length rows.now ≤ 128 }
        requires range { IsSendable plan.sending }
        requires mode { HasMode plan.sending }
        ensures { result ≡ resume plan (map row_shown rows.now) stage }
    {
        UpdateClient {
            rounds: rounds_at(
                plan.sending,
                Purpose::Update(plan.meta, plan.apply),
                slots_again(rows, stage),
                first_place(stage),
            ),
        }
    }

    /// A Firmware Update message from this address at this moment, in milliseconds. One that a client doesn't take hands in its
    /// moment alone.
    pub fn on_upd(&mut self, from: u16, msg: &UpdMsg, now: u64)
        requires { Fits update_rows (update_view msg.now) }
        ensures next { self.new ≡ (answer_handled self.old from now (answer_of (update_view msg.now))).next }
        ensures sending { self.new.sending ≡ self.old.sending }
    {
        on_update(&mut self.rounds, from, msg, now);
    }

    /// A BLOB Transfer message from this address at this moment, in milliseconds. One that a client doesn't take hands in its
    /// moment alone.
    pub fn on_blob(&mut self, from: u16, msg: &BlobMsg, now: u64)
        requires { Fits blob_rows (blob_view msg.now) }
        ensures next { self.new ≡ (answer_handled self.old from now (answer_of (blob_view msg.now))).next }
        ensures sending { self.new.sending ≡ self.old.sending }
    {
        on_blob(&mut self.rounds, from, msg, now);
    }

    /// A packet that brings no such message hands in its moment alone, in milliseconds.
    pub fn pass_to(&mut self, now: u64)
        ensures { self.new ≡ at_moment self.old now }
    {
        self.rounds.pass_to(now);
    }

    /// A time event at this moment, in milliseconds: at most 16 packets are sent, into an outbox that is empty. Where a read of
    /// the image fails the client is as before, and nothing is sent. The image has the size of what is sent.
    pub fn on_time<I: ImageBytes>(
        &mut self,
        image: &mut I,
        now: u64,
        out: &mut Outbox,
    ) -> Result<(), Failed>
        requires size { HasSize self.old.sending (I.image image.old) }
        requires empty { out.old.items ≡ [] }
        ensures next { OnOk result (self.new ≡ (going self.old now).next) }
        ensures packets { OnOk result (IfSome (I.image image.old).octets (λ octets. map packet_of out.new.items ≡ map (request_packet self.old.sending.from) (due self.old octets now).packets)) }
        ensures before { OnErr result (self.new ≡ self.old) }
        ensures sending { self.new.sending ≡ self.old.sending }
        ensures nothing { OnErr result (out.new.items ≡ []) }
        ensures same { IsSame (I.image image.old) (I.image image.new) }
        ensures fails { OnErr result (IsTrue (I.image image.old).can_fail) }
        ensures cause { HasCause (I.image image.old).faults (I.image image.new).faults result }
        ensures stays { I.stays image.old image.new }
    {
        on_time(&mut self.rounds, image, now, out)
    }

    /// How many receivers there are.
    pub fn count(&self) -> u8
        ensures count { result ≡ length self.now.receivers }
        ensures most { result ≤ 128 }
    {
        self.rounds.slots.len() as u8
    }

    /// The rows of all receivers, in their order.
    pub fn rows(&self) -> ArrayVec<ReceiverRow, 128>
        ensures { map row_shown result.items ≡ rows self.now }
    {
        rows_of(&self.rounds.slots)
    }

    /// The row of receiver `i`.
    pub fn row(&self, i: u8) -> ReceiverRow
        requires { i < length self.now.receivers }
        ensures { (d : Receiver) → row_shown result ≡ (slice_index_or self.now.receivers i d).row }
    {
        row_of(&self.rounds.slots[i as usize])
    }

    /// Why receiver `i` was dropped, if it was.
    pub fn dropped(&self, i: u8) -> Option<Dropped>
        requires { i < length self.now.receivers }
        ensures { (d : Receiver) → result ≡ cause_of (slice_index_or self.now.receivers i d).standing }
    {
        let slot = &self.rounds.slots[i as usize];
        cause_of(slot.standing)
    }

    /// How far the client is.
    pub fn stage(&self) -> Stage
        ensures { result ≡ stage_of self.now }
    {
        stage_at(self.rounds.place)
    }

    /// Whether the client has ended.
    pub fn ended(&self) -> bool
        ensures { result ≡ is_ended self.now.place }
    {
        match self.rounds.place {
            Place::Ended(_) => true,
            _ => false,
        }
    }

    /// Applying begins in the next time event. The client is Verified.
    pub fn take_apply(&mut self)
        requires { stage_of self.old ≡ Stage.Verified }
        ensures { self.new ≡ take_apply self.old }
    {
        self.rounds.take_apply();
    }

    /// Cancelling begins in the next time event. The client is in its Transfer or Verified.
    pub fn take_cancel(&mut self)
        requires { (stage_of self.old ≡ Stage.Transfer) ⊎ (stage_of self.old ≡ Stage.Verified) }
        ensures { self.new ≡ take_cancel self.old }
    {
        self.rounds.take_cancel();
    }
}
