// The client.
ghost use Rattle.std.specs.Prelude.{◌≡◌, ◌≤◌, ◌<◌, [], map, length, slice_index_or, IsTrue, IfSome, OnOk, OnErr};
ghost use Rattle.mu_codec.specs.View.{packet_of};
ghost use Rattle.mu_model_wire.specs.Spelling.{Fits};
ghost use Rattle.mu_model_wire.specs.Blob.{blob_rows};
ghost use Rattle.mu_blobmsg.specs.View.{view};
ghost use Rattle.mu_model_flash.specs.Cause.{HasCause};
ghost use Rattle.mu_model_client.specs.Answers.{answer_of};
ghost use Rattle.mu_model_client.specs.Begin.{start_blob, transfer_row, wanted, is_ended};
ghost use Rattle.mu_model_client.specs.Client.{Receiver};
ghost use Rattle.mu_model_client.specs.Due.{due};
ghost use Rattle.mu_model_client.specs.Going.{going};
ghost use Rattle.mu_model_client.specs.Packets.{answer_handled, request_packet};
ghost use Rattle.mu_receivers.specs.Image.{Image, IsSame};
ghost use Rattle.mu_told.specs.Told.{IsSendable};
ghost use Rattle.mu_rounds.specs.Time.{HasSize};
ghost use Rattle.mu_client_messages.specs.Messages.{HasMode};

use crate::receivers::{row_of, slots_of};
use crate::wanted::wanted;
use mu_blobmsg::BlobMsg;
use mu_client_messages::{on_blob, on_time};
use mu_codec::Outbox;
use mu_model_client::{Place, Purpose, Sending, Step, TransferRow};
use mu_model_flash::Failed;
use mu_receivers::ImageBytes;
use mu_report::NumberSet;
use mu_rounds::{Rounds, rounds_at};
use std::marker::Model;

/// A client that sends one BLOB to its receivers. It takes about 140 KB: for each of 128 receivers four sets of at most
/// 2,048 numbers; nothing is allocated. A time event visits each receiver a few times and each packet that it sends, and no receiver
/// for each chunk. A message visits each receiver's address once, and then costs what its own length does.
#[derive(Drop)]
pub struct BlobClient {
    rounds: Rounds,
}

impl Model for BlobClient {
    ghost use Rattle.mu_model_client.specs.Client.{Client};
    ghost use Rattle.mu_blobcli.specs.Client.{blob_client_of, IsWholeClient};

    ghost Value = { Client };

    ghost view = { blob_client_of };

    ghost invariant = { IsWholeClient };
}

impl BlobClient {
    /// A client of at most 128 receivers with different unicast addresses, which begins in its first time event.
    pub fn start(what: Sending, to: &[u16]) -> BlobClient
        requires few { length to.now ≤ 128 }
        requires range { IsSendable what }
        requires mode { HasMode what }
        ensures { result ≡ start_blob what to.now }
    {
        BlobClient {
            rounds: rounds_at(
                what,
                Purpose::Blob,
                slots_of(to),
                Place::Before(Step::Information),
            ),
        }
    }

    /// A message from this address at this moment, in milliseconds. One that a client doesn't take hands in its moment alone.
    pub fn on_blob(&mut self, from: u16, msg: &BlobMsg, now: u64)
        requires { Fits blob_rows (view msg.now) }
        ensures next { self.new ≡ (answer_handled self.old from now (answer_of (view msg.now))).next }
        ensures sending { self.new.sending ≡ self.old.sending }
    {
        on_blob(&mut self.rounds, from, msg, now);
    }

    /// A time event at this moment, in milliseconds: at most 16 packets are sent, into an outbox that is empty. Where a read of
    /// the image fails the client is as before, and nothing is sent. The image has the size of what is sent.
    pub fn on_time<I: ImageBytes>(
        &mut self,
        image: &mut I,
        now: u64,
        out: &mut Outbox,
    ) -> Result<(), Failed>
        requires size { HasSize self.old.sending (I.image image.old) }
        requires empty { out.old.items ≡ [] }
        ensures next { OnOk result (self.new ≡ (going self.old now).next) }
        ensures packets { OnOk result (IfSome (I.image image.old).octets (λ octets. map packet_of out.new.items ≡ map (request_packet self.old.sending.from) (due self.old octets now).packets)) }
        ensures before { OnErr result (self.new ≡ self.old) }
        ensures sending { self.new.sending ≡ self.old.sending }
        ensures nothing { OnErr result (out.new.items ≡ []) }
        ensures same { IsSame (I.image image.old) (I.image image.new) }
        ensures fails { OnErr result (IsTrue (I.image image.old).can_fail) }
        ensures cause { HasCause (I.image image.old).faults (I.image image.new).faults result }
        ensures stays { I.stays image.old image.new }
    {
        on_time(&mut self.rounds, image, now, out)
    }

    /// How many receivers there are.
    pub fn count(&self) -> u8
        ensures count { result ≡ length self.now.receivers }
        ensures most { result ≤ 128 }
    {
        self.rounds.slots.len() as u8
    }

    /// What is seen of receiver `i`.
    pub fn receiver(&self, i: u8) -> TransferRow
        requires { i < length self.now.receivers }
        ensures { (d : Receiver) → result ≡ transfer_row (slice_index_or self.now.receivers i d) }
    {
        row_of(&self.rounds.slots[i as usize])
    }

    /// The chunks of the present list that are still to be sent; none where it isn't a list of chunks.
    pub fn wanted(&self) -> NumberSet
        ensures { result ≡ wanted self.now }
    {
        wanted(&self.rounds)
    }

    /// Whether the client has ended.
    pub fn ended(&self) -> bool
        ensures { result ≡ is_ended self.now.place }
    {
        match self.rounds.place {
            Place::Ended(_) => true,
            _ => false,
        }
    }
}
