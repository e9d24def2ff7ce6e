// The updater.
ghost use Rattle.std.specs.Prelude.{◌≡◌, ◌≤◌, [], map, length, IsTrue, OnOk, OnErr, Some, true};
ghost use Rattle.mu_codec.specs.View.{packet_of};
ghost use Rattle.mu_model_flash.specs.Cause.{HasCause};
ghost use Rattle.mu_model_image.specs.Meta.{Image as WholeImage};
ghost use Rattle.mu_model_node.specs.Events.{PacketComes, TimeComes};
ghost use Rattle.mu_model_client.specs.Begin.{is_ended};
ghost use Rattle.mu_model_client.specs.Client.{rows};
ghost use Rattle.mu_model_updater.specs.Updater.{new_updater, first_image};
ghost use Rattle.mu_receivers.specs.Image.{Image, IsSame};
ghost use Rattle.mu_told.specs.Told.{IsSendable};
ghost use Rattle.mu_rounds.specs.Time.{HasSize};
ghost use Rattle.mu_client_messages.specs.Messages.{HasMode};
ghost use Rattle.mu_updcli.specs.Client.{row_shown};
ghost use Rattle.mu_solo.specs.Solo.{with_image, step_of, Steps, IsImage};

use crate::reading::on_packet;
use arrayvec::ArrayVec;
use mu_codec::{Outbox, Packet};
use mu_distmsg::ReceiverRow;
use mu_model_flash::Failed;
use mu_receivers::{ImageBytes, SliceImage};
use mu_updcli::{Plan, UpdateClient};
use std::marker::Model;

/// A standalone updater. It takes about 141 KB: its client, and its rows; nothing is allocated. An event costs what it costs its
/// client, and a copy of each row.
#[derive(Drop)]
pub struct Solo {
    address: u16,
    client: UpdateClient,
    rows: ArrayVec<ReceiverRow, 128>,
}

impl Model for Solo {
    ghost use Rattle.mu_model_client.specs.Client.{Client};
    ghost use Rattle.mu_solo.specs.Solo.{solo_client, IsSolo};

    ghost Value = { Client };

    ghost view = { solo_client };

    ghost invariant = { IsSolo };
}

// The addresses, each with the index of its first image.
fn first_images(to: &[u16]) -> ArrayVec<(u16, u8), 128>
    requires { length to.now ≤ 128 }
    ensures { result.items ≡ map first_image to.now }
{
    let mut receivers = ArrayVec::new();
    for address in to {
        receivers.push((*address, 0));
    }
    receivers
}

impl Solo {
    /// An updater of the first images of at most 128 nodes with different unicast addresses. It begins in its first time event, and
    /// applies what is verified at once.
    pub fn start(plan: Plan, to: &[u16]) -> Solo
        requires few { length to.now ≤ 128 }
        requires range { IsSendable plan.sending }
        requires mode { HasMode plan.sending }
        requires apply { plan.apply ≡ true }
        ensures updater { (image : WholeImage) → with_image result image ≡ new_updater plan image (map first_image to.now) }
        ensures sending { result.sending ≡ plan.sending }
    {
        let client = UpdateClient::start(plan, &first_images(to));
        let rows = client.rows();
        Solo {
            address: plan.sending.from,
            client,
            rows,
        }
    }

    /// A packet at this moment, in milliseconds. Whether it was handled: it is addressed to the updater and brings a status or a
    /// report that a client takes.
    pub fn on_packet(&mut self, packet: &Packet, now: u64) -> bool
        ensures next { Steps self.old (PacketComes (packet_of packet.now)) now self.new }
        ensures handled { (image : WholeImage) → result ≡ (step_of self.old image (PacketComes (packet_of packet.now)) now).handled }
        ensures sending { self.new.sending ≡ self.old.sending }
    {
        let handled = on_packet(&mut self.client, self.address, packet, now);
        self.rows = self.client.rows();
        handled
    }

    /// A time event at this moment, in milliseconds: at most 16 packets are sent, into an outbox that is empty. The image has the
    /// size of what is sent.
    pub fn on_time(&mut self, image: &[u8], now: u64, out: &mut Outbox)
        requires size { length image.now ≡ self.old.sending.size }
        requires empty { out.old.items ≡ [] }
        ensures next { Steps self.old TimeComes now self.new }
        ensures packets { (whole : WholeImage) → whole.octets ≡ image.now → map packet_of out.new.items ≡ (step_of self.old whole TimeComes now).sent }
        ensures sending { self.new.sending ≡ self.old.sending }
    {
        let _address = self.address;
        match self.on_time_over(&mut SliceImage::new(image), now, out) {
            Ok(()) => {}
            Err(_) => prove!(false),
        }
    }

    /// A time event at this moment, in milliseconds, over an image that is read: at most 16 packets are sent, into an outbox that is
    /// empty. Where a read of the image fails the updater is as before, and nothing is sent. The image has the size of what is sent.
    pub fn on_time_over<I: ImageBytes>(
        &mut self,
        image: &mut I,
        now: u64,
        out: &mut Outbox,
    ) -> Result<(), Failed>
        requires size { HasSize self.old.sending (I.image image.old) }
        requires empty { out.old.items ≡ [] }
        ensures next { OnOk result (Steps self.old TimeComes now self.new) }
        ensures packets { OnOk result ((whole : WholeImage) → IsImage (I.image image.old).octets whole → map packet_of out.new.items ≡ (step_of self.old whole TimeComes now).sent) }
        ensures before { OnErr result (self.new ≡ self.old) }
        ensures sending { self.new.sending ≡ self.old.sending }
        ensures nothing { OnErr result (out.new.items ≡ []) }
        ensures same { IsSame (I.image image.old) (I.image image.new) }
        ensures fails { OnErr result (IsTrue (I.image image.old).can_fail) }
        ensures cause { HasCause (I.image image.old).faults (I.image image.new).faults result }
        ensures stays { I.stays image.old image.new }
    {
        self.client.on_time(image, now, out)?;
        self.rows = self.client.rows();
        Ok(())
    }

    /// The rows of all receivers, in their order.
    pub fn rows(&self) -> &[ReceiverRow]
        ensures { map row_shown result.now ≡ rows self.now }
    {
        &self.rows
    }

    /// Whether the updater has ended.
    pub fn ended(&self) -> bool
        ensures { result ≡ is_ended self.now.place }
    {
        self.client.ended()
    }
}
