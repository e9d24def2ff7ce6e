// What a packet tells a client of an update.
ghost use Rattle.std.specs.Prelude.{◌≡◌, None, false};
ghost use Rattle.mu_model_wire.specs.Blob.{blob_rows};
ghost use Rattle.mu_model_wire.specs.Distribution.{distribution_rows};
ghost use Rattle.mu_model_wire.specs.Reading.{message_at};
ghost use Rattle.mu_model_wire.specs.Update.{update_rows};
ghost use Rattle.mu_model_client.specs.Answers.{answer_in, answer_at};
ghost use Rattle.mu_model_client.specs.Packets.{answer_handled, client_packet};
ghost use Rattle.mu_codec.specs.View.{packet_of};

use mu_access::{Part, part_of};
use mu_client_messages::{takes_blob, takes_update};
use mu_codec::Packet;
use mu_updcli::UpdateClient;

fn on_blob_octets(client: &mut UpdateClient, from: u16, payload: &[u8], now: u64) -> bool
    ensures next { client.new ≡ (answer_handled client.old from now (answer_in (message_at blob_rows payload.now))).next }
    ensures handled { result ≡ (answer_handled client.old from now (answer_in (message_at blob_rows payload.now))).handled }
    ensures sending { client.new.sending ≡ client.old.sending }
{
    match mu_blobmsg::read(payload) {
        Ok(message) => {
            client.on_blob(from, &message, now);
            takes_blob(&message)
        }
        Err(_) => {
            client.pass_to(now);
            false
        }
    }
}

fn on_update_octets(client: &mut UpdateClient, from: u16, payload: &[u8], now: u64) -> bool
    ensures next { client.new ≡ (answer_handled client.old from now (answer_in (message_at update_rows payload.now))).next }
    ensures handled { result ≡ (answer_handled client.old from now (answer_in (message_at update_rows payload.now))).handled }
    ensures sending { client.new.sending ≡ client.old.sending }
{
    match mu_updmsg::read(payload) {
        Ok(message) => {
            client.on_upd(from, &message, now);
            takes_update(&message)
        }
        Err(_) => {
            client.pass_to(now);
            false
        }
    }
}

// Whether a client takes a message of the Firmware Distribution model: it takes none.
fn takes_distribution(payload: &[u8]) -> bool
    ensures none { answer_in (message_at distribution_rows payload.now) ≡ None }
    ensures never { result ≡ false }
{
    match mu_distmsg::read(payload) {
        Ok(_) => false,
        Err(_) => false,
    }
}

fn on_distribution_octets(client: &mut UpdateClient, from: u16, payload: &[u8], now: u64) -> bool
    ensures next { client.new ≡ (answer_handled client.old from now (answer_in (message_at distribution_rows payload.now))).next }
    ensures handled { result ≡ (answer_handled client.old from now (answer_in (message_at distribution_rows payload.now))).handled }
    ensures sending { client.new.sending ≡ client.old.sending }
{
    client.pass_to(now);
    takes_distribution(payload)
}

// The octets of a packet to the client.
fn on_octets(client: &mut UpdateClient, from: u16, payload: &[u8], now: u64) -> bool
    ensures next { client.new ≡ (answer_handled client.old from now (answer_at payload.now)).next }
    ensures handled { result ≡ (answer_handled client.old from now (answer_at payload.now)).handled }
    ensures sending { client.new.sending ≡ client.old.sending }
{
    match part_of(payload) {
        Part::Blob => on_blob_octets(client, from, payload, now),
        Part::Update => on_update_octets(client, from, payload, now),
        Part::Distribution => on_distribution_octets(client, from, payload, now),
    }
}

/// A packet at this moment, in milliseconds, at the client with this address. Whether it was handled: it is addressed to the client
/// and brings a status or a report that a client takes.
pub(crate) fn on_packet(client: &mut UpdateClient, address: u16, packet: &Packet, now: u64) -> bool
    requires { address ≡ client.old.sending.from }
    ensures next { client.new ≡ (client_packet client.old (packet_of packet.now) now).next }
    ensures handled { result ≡ (client_packet client.old (packet_of packet.now) now).handled }
    ensures sending { client.new.sending ≡ client.old.sending }
{
    if packet.to == address {
        on_octets(client, packet.from, packet.payload.as_slice(), now)
    } else {
        client.pass_to(now);
        false
    }
}
