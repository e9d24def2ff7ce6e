// Packets of the bag.
ghost use Rattle.std.specs.Prelude.{◌≡◌, ◌/◌, ◌^◌};
ghost use Rattle.mu_codec.specs.View.{packet_of};
ghost use Rattle.mu_model_node.specs.NodeMessages.{request_at, request_in};
ghost use Rattle.mu_model_node.specs.NodeState.{is_addressee};
ghost use Rattle.mu_model_wire.specs.Blob.{blob_rows};
ghost use Rattle.mu_model_wire.specs.Distribution.{distribution_rows};
ghost use Rattle.mu_model_wire.specs.Reading.{message_at};
ghost use Rattle.mu_model_wire.specs.Update.{update_rows};
ghost use Rattle.mu_model_world.specs.Judged.{offered, owner_of};

use mu_access::{Part, part_of};
use mu_codec::{Packet, Payload, put_octets};
use mu_model_node::NodeConfig;
use mu_updmsg::UpdMsg;

/// Whether a packet is addressed to a node, by its address or its group.
pub(crate) fn is_addressee(config: &NodeConfig, packet: &Packet) -> bool
    ensures { result ≡ is_addressee config.now (packet_of packet.now) }
{
    packet.to == config.address || (config.group != 0 && packet.to == config.group)
}

/// The same octets once more.
pub(crate) fn copy_of(payload: &Payload) -> Payload
    ensures { result.items ≡ payload.now.items }
{
    let mut octets = Payload::new();
    put_octets(&mut octets, payload.as_slice());
    octets
}

fn offered_in_update(payload: &[u8]) -> Option<u64>
    ensures { result ≡ offered (request_in (message_at update_rows payload.now)) }
{
    match mu_updmsg::read(payload) {
        Ok(UpdMsg::UpdateStart { id, .. }) => Some(id),
        _ => None,
    }
}

/// No message of the BLOB Transfer model offers an update.
fn offered_in_blob(payload: &[u8]) -> Option<u64>
    ensures { result ≡ offered (request_in (message_at blob_rows payload.now)) }
{
    match mu_blobmsg::read(payload) {
        Ok(_) => None,
        Err(_) => None,
    }
}

/// No message of the Firmware Distribution model offers one to a node.
#[inline(never)]
fn offered_in_distribution(payload: &[u8]) -> Option<u64>
    ensures { result ≡ offered (request_in (message_at distribution_rows payload.now)) }
{
    match mu_distmsg::read(payload) {
        Ok(_) => None,
        Err(_) => None,
    }
}

/// The BLOB ID of an update that a payload offers.
pub(crate) fn offered(payload: &[u8]) -> Option<u64>
    ensures { result ≡ offered (request_at payload.now) }
{
    match part_of(payload) {
        Part::Update => offered_in_update(payload),
        Part::Blob => offered_in_blob(payload),
        Part::Distribution => offered_in_distribution(payload),
    }
}

/// The address of the member that a BLOB ID belongs to, if there is one: its top 16 bits.
pub(crate) fn owner_of(id: u64) -> u16
    ensures { result ≡ owner_of id }
{
    (id >> 48) as u16
}
