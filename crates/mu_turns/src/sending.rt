// Sending packets over a link.
ghost use Rattle.std.specs.Prelude.{◌≡◌, ◌∷◌, ◌++◌, List, [], map, OnOk, OnErr};
ghost use Rattle.std.specs.List.{AllByRecursion};
ghost use Rattle.mu_model_wire.specs.Packet.{Packet as PlainPacket};
ghost use Rattle.mu_model_flash.specs.Cause.{HasCause};
ghost use Rattle.mu_codec.specs.View.{packet_of};
ghost use Rattle.mu_access.specs.Datagram.{CanTravel};
ghost use Rattle.mu_turns.specs.Turns.{Over};

use mu_access::datagram;
use mu_codec::{Outbox, Packet};
use mu_outside::{Failed, Link};

fn send_one<L: Link>(link: &mut L, me: u16, packet: &Packet) -> Result<(), Failed>
    requires { CanTravel (packet_of packet.now) }
    ensures ok { OnOk result (Over me (L.seen link.old) (L.seen link.new) [] (packet_of packet.now ∷ [])) }
    ensures err { OnErr result (Over me (L.seen link.old) (L.seen link.new) [] []) }
    ensures cause { HasCause (L.seen link.old).faults (L.seen link.new).faults result }
{
    link.send(packet.from, packet.to, datagram(packet).as_slice())
}

/// Sends packets in their order. Where the link fails, those before were sent.
pub(crate) fn send_all<L: Link>(link: &mut L, me: u16, out: &Outbox) -> Result<(), Failed>
    requires { AllByRecursion CanTravel (map packet_of out.now.items) }
    ensures ok { OnOk result (Over me (L.seen link.old) (L.seen link.new) [] (map packet_of out.now.items)) }
    ensures err { OnErr result ((sent : List PlainPacket) × (lost : List PlainPacket) × (map packet_of out.now.items ≡ sent ++ lost) × Over me (L.seen link.old) (L.seen link.new) [] sent) }
    ensures cause { HasCause (L.seen link.old).faults (L.seen link.new).faults result }
{
    for packet in out.as_slice() {
        if let Err(failed) = send_one(link, me, packet) {
            return Err(failed);
        }
    }
    Ok(())
}
