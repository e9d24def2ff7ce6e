// A member of a mesh.
ghost use Rattle.std.specs.Prelude.{◌≡◌, Bool, [], List, map, OnOk, IfErr};
ghost use Rattle.std.specs.List.{AllByRecursion};
ghost use Rattle.mu_model_wire.specs.Packet.{Packet as PlainPacket};
ghost use Rattle.mu_codec.specs.View.{packet_of};
ghost use Rattle.mu_access.specs.Datagram.{CanTravel};
ghost use Rattle.mu_turns.specs.Turns.{Event, Came, Time};

use crate::stop::Fault;
use mu_codec::{Outbox, Packet};

/// What a member does with a packet and with time. Moments are in milliseconds.
pub trait Member {
    ghost use Rattle.mu_turns.specs.declared.stop.Fault.{Fault as FaultIs};

    /// The state before, an event, the state after, the replies.
    ghost step: { Self → Event → Self → List PlainPacket → Type 0 };

    /// An event at which it fails, why, and the state after.
    ghost fails: { Self → Event → FaultIs → Self → Type 0 };

    /// Whether it has done what it was started for. One that serves for ever never has.
    ghost ended: { Self → Bool };

    /// A packet came.
    fn on_packet(&mut self, packet: &Packet, now: u64, out: &mut Outbox) -> Result<(), Fault>
        requires { out.old.items ≡ [] }
        ensures step { OnOk result (step self.old (Came (packet_of packet.now) now) self.new (map packet_of out.new.items)) }
        ensures travel { OnOk result (AllByRecursion CanTravel (map packet_of out.new.items)) }
        ensures fails { IfErr result (λ fault. fails self.old (Came (packet_of packet.now) now) fault self.new) };

    /// Time passed.
    fn on_time(&mut self, now: u64, out: &mut Outbox) -> Result<(), Fault>
        requires { out.old.items ≡ [] }
        ensures step { OnOk result (step self.old (Time now) self.new (map packet_of out.new.items)) }
        ensures travel { OnOk result (AllByRecursion CanTravel (map packet_of out.new.items)) }
        ensures fails { IfErr result (λ fault. fails self.old (Time now) fault self.new) };

    /// Whether it has ended.
    fn has_ended(&self) -> bool
        ensures { result ≡ ended self.now };
}
