// Packets that carry answers.
ghost use Rattle.std.specs.Prelude.{◌≡◌, ◌<◌, ◌++◌, ◌∷◌, [], map};
ghost use Rattle.arrayvec.specs.ArrayVec.{array_vec_len};
ghost use Rattle.mu_codec.specs.View.{packet_of};
ghost use Rattle.mu_model_distributor.specs.DistMessages.{ByDistribution, sent_packet};

use crate::writing::octets_of;
use mu_codec::{Outbox, Packet};
use mu_distributor_rows::DistAnswer;

/// Sends an answer from an address to its destination. The outbox has room.
pub fn send(from: u16, to: u16, answer: DistAnswer, out: &mut Outbox)
    requires { array_vec_len out.old < 32 }
    ensures { map packet_of out.new.items ≡ map packet_of out.old.items ++ sent_packet from (to, ByDistribution answer) ∷ [] }
{
    out.push(Packet {
        from,
        to,
        payload: octets_of(answer),
    });
}
