// Packets of what a client sends.
ghost use Rattle.std.specs.Prelude.{◌≡◌, ◌+◌, ◌<◌, ◌≤◌, ◌++◌, ◌∷◌, [], map, length};
ghost use Rattle.arrayvec.specs.ArrayVec.{array_vec_len};
ghost use Rattle.mu_codec.specs.View.{packet_of};
ghost use Rattle.mu_model_client.specs.Packets.{request_packet};
ghost use Rattle.mu_model_client.specs.Going.{most_packets};
ghost use Rattle.mu_told.specs.Told.{IsSendable};
ghost use Rattle.mu_rounds.specs.Sents.{sent_of, sents_of, HasOctets, HaveOctets};
ghost use Rattle.mu_client_messages.specs.Messages.{HasMode};

use crate::writing::octets_of;
use mu_codec::{Outbox, Packet};
use mu_model_client::{Purpose, Sending};
use mu_rounds::Sent;

fn send(sending: &Sending, purpose: &Purpose, sent: &Sent, out: &mut Outbox)
    requires range { IsSendable sending.now }
    requires mode { HasMode sending.now }
    requires some { HasOctets sent.now }
    requires room { array_vec_len out.old < 32 }
    ensures packet { map packet_of out.new.items ≡ map packet_of out.old.items ++ request_packet sending.now.from (sent_of sending.now purpose.now sent.now) ∷ [] }
    ensures count { array_vec_len out.new ≡ array_vec_len out.old + 1 }
{
    out.push(Packet {
        from: sending.from,
        to: sent.to,
        payload: octets_of(sending, purpose, &sent.said),
    });
}

/// Sends all of these, at most 16, from the client's address. The outbox is empty.
pub fn send_all(sending: &Sending, purpose: &Purpose, sents: &[Sent], out: &mut Outbox)
    requires range { IsSendable sending.now }
    requires mode { HasMode sending.now }
    requires some { HaveOctets sents.now }
    requires few { length sents.now ≤ most_packets }
    requires empty { out.old.items ≡ [] }
    ensures { map packet_of out.new.items ≡ map (request_packet sending.now.from) (sents_of sending.now purpose.now sents.now) }
{
    for sent in sents {
        send(sending, purpose, sent, out);
    }
}
