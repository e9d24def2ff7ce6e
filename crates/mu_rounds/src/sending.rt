// The messages of a list.
ghost use Rattle.std.specs.Prelude.{◌≡◌, ◌≤◌, ℕ, List, [], map, take, drop, length};
ghost use Rattle.arrayvec.specs.ArrayVec.{array_vec_len};
ghost use Rattle.mu_model_client.specs.declared.Sending.{Sending};
ghost use Rattle.mu_model_client.specs.Client.{Purpose};
ghost use Rattle.mu_model_client.specs.Going.{most_packets};
ghost use Rattle.mu_model_client.specs.Lists.{sent_for};
ghost use Rattle.mu_receivers.specs.Messages.{listed, messages_left};
ghost use Rattle.mu_receivers.specs.Slots.{Each, IsFew, AreFew};
ghost use Rattle.mu_rounds.specs.Sents.{sents_of, HaveOctets};
ghost use Rattle.mu_rounds.specs.Rounds.{SaysOne, IsSaid};

use crate::said::{Sent, message_of};
use arrayvec::ArrayVec;
use mu_model_client::Step;
use mu_receivers::{MOST_PACKETS, Slot};

/// Sends the first messages of a step's list.
pub fn send_messages(slots: &mut [Slot], step: Step, out: &mut ArrayVec<Sent, MOST_PACKETS>)
    requires { out.old.items ≡ [] }
    ensures sent { (p : Sending) (purpose : Purpose) (image : List ℕ) → sents_of p purpose out.new.items ≡ map (sent_for p image) (take most_packets (messages_left p purpose step slots.old)) }
    ensures left { (p : Sending) (purpose : Purpose) → messages_left p purpose step slots.new ≡ drop most_packets (messages_left p purpose step slots.old) }
    ensures octets { HaveOctets out.new.items }
    ensures each { Each IsSaid slots.old slots.new }
    ensures few { AreFew slots.old → AreFew slots.new }
{
    for i in 0..slots.len() {
        let slot = &mut slots[i];
        send_message(slot, step, out);
    }
}

// Sends the receiver's message of a step's list, if it is still to go and there is room.
fn send_message(slot: &mut Slot, step: Step, out: &mut ArrayVec<Sent, MOST_PACKETS>)
    ensures says { (p : Sending) (purpose : Purpose) → SaysOne p purpose step slot.old slot.new out.old.items out.new.items }
    ensures octets { HaveOctets out.old.items → HaveOctets out.new.items }
    ensures said { IsSaid slot.old slot.new }
    ensures few { IsFew slot.old → IsFew slot.new }
{
    if slot.listed && !out.is_full() {
        if let Some(said) = message_of(step, slot.index) {
            out.push(Sent {
                to: slot.address,
                said,
            });
        }
        slot.listed = false;
    }
}
