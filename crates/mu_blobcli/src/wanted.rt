// The chunks of the present list that are still to be sent.
ghost use Rattle.std.specs.Prelude.{◌≡◌, ◌≤◌, ◌<◌, length, slice_set, Some, true, if◌then◌else◌};
ghost use Rattle.mu_model_client.specs.declared.Sending.{Sending};
ghost use Rattle.mu_model_client.specs.Client.{block_total, chunk_total};
ghost use Rattle.mu_model_client.specs.Begin.{wanted_below, wanted};
ghost use Rattle.mu_told.specs.Told.{IsSendable};
ghost use Rattle.mu_rounds.specs.After.{block_at};
ghost use Rattle.mu_rounds.specs.Rounds.{client_of, rest_of, HasShape};
ghost use Rattle.mu_blobcli.specs.Wanted.{is_asked};

use mu_arith::{block_len, chunk_count};
use mu_model_client::{Place, Sending, Step};
use mu_receivers::Slot;
use mu_report::NumberSet;
use mu_rounds::{Left, Rounds};

fn is_asked(slots: &[Slot], from: usize, k: u16) -> bool
    requires { from ≤ length slots.now }
    ensures { result ≡ is_asked slots.now from k }
{
    let (_, rest) = slots.split_at(from);
    rest.iter().any(|slot| slot.asked.contains(k))
}

// Takes chunk `k` in, if the list has it for a receiver from this one on.
fn want_if(set: &mut NumberSet, slots: &[Slot], from: usize, k: u16)
    requires within { from ≤ length slots.now }
    requires below { k < length set.old }
    ensures { set.new ≡ (if is_asked slots.now from k then slice_set set.old k true else set.old) }
{
    if is_asked(slots, from, k) {
        set.insert(k);
    }
}

/// The chunks of a list from its place on.
pub(crate) fn wanted_from(slots: &[Slot], left: &Left) -> NumberSet
    requires within { left.now.at.receiver ≤ length slots.now }
    requires few { left.now.chunks ≤ 2048 }
    ensures { (p : Sending) → result ≡ wanted_below left.now.chunks (rest_of p slots.now left.now) }
{
    let mut set = NumberSet::new(left.chunks);
    let mut from = left.at.receiver as usize;
    let mut k = left.at.chunk;
    while k < left.chunks {
        want_if(&mut set, slots, from, k);
        from = 0;
        k += 1;
    }
    set
}

fn chunk_total(sending: &Sending, b: u16) -> u16
    requires range { IsSendable sending.now }
    requires within { b < block_total sending.now }
    ensures total { result ≡ chunk_total sending.now b }
    ensures most { result ≤ 2048 }
{
    chunk_count(block_len(sending.size, sending.log, b), sending.chunk)
}

// The chunks of the list of block `b`.
fn wanted_of(rounds: &Rounds, b: u16) -> NumberSet
    requires whole { HasShape rounds.now }
    requires within { b < block_total rounds.now.sending }
    requires at { block_at rounds.now.place ≡ Some b }
    ensures { result ≡ wanted_below (chunk_total rounds.now.sending b) (client_of rounds.now).queue }
{
    let total = chunk_total(&rounds.sending, b);
    match &rounds.left {
        Some(left) => wanted_from(&rounds.slots, left),
        None => NumberSet::new(total),
    }
}

/// The chunks of the present list that are still to be sent.
pub(crate) fn wanted(rounds: &Rounds) -> NumberSet
    requires { HasShape rounds.now }
    ensures { result ≡ wanted (client_of rounds.now) }
{
    match rounds.place {
        Place::At(Step::Chunks(b)) | Place::At(Step::Pull(b)) => wanted_of(rounds, b),
        _ => NumberSet::new(0),
    }
}
