// The step in pull: what a receiver asks for.
ghost use Rattle.std.specs.Prelude.{◌≡◌, ◌≤◌, ◌<◌, length, take, is_some, IfSome};
ghost use Rattle.mu_model_wire.specs.Reports.{members, union};
ghost use Rattle.mu_model_client.specs.Sets.{set_of, all_below};
ghost use Rattle.mu_model_client.specs.Client.{block_total, chunk_total, Receiver};
ghost use Rattle.mu_model_client.specs.Answers.{BlockIs, PartIs};
ghost use Rattle.mu_model_client.specs.Told.{hears, most_wanted, on_pull};
ghost use Rattle.mu_receivers.specs.Receivers.{receiver_of};
ghost use Rattle.mu_told.specs.Told.{IsTold, IsSendable, WantsOf};

use crate::blob::{chunk_total, chunks_in, has_some, hold_chunks};
use crate::refused::refuse_transfer;
use mu_model_client::{Sending, Step};
use mu_receivers::{Slot, answer};
use mu_report::{NumberSet, Report};

// The set of the listed numbers, if all are below `n`.
fn set_of(numbers: &[u16], n: u16) -> Option<NumberSet>
    requires { n ≤ 2048 }
    ensures below { is_some result ≡ all_below n numbers.now }
    ensures set { IfSome result (λ set. set ≡ set_of n numbers.now) }
    ensures bound { IfSome result (λ set. length set ≡ n) }
{
    let mut set = NumberSet::new(n);
    for number in numbers {
        if *number >= n {
            return None;
        }
        set.insert(*number);
    }
    Some(set)
}

/// Chunks that a pulling receiver wants at once at most (this profile).
pub const MOST_WANTED: u8 = 16;

// The least numbers of a set, as many as are wanted at once.
fn first_wanted(set: &NumberSet) -> NumberSet
    ensures firsts { result ≡ set_of (length set.now) (take most_wanted (members set.now)) }
    ensures bound { length result ≡ length set.now }
{
    let mut firsts = NumberSet::new(set.bound());
    let mut at = 0;
    let mut count = 0u8;
    while count < MOST_WANTED {
        let Some(number) = set.first_from(at) else {
            return firsts;
        };
        firsts.insert(number);
        at = number + 1;
        count += 1;
    }
    firsts
}

fn hear(slot: &mut Slot)
    ensures { IsTold hears slot.old slot.new }
{
    slot.heard = true;
}

// The numbers, and those that the receiver wants already.
#[tactic(auto, using(crate::proofs::Wanted::none_wanted, crate::proofs::Wanted::empty_wanted))]
fn all_wanted(slot: &Slot, numbers: NumberSet) -> NumberSet
    requires { WantsOf (length numbers) (receiver_of slot.now) }
    ensures { result ≡ union numbers (receiver_of slot.now).wanted }
{
    if !slot.wants {
        return numbers;
    }
    if slot.wanted.bound() == 0 {
        return numbers;
    }
    let mut all = numbers;
    all.union_with(&slot.wanted);
    all
}

// Wanted numbers add up between time events.
fn want(slot: &mut Slot, numbers: NumberSet)
    requires { WantsOf (length numbers) (receiver_of slot.old) }
    ensures { IsTold (λ r. record r { wanted = union numbers r.wanted }) slot.old slot.new }
{
    slot.wanted = all_wanted(slot, numbers);
    slot.wants = true;
}

/// Pull, of block `b`: a Partial Block Report.
pub fn on_part(slot: &mut Slot, sending: &Sending, b: u16, chunks: &[u16])
    requires range { IsSendable sending.now }
    requires within { b < block_total sending.now }
    requires wanted { WantsOf (chunk_total sending.now b) (receiver_of slot.old) }
    ensures { IsTold (λ r. on_pull sending.now b r (PartIs chunks.now)) slot.old slot.new }
{
    let total = chunk_total(sending, b);
    if let Some(numbers) = set_of(chunks, total) {
        hear(slot);
        if chunks.is_empty() {
            hold_chunks(slot, b, NumberSet::new(total));
            answer(slot);
        } else {
            want(slot, numbers);
        }
    }
}

/// Pull, of block `b`: a Block Status.
pub fn on_pull_status(
    slot: &mut Slot,
    sending: &Sending,
    b: u16,
    status: u8,
    block: u16,
    size: u16,
    report: &Report,
)
    requires range { IsSendable sending.now }
    requires within { b < block_total sending.now }
    requires wanted { WantsOf (chunk_total sending.now b) (receiver_of slot.old) }
    ensures { IsTold (λ r. on_pull sending.now b r (BlockIs status block size report.now)) slot.old slot.new }
{
    if status != 0 {
        refuse_transfer(slot, Step::Pull(b), status);
    } else if let Some(chunks) = chunks_in(sending, b, block, size, report) {
        hear(slot);
        let firsts = first_wanted(&chunks);
        let some = has_some(&chunks);
        hold_chunks(slot, b, chunks);
        if some {
            want(slot, firsts);
        } else {
            answer(slot);
        }
    }
}
