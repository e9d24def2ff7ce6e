// What is seen of the receivers.
ghost use Rattle.std.specs.Prelude.{◌≡◌, ◌&&◌, ◌≤◌};
ghost use Rattle.std.specs.List.{list_any};
ghost use Rattle.mu_model_client.specs.Sets.{has_some};
ghost use Rattle.mu_model_client.specs.Client.{step_number, is_in, is_begun_for, misses_chunks, is_pending, stands_active};
ghost use Rattle.mu_receivers.specs.Receivers.{receiver_of};
ghost use Rattle.mu_receivers.specs.declared.slot.Slot.{Slot};

use crate::slot::Slot;
use mu_model_client::{Standing, Step};
use mu_report::NumberSet;

/// The step's number in the client's table, 1..11.
pub fn number(step: Step) -> u8
    ensures { result ≡ step_number step }
{
    match step {
        Step::Check => 1,
        Step::Start => 2,
        Step::Information => 3,
        Step::Transfer => 4,
        Step::Block(_) => 5,
        Step::Chunks(_) | Step::Pull(_) => 6,
        Step::Get(_) => 7,
        Step::Verify => 8,
        Step::Apply => 9,
        Step::Confirm => 10,
        Step::Cancel => 11,
    }
}

#[tactic(auto, using(crate::proofs::Sets::has_is))]
fn has_some(set: &NumberSet) -> bool
    ensures { result ≡ has_some set.now }
{
    set.first_from(0).is_some()
}

pub(crate) fn is_active(slot: &Slot) -> bool
    ensures { result ≡ stands_active slot.now.standing }
{
    match slot.standing {
        Standing::Active => true,
        _ => false,
    }
}

fn misses(slot: &Slot) -> bool
    ensures { result ≡ misses_chunks (receiver_of slot.now) }
{
    is_active(slot) && has_some(&slot.chunks)
}

/// Whether the receiver is one of the step's.
pub fn is_in(slot: &Slot, step: Step) -> bool
    ensures { result ≡ is_in step (receiver_of slot.now) }
{
    match step {
        Step::Block(b) => is_active(slot) && slot.blocks.contains(b),
        Step::Chunks(_) | Step::Pull(_) | Step::Get(_) => misses(slot),
        Step::Cancel => slot.phase == 7,
        _ => is_active(slot),
    }
}

fn is_begun_for(slot: &Slot, step: Step) -> bool
    ensures { result ≡ is_begun_for step (receiver_of slot.now) }
{
    match step {
        Step::Cancel => slot.phase == 7,
        _ => is_active(slot),
    }
}

/// Whether somebody hasn't answered the step.
pub fn is_any_pending(slots: &[Slot]) -> bool
    ensures { result ≡ list_any (λ s. is_pending (receiver_of s)) slots.now }
{
    slots.iter().any(|slot| slot.pending)
}

/// Whether a message of the list is still to go.
pub fn is_any_listed(slots: &[Slot]) -> bool
    ensures { result ≡ list_any (λ (s : Slot). s.listed) slots.now }
{
    slots.iter().any(|slot| slot.listed)
}

/// Whether the step has somebody to be begun with.
pub fn is_any_begun_for(slots: &[Slot], step: Step) -> bool
    ensures { result ≡ list_any (λ s. is_begun_for step (receiver_of s)) slots.now }
{
    slots.iter().any(|slot| is_begun_for(slot, step))
}

/// Whether an active receiver misses chunks of the block.
pub fn is_any_missing_chunks(slots: &[Slot]) -> bool
    ensures { result ≡ list_any (λ s. misses_chunks (receiver_of s)) slots.now }
{
    slots.iter().any(|slot| misses(slot))
}
