// The block that comes next.
ghost use Rattle.std.specs.Prelude.{◌≡◌, ℕ, ◌≤◌, ◌<◌, true, false, IfSome};
ghost use Rattle.mu_model_client.specs.declared.Sending.{Sending};
ghost use Rattle.mu_model_client.specs.Client.{block_total, misses_block};
ghost use Rattle.mu_model_client.specs.Going.{least_missed};
ghost use Rattle.mu_receivers.specs.Receivers.{receiver_of, receivers_of};

use crate::seen::is_active;
use crate::slot::Slot;

/// The least of `total` blocks that an active receiver misses.
pub fn least_missed(slots: &[Slot], total: u16) -> Option<u16>
    ensures least { (p : Sending) → total ≡ block_total p → result ≡ least_missed p (receivers_of slots.now) }
    ensures within { IfSome result (λ b. b < total) }
{
    let mut least = total;
    for slot in slots {
        least = least_of(slot, least);
    }
    if least < total { Some(least) } else { None }
}

// The least block that the receiver misses, or `least` where that is less.
fn least_of(slot: &Slot, least: u16) -> u16
    ensures most { result ≤ least }
    ensures none { (b : ℕ) → b < result → misses_block b (receiver_of slot.now) ≡ false }
    ensures missed { result < least → misses_block result (receiver_of slot.now) ≡ true }
{
    if !is_active(slot) {
        return least;
    }
    match slot.blocks.first_from(0) {
        Some(b) if b < least => b,
        _ => least,
    }
}
