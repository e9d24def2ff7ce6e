// What a round or a step makes of all receivers.
ghost use Rattle.std.specs.Prelude.{◌≡◌, ℕ, length};
ghost use Rattle.mu_model_client.specs.Lists.{chunk_items, missing_of, wanted_of};
ghost use Rattle.mu_model_client.specs.declared.Sending.{Sending};
ghost use Rattle.mu_model_client.specs.Client.{chunk_total};
ghost use Rattle.mu_receivers.specs.Receivers.{receivers_of};
ghost use Rattle.mu_receivers.specs.Chunks.{rest};
ghost use Rattle.mu_receivers.specs.Slots.{Each, IsKept, IsBegun, IsCounted, IsTakenBack, IsRenewed, IsUnwanting, IsAsked, AreFew};

use crate::one::{
    ask_missing_one, ask_wanted_one, begin_one, count_one, keep_one, renew_one, take_back_one,
    unwant_one,
};
use crate::slot::Slot;
use mu_model_client::Step;

/// Keeps how each receiver is before a time event.
pub fn keep(slots: &mut [Slot])
    ensures each { Each (IsKept) slots.old slots.new }
    ensures few { AreFew slots.old → AreFew slots.new }
{
    for i in 0..slots.len() {
        let slot = &mut slots[i];
        keep_one(slot);
    }
}

/// Begins a step with each of its receivers.
pub fn begin(slots: &mut [Slot], step: Step)
    ensures each { Each (IsBegun step) slots.old slots.new }
    ensures few { AreFew slots.old → AreFew slots.new }
{
    for i in 0..slots.len() {
        let slot = &mut slots[i];
        begin_one(slot, step);
    }
}

/// Counts the end of a round for each receiver that is pending.
pub fn count(slots: &mut [Slot], step: Step)
    requires { AreFew slots.old }
    ensures each { Each (IsCounted step) slots.old slots.new }
    ensures few { AreFew slots.new }
{
    for i in 0..slots.len() {
        let slot = &mut slots[i];
        count_one(slot, step);
    }
}

/// Takes a time event back: each receiver is as it was kept.
pub fn take_back(slots: &mut [Slot])
    ensures each { Each (IsTakenBack) slots.old slots.new }
{
    for i in 0..slots.len() {
        let slot = &mut slots[i];
        take_back_one(slot);
    }
}

/// Begins a new round of a step with each receiver that is pending.
pub fn renew(slots: &mut [Slot], step: Step)
    ensures each { Each (IsRenewed step) slots.old slots.new }
    ensures few { AreFew slots.old → AreFew slots.new }
{
    for i in 0..slots.len() {
        let slot = &mut slots[i];
        renew_one(slot, step);
    }
}

/// Nobody wants a chunk any more.
pub fn unwant(slots: &mut [Slot])
    ensures each { Each (IsUnwanting) slots.old slots.new }
    ensures few { AreFew slots.old → AreFew slots.new }
{
    for i in 0..slots.len() {
        let slot = &mut slots[i];
        unwant_one(slot);
    }
}

/// The list has for each active receiver the chunks that it misses.
pub fn ask_missing(slots: &mut [Slot])
    ensures each { Each (IsAsked missing_of) slots.old slots.new }
    ensures list { (p : Sending) (b : ℕ) → rest p.group b (chunk_total p b) slots.new 0 0 ≡ chunk_items p b missing_of (receivers_of slots.old) }
    ensures few { AreFew slots.old → AreFew slots.new }
{
    for i in 0..slots.len() {
        let slot = &mut slots[i];
        ask_missing_one(slot);
    }
}

/// The list has for each active receiver the chunks that it wants.
pub fn ask_wanted(slots: &mut [Slot])
    ensures each { Each (IsAsked wanted_of) slots.old slots.new }
    ensures list { (p : Sending) (b : ℕ) → rest p.group b (chunk_total p b) slots.new 0 0 ≡ chunk_items p b wanted_of (receivers_of slots.old) }
    ensures few { AreFew slots.old → AreFew slots.new }
{
    for i in 0..slots.len() {
        let slot = &mut slots[i];
        ask_wanted_one(slot);
    }
}
