// What a round or a step makes of one receiver.
ghost use Rattle.std.specs.Prelude.{◌≡◌, ◌+◌, ◌<◌, ℕ};
ghost use Rattle.mu_model_client.specs.Client.{step_number};
ghost use Rattle.mu_model_client.specs.Told.{answered, dropped};
ghost use Rattle.mu_model_client.specs.Lists.{missing_of, wanted_of};
ghost use Rattle.mu_model_client.specs.Going.{silent_after, most_silent, fell_silent};
ghost use Rattle.mu_receivers.specs.Receivers.{receiver_of};
ghost use Rattle.mu_receivers.specs.Slots.{KeepsList, KeepsWas, IsKept, IsBegun, IsCounted, IsTakenBack, IsRenewed, IsUnwanting, IsAsked, IsFew, by_message, passes_over};

use crate::seen::{is_in, number};
use crate::slot::{Slot, Was};
use mu_model_client::{Dropped, Standing, Step};
use mu_report::NumberSet;

/// The receiver has answered its step.
pub fn answer(slot: &mut Slot)
    ensures receiver { receiver_of slot.new ≡ answered (receiver_of slot.old) }
    ensures list { KeepsList slot.old slot.new }
    ensures was { KeepsWas slot.old slot.new }
    ensures few { IsFew slot.old → IsFew slot.new }
{
    slot.pending = false;
    slot.wants = false;
}

/// The receiver is dropped for this cause.
pub fn drop_by(slot: &mut Slot, cause: Dropped)
    ensures receiver { receiver_of slot.new ≡ dropped cause (receiver_of slot.old) }
    ensures list { KeepsList slot.old slot.new }
    ensures was { KeepsWas slot.old slot.new }
    ensures few { IsFew slot.new }
{
    slot.standing = Standing::Gone(cause);
    slot.pending = false;
    slot.wants = false;
}

fn is_by_message(step: Step) -> bool
    ensures { result ≡ by_message step }
{
    match step {
        Step::Chunks(_) | Step::Pull(_) => false,
        _ => true,
    }
}

fn is_passed_over(step: Step, heard: bool) -> bool
    ensures { result ≡ passes_over step heard }
{
    match step {
        Step::Pull(_) => heard,
        _ => false,
    }
}

pub(crate) fn keep_one(slot: &mut Slot)
    ensures kept { IsKept slot.old slot.new }
    ensures few { IsFew slot.old → IsFew slot.new }
{
    slot.was = Was {
        phase: slot.phase,
        standing: slot.standing,
        pending: slot.pending,
        heard: slot.heard,
        silent: slot.silent,
        wants: slot.wants,
        listed: slot.listed,
    };
}

pub(crate) fn begin_one(slot: &mut Slot, step: Step)
    ensures begun { IsBegun step slot.old slot.new }
    ensures few { IsFew slot.old → IsFew slot.new }
{
    let is_in = is_in(slot, step);
    slot.pending = is_in;
    slot.heard = false;
    slot.wants = false;
    if is_in {
        slot.silent = 0;
    }
    slot.listed = is_in && is_by_message(step);
}

/// Silent rounds that drop a receiver (this profile).
pub const MOST_SILENT: u8 = 5;

// Silent rounds, with this one.
fn silent_now(slot: &Slot, step: Step) -> u8
    requires { slot.now.silent < most_silent }
    ensures { result ≡ silent_after step (receiver_of slot.now) }
{
    match step {
        Step::Pull(_) if slot.heard => 0,
        _ => slot.silent + 1,
    }
}

fn fall_silent(slot: &mut Slot, step: Step)
    ensures receiver { receiver_of slot.new ≡ fell_silent (receiver_of slot.old) step }
    ensures list { KeepsList slot.old slot.new }
    ensures was { KeepsWas slot.old slot.new }
    ensures few { IsFew slot.old → IsFew slot.new }
{
    match step {
        Step::Apply | Step::Cancel => answer(slot),
        Step::Confirm => {
            if slot.phase != 8 {
                slot.phase = 9;
            }
            drop_by(slot, Dropped::Silent(10));
        }
        _ => drop_by(slot, Dropped::Silent(number(step))),
    }
}

pub(crate) fn count_one(slot: &mut Slot, step: Step)
    requires { IsFew slot.old }
    ensures counted { IsCounted step slot.old slot.new }
    ensures few { IsFew slot.new }
{
    if slot.pending {
        slot.silent = silent_now(slot, step);
        if slot.silent >= MOST_SILENT {
            fall_silent(slot, step);
        }
    }
}

pub(crate) fn take_back_one(slot: &mut Slot)
    ensures { IsTakenBack slot.old slot.new }
{
    slot.phase = slot.was.phase;
    slot.standing = slot.was.standing;
    slot.pending = slot.was.pending;
    slot.heard = slot.was.heard;
    slot.silent = slot.was.silent;
    slot.wants = slot.was.wants;
    slot.listed = slot.was.listed;
}

pub(crate) fn renew_one(slot: &mut Slot, step: Step)
    ensures renewed { IsRenewed step slot.old slot.new }
    ensures few { IsFew slot.old → IsFew slot.new }
{
    slot.listed = slot.pending && !is_passed_over(step, slot.heard);
    slot.heard = false;
}

pub(crate) fn unwant_one(slot: &mut Slot)
    ensures unwanting { IsUnwanting slot.old slot.new }
    ensures few { IsFew slot.old → IsFew slot.new }
{
    slot.wants = false;
}

#[tactic(auto, using(crate::proofs::Sets::twice))]
fn copied(set: &NumberSet) -> NumberSet
    ensures { result ≡ set.now }
{
    set.missing().missing()
}

pub(crate) fn ask_missing_one(slot: &mut Slot)
    ensures asked { IsAsked missing_of slot.old slot.new }
    ensures few { IsFew slot.old → IsFew slot.new }
{
    slot.asked = match slot.standing {
        Standing::Active => copied(&slot.chunks),
        _ => NumberSet::new(0),
    };
}

pub(crate) fn ask_wanted_one(slot: &mut Slot)
    ensures asked { IsAsked wanted_of slot.old slot.new }
    ensures few { IsFew slot.old → IsFew slot.new }
{
    slot.asked = match slot.standing {
        Standing::Active if slot.wants => copied(&slot.wanted),
        _ => NumberSet::new(0),
    };
}
