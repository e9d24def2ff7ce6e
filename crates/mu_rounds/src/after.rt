// What comes after a step.
ghost use Rattle.std.specs.Prelude.{◌≡◌, ◌<◌};
ghost use Rattle.mu_model_client.specs.Client.{part_of, block_total};
ghost use Rattle.mu_model_client.specs.Going.{after, after_blocks, next_block, chunks_or, chunk_step, after_verify, applies};
ghost use Rattle.mu_receivers.specs.Receivers.{receivers_of};
ghost use Rattle.mu_told.specs.Told.{IsSendable, StepFits};
ghost use Rattle.mu_rounds.specs.After.{next_of, NextFits};

use mu_arith::block_count;
use mu_model_client::{Part, Purpose, Sending, Step};
use mu_receivers::{Slot, is_any_missing_chunks, least_missed};

/// What comes after a step.
#[derive(Clone, Copy, Debug, PartialEq, Eq)]
pub enum Next {
    Go(Step),
    /// Nothing, until an applying is asked for.
    Rests,
    Ends(Part),
}

/// The part that a step belongs to.
pub fn part_of(step: Step) -> Part
    ensures { result ≡ part_of step }
{
    match step {
        Step::Apply | Step::Confirm => Part::Applying,
        Step::Cancel => Part::Cancelling,
        _ => Part::Transferring,
    }
}

fn after_blocks(purpose: &Purpose) -> Next
    ensures { next_of result ≡ after_blocks purpose.now }
{
    match purpose {
        Purpose::Blob => Next::Ends(Part::Transferring),
        Purpose::Update(_, _) => Next::Go(Step::Verify),
    }
}

fn after_verify(purpose: &Purpose) -> Next
    ensures { next_of result ≡ after_verify (applies purpose.now) }
{
    match purpose {
        Purpose::Update(_, true) => Next::Go(Step::Apply),
        _ => Next::Rests,
    }
}

fn next_block(sending: &Sending, purpose: &Purpose, slots: &[Slot]) -> Next
    requires { IsSendable sending.now }
    ensures next { next_of result ≡ next_block sending.now purpose.now (receivers_of slots.now) }
    ensures fits { NextFits sending.now result }
{
    match least_missed(slots, block_count(sending.size, sending.log)) {
        Some(b) => Next::Go(Step::Block(b)),
        None => after_blocks(purpose),
    }
}

// The step on chunks of a block where an active receiver misses some.
fn chunks_or(sending: &Sending, purpose: &Purpose, slots: &[Slot], step: Step) -> Next
    requires range { IsSendable sending.now }
    requires fits { StepFits sending.now step }
    ensures next { next_of result ≡ chunks_or step (next_block sending.now purpose.now (receivers_of slots.now)) (receivers_of slots.now) }
    ensures fits { NextFits sending.now result }
{
    if is_any_missing_chunks(slots) {
        Next::Go(step)
    } else {
        next_block(sending, purpose, slots)
    }
}

fn chunk_step(sending: &Sending, b: u16) -> Step
    requires { b < block_total sending.now }
    ensures step { result ≡ chunk_step sending.now b }
    ensures fits { StepFits sending.now result }
{
    if sending.mode == 1 {
        Step::Chunks(b)
    } else {
        Step::Pull(b)
    }
}

/// What comes after a step.
pub(crate) fn after(sending: &Sending, purpose: &Purpose, slots: &[Slot], step: Step) -> Next
    requires range { IsSendable sending.now }
    requires fits { StepFits sending.now step }
    ensures next { next_of result ≡ after sending.now purpose.now (receivers_of slots.now) step }
    ensures fits { NextFits sending.now result }
{
    match step {
        Step::Check => Next::Go(Step::Start),
        Step::Start => Next::Go(Step::Information),
        Step::Information => Next::Go(Step::Transfer),
        Step::Transfer | Step::Pull(_) => next_block(sending, purpose, slots),
        Step::Block(b) => chunks_or(sending, purpose, slots, chunk_step(sending, b)),
        Step::Chunks(b) => Next::Go(Step::Get(b)),
        Step::Get(b) => chunks_or(sending, purpose, slots, Step::Chunks(b)),
        Step::Verify => after_verify(purpose),
        Step::Apply => Next::Go(Step::Confirm),
        Step::Confirm => Next::Ends(Part::Applying),
        Step::Cancel => Next::Ends(Part::Cancelling),
    }
}
