// The step on BLOB information.
ghost use Rattle.std.specs.Prelude.{◌≡◌};
ghost use Rattle.mu_model_client.specs.Client.{full_chunks};
ghost use Rattle.mu_model_client.specs.Told.{on_limits, takes_mode};
ghost use Rattle.mu_told.specs.Told.{IsTold, IsSendable, limits_of};

use crate::refused::refuse_transfer;
use mu_arith::chunk_count;
use mu_model_client::{Sending, Step};
use mu_receivers::{Slot, answer};

/// What a server can take (MshMBT, BLOB Information Status).
#[derive(Clone, Copy, Debug, PartialEq, Eq)]
pub struct Limits {
    /// The Block Size Logs that it takes.
    pub least_log: u8,
    pub most_log: u8,
    /// Chunks of a block.
    pub most_chunks: u16,
    /// Octets of a chunk, of a BLOB and of a message.
    pub most_chunk: u16,
    pub most_size: u32,
    pub mtu: u16,
    /// Whether it takes these modes.
    pub push: bool,
    pub pull: bool,
}

fn full_chunks(sending: &Sending) -> u16
    requires { IsSendable sending.now }
    ensures { result ≡ full_chunks sending.now }
{
    chunk_count(2u32.pow(sending.log as u32), sending.chunk)
}

fn takes_mode(sending: &Sending, limits: &Limits) -> bool
    ensures { result ≡ takes_mode sending.now (limits_of limits.now) }
{
    if sending.mode == 1 {
        limits.push
    } else {
        limits.pull
    }
}

/// Information: what the server can take.
pub fn on_limits(slot: &mut Slot, sending: &Sending, limits: &Limits)
    requires { IsSendable sending.now }
    ensures { IsTold (λ r. on_limits sending.now r (limits_of limits.now)) slot.old slot.new }
{
    if limits.most_size < sending.size {
        refuse_transfer(slot, Step::Information, 7);
    } else if sending.log < limits.least_log || limits.most_log < sending.log {
        refuse_transfer(slot, Step::Information, 2);
    } else if limits.most_chunk.min(limits.mtu.saturating_sub(4)) < sending.chunk
        || limits.most_chunks < full_chunks(sending)
    {
        refuse_transfer(slot, Step::Information, 3);
    } else if !takes_mode(sending, limits) {
        refuse_transfer(slot, Step::Information, 8);
    } else {
        answer(slot);
    }
}
