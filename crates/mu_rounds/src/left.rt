// What is left of a list of chunks.
ghost use Rattle.std.specs.Prelude.{◌≡◌, ◌≤◌, ◌<◌, IfSome, length, false};
ghost use Rattle.mu_model_client.specs.Client.{block_total, chunk_total};
ghost use Rattle.mu_model_client.specs.Going.{is_empty};
ghost use Rattle.mu_receivers.specs.Chunks.{rest};
ghost use Rattle.mu_told.specs.Told.{IsSendable};
ghost use Rattle.mu_rounds.specs.Rounds.{rest_of, chunks_left};

use mu_arith::{block_len, chunk_count};
use mu_model_client::Sending;
use mu_receivers::{Cursor, Slot, first_cursor};

/// Chunks that are still to be sent: of this block, which has so many, from this place on.
#[derive(Clone, Copy, Debug, PartialEq, Eq)]
pub struct Left {
    pub block: u16,
    pub chunks: u16,
    pub at: Cursor,
}

/// The list of all chunks of block `b` that it has for somebody.
pub(crate) fn all_chunks(sending: &Sending, slots: &[Slot], b: u16) -> Option<Left>
    requires range { IsSendable sending.now }
    requires within { b < block_total sending.now }
    requires few { length slots.now ≤ 128 }
    ensures list { chunks_left sending.now slots.now result ≡ rest sending.now.group b (chunk_total sending.now b) slots.now 0 0 }
    ensures block { IfSome result (λ left. left.block ≡ b) }
    ensures chunks { IfSome result (λ left. left.chunks ≡ chunk_total sending.now b) }
    ensures receiver { IfSome result (λ left. left.at.receiver ≤ length slots.now) }
    ensures some { IfSome result (λ left. is_empty (rest_of sending.now slots.now left) ≡ false) }
{
    let chunks = chunk_count(block_len(sending.size, sending.log, b), sending.chunk);
    match first_cursor(slots, sending.group, b, chunks) {
        Some(at) => Some(Left {
            block: b,
            chunks,
            at,
        }),
        None => None,
    }
}
