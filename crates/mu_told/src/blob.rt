// Steps that BLOB messages answer, in push.
ghost use Rattle.std.specs.Prelude.{◌≡◌, ◌≤◌, ◌<◌, length, IfSome};
ghost use Rattle.mu_model_client.specs.Sets.{has_some, size_of, named_set, set_of_field};
ghost use Rattle.mu_model_client.specs.Client.{block_total, chunk_total};
ghost use Rattle.mu_model_client.specs.Answers.{TransferIs, BlockIs};
ghost use Rattle.mu_model_client.specs.Told.{held_percent, with_blocks, holds_block, with_chunks, is_ours, blocks_in, chunks_in, on_transfer, on_block, on_get, most_barren, with_barren, barren_after};
ghost use Rattle.mu_receivers.specs.Receivers.{receiver_of};
ghost use Rattle.mu_told.specs.Told.{IsTold, IsSendable};

use crate::refused::refuse_transfer;
use arrayvec::ArrayVec;
use mu_arith::{block_count, block_len, chunk_count, percent};
use mu_model_client::{Dropped, Sending, Step};
use mu_model_node::Parameters;
use mu_receivers::{Slot, answer, drop_by};
use mu_report::{NumberSet, Report, read_report};

/// The set below `n` that a report names, if it names one.
fn named(report: &Report, n: u16) -> Option<NumberSet>
    requires { n ≤ 2048 }
    ensures set { result ≡ named_set n report.now }
    ensures bound { IfSome result (λ set. length set ≡ n) }
{
    mu_model_client_laws::laws::named_sets();
    read_report(report, n)
}

pub(crate) fn chunk_total(sending: &Sending, b: u16) -> u16
    requires range { IsSendable sending.now }
    requires within { b < block_total sending.now }
    ensures total { result ≡ chunk_total sending.now b }
    ensures most { result ≤ 2048 }
{
    chunk_count(block_len(sending.size, sending.log, b), sending.chunk)
}

#[tactic(auto, using(crate::proofs::Named::size_is))]
fn held_percent(blocks: &NumberSet) -> u8
    ensures { result ≡ held_percent blocks.now }
{
    let all = blocks.bound();
    if all == 0 {
        return 0;
    }
    percent(all - blocks.count(), all)
}

fn hold_blocks(slot: &mut Slot, blocks: NumberSet)
    ensures { IsTold (with_blocks blocks) slot.old slot.new }
{
    slot.progress = held_percent(&blocks);
    slot.blocks = blocks;
}

fn hold_block(slot: &mut Slot, b: u16)
    ensures { IsTold (holds_block b) slot.old slot.new }
{
    slot.blocks.remove(b);
    slot.progress = held_percent(&slot.blocks);
}

#[tactic(auto, using(crate::proofs::Named::has_is))]
pub(crate) fn has_some(set: &NumberSet) -> bool
    ensures { result ≡ has_some set.now }
{
    set.first_from(0).is_some()
}

pub(crate) fn hold_chunks(slot: &mut Slot, b: u16, chunks: NumberSet)
    ensures { IsTold (with_chunks b chunks) slot.old slot.new }
{
    let some = has_some(&chunks);
    slot.chunks = chunks;
    if !some {
        hold_block(slot, b);
    }
}

fn is_ours(sending: &Sending, id: Option<u64>, parameters: Option<Parameters>) -> bool
    ensures { result ≡ is_ours sending.now id parameters }
{
    match (id, parameters) {
        (Some(id), Some(parameters)) => {
            id == sending.id && parameters.size == sending.size && parameters.log == sending.log
        }
        _ => false,
    }
}

// The set below `n` whose bit field the octets are.
fn set_of_field(field: &[u8], n: u16) -> Option<NumberSet>
    requires bound { n ≤ 2048 }
    requires most { length field.now ≤ 374 }
    ensures { result ≡ set_of_field n field.now }
{
    let mut octets = ArrayVec::new();
    if octets.try_extend_from_slice(field).is_err() {
        prove!(false);
    }
    named(&Report::Bits(octets), n)
}

fn blocks_in(sending: &Sending, phase: u8, field: &[u8]) -> Option<NumberSet>
    requires range { IsSendable sending.now }
    requires most { length field.now ≤ 374 }
    ensures { result ≡ blocks_in sending.now phase field.now }
{
    let total = block_count(sending.size, sending.log);
    if phase == 2 || phase == 3 {
        set_of_field(field, total)
    } else if phase == 4 {
        Some(NumberSet::new(total))
    } else {
        None
    }
}

/// Transfer: a Transfer Status, whose bit field has at most 374 octets.
pub fn on_transfer(
    slot: &mut Slot,
    sending: &Sending,
    status: u8,
    phase: u8,
    id: Option<u64>,
    parameters: Option<Parameters>,
    field: &[u8],
)
    requires range { IsSendable sending.now }
    requires most { length field.now ≤ 374 }
    ensures { IsTold (λ r. on_transfer sending.now r (TransferIs status phase id parameters field.now)) slot.old slot.new }
{
    if status != 0 {
        refuse_transfer(slot, Step::Transfer, status);
    } else if is_ours(sending, id, parameters) {
        if let Some(blocks) = blocks_in(sending, phase, field) {
            hold_blocks(slot, blocks);
            answer(slot);
        }
    }
}

pub(crate) fn chunks_in(
    sending: &Sending,
    b: u16,
    block: u16,
    size: u16,
    report: &Report,
) -> Option<NumberSet>
    requires range { IsSendable sending.now }
    requires within { b < block_total sending.now }
    ensures set { result ≡ chunks_in sending.now b block size report.now }
    ensures bound { IfSome result (λ set. length set ≡ chunk_total sending.now b) }
{
    if block == b && size == sending.chunk {
        named(report, chunk_total(sending, b))
    } else {
        None
    }
}

/// Block `b`: a Block Status.
pub fn on_block(
    slot: &mut Slot,
    sending: &Sending,
    b: u16,
    status: u8,
    block: u16,
    size: u16,
    report: &Report,
)
    requires range { IsSendable sending.now }
    requires within { b < block_total sending.now }
    ensures { IsTold (λ r. on_block sending.now b r (BlockIs status block size report.now)) slot.old slot.new }
{
    if status != 0 {
        refuse_transfer(slot, Step::Block(b), status);
    } else if let Some(chunks) = chunks_in(sending, b, block, size, report) {
        hold_chunks(slot, b, chunks);
        answer(slot);
    }
}

/// Fruitless answers in a row that drop a receiver (this profile).
pub const MOST_BARREN: u8 = 5;

// Fruitless answers, with one that misses these chunks.
#[tactic(auto, using(crate::proofs::Named::size_is))]
fn barren_after(slot: &Slot, chunks: &NumberSet) -> u8
    requires { slot.now.barren < most_barren }
    ensures { result ≡ barren_after (receiver_of slot.now) chunks.now }
{
    if slot.chunks.count() <= chunks.count() {
        slot.barren + 1
    } else {
        0
    }
}

fn count_barren(slot: &mut Slot, barren: u8)
    ensures { IsTold (with_barren barren) slot.old slot.new }
{
    slot.barren = barren;
    if barren >= MOST_BARREN {
        drop_by(slot, Dropped::Barren);
    }
}

/// Get, of block `b`: a Block Status.
pub fn on_get(
    slot: &mut Slot,
    sending: &Sending,
    b: u16,
    status: u8,
    block: u16,
    size: u16,
    report: &Report,
)
    requires range { IsSendable sending.now }
    requires within { b < block_total sending.now }
    requires few { slot.old.barren < most_barren }
    ensures { IsTold (λ r. on_get sending.now b r (BlockIs status block size report.now)) slot.old slot.new }
{
    if status != 0 {
        refuse_transfer(slot, Step::Get(b), status);
    } else if let Some(chunks) = chunks_in(sending, b, block, size, report) {
        let barren = barren_after(slot, &chunks);
        hold_chunks(slot, b, chunks);
        answer(slot);
        count_barren(slot, barren);
    }
}
