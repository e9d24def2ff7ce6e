// Receivers: a function for each request.
ghost use Rattle.std.specs.Prelude.{◌≡◌, ◌<◌, ◌≤◌, ◌*◌, ◌/◌, true, false, length, map, IfErr, OnErr};
ghost use Rattle.mu_model_distributor.specs.DistState.{DistState};
ghost use Rattle.std.specs.List.{AllByRecursion};
ghost use Rattle.mu_model_distributor.specs.Sound.{IsEntry};
ghost use Rattle.mu_model_distributor.specs.Receivers.{added, new_receiver, receivers_add, receivers_delete_all, receivers_list, receivers_status, rounded, is_idle};
ghost use Rattle.mu_distributor_kept.specs.Views.{row_receiver, row_receivers};
ghost use Rattle.mu_distributor_rows.specs.Due.{IsDueOf};
ghost use Rattle.mu_distributor_rows.specs.Replies.{AreListed};
ghost use Rattle.mu_distributor_rows.specs.Receivers.{row_here, AreRowsOf, with_rows, rows_stepped, entry_of_pair, entries_of, Grown, AreShownRows};

use crate::replies::{DistAnswer, DistReply};
use arrayvec::ArrayVec;
use mu_distributor_kept::{ReceiverRow, Rows, has_address};
use mu_model_distributor::DistPhase;

const INSUFFICIENT_RESOURCES: u8 = 1;

const BUSY_WITH_DISTRIBUTION: u8 = 7;

fn is_idle(phase: DistPhase) -> bool
    ensures { result ≡ is_idle phase }
{
    match phase {
        DistPhase::Idle => true,
        _ => false,
    }
}

// A receiver of which nothing was learnt yet.
fn new_row(entry: (u16, u8)) -> ReceiverRow
    ensures receiver { row_receiver result ≡ new_receiver (entry_of_pair entry) }
    ensures progress { result.progress ≡ 0 }
{
    ReceiverRow {
        address: entry.0,
        phase: 10,
        update_status: 0,
        transfer_status: 0,
        progress: 0,
        image_index: entry.1,
    }
}

// Adds each new address; false where more than 128 would stand, and then some may have been added.
fn add(rows: &mut Rows, entries: &[(u16, u8)]) -> bool
    ensures grown { Grown rows.old.items rows.new.items }
    ensures all { result ≡ true → row_receivers rows.new.items ≡ added (row_receivers rows.old.items) (entries_of entries.now) }
    ensures many { result ≡ false → 128 < length (added (row_receivers rows.old.items) (entries_of entries.now)) }
{
    for entry in entries {
        if !has_address(rows.as_slice(), entry.0) {
            if rows.is_full() {
                return false;
            }
            rows.push(new_row(*entry));
        }
    }
    true
}

/// Firmware Distribution Receivers Add: each new address is added, and one that is there is passed over. Answers whether what is kept
/// changes, or the status that refuses: 7 while a distribution isn't Idle, 1 where more than 128 would stand.
pub fn receivers_add(rows: &mut Rows, phase: DistPhase, entries: &[(u16, u8)]) -> Result<bool, u8>
    ensures known { IfErr result (λ status. status ≤ 13) }
    ensures step { (s : DistState) → AreRowsOf rows.old.items s → s.durable.phase ≡ phase → receivers_add s (entries_of entries.now) ≡ rows_stepped s rows.new.items result }
    ensures due { (s : DistState) → AreRowsOf rows.old.items s → IsDueOf result s (with_rows s rows.new.items) }
    ensures refused { OnErr result (rows.new.items ≡ rows.old.items) }
    ensures shown { AllByRecursion IsEntry (entries_of entries.now) → AreShownRows rows.old.items → AreShownRows rows.new.items }
{
    if !is_idle(phase) {
        return Err(BUSY_WITH_DISTRIBUTION);
    }
    let count = rows.len();
    if !add(rows, entries) {
        rows.truncate(count);
        return Err(INSUFFICIENT_RESOURCES);
    }
    Ok(rows.as_slice().len() > count)
}

/// Firmware Distribution Receivers Delete All. Answers whether what is kept changes, or 7 while a distribution isn't Idle.
pub fn receivers_delete_all(rows: &mut Rows, phase: DistPhase) -> Result<bool, u8>
    ensures known { IfErr result (λ status. status ≤ 13) }
    ensures step { (s : DistState) → AreRowsOf rows.old.items s → s.durable.phase ≡ phase → receivers_delete_all s ≡ rows_stepped s rows.new.items result }
    ensures due { (s : DistState) → AreRowsOf rows.old.items s → IsDueOf result s (with_rows s rows.new.items) }
    ensures refused { OnErr result (rows.new.items ≡ rows.old.items) }
    ensures shown { AreShownRows rows.old.items → AreShownRows rows.new.items }
{
    if !is_idle(phase) {
        return Err(BUSY_WITH_DISTRIBUTION);
    }
    let due = !rows.is_empty();
    rows.clear();
    Ok(due)
}

/// The Firmware Distribution Receivers Status that answers both.
pub fn receivers_status(status: u8, rows: &[ReceiverRow]) -> DistAnswer
    requires known { status ≤ 13 }
    requires few { length rows.now ≤ 128 }
    ensures { (s : DistState) → AreRowsOf rows.now s → result ≡ receivers_status status s }
{
    DistAnswer::new(DistReply::ReceiversStatus {
        status,
        count: rows.len() as u16,
    })
}

// Progress is told in halves of a per cent.
fn rounded(row: ReceiverRow) -> ReceiverRow
    ensures row { row_here result ≡ rounded (row_here row) }
    ensures even { result.progress ≡ 2 * (row.progress / 2) }
{
    ReceiverRow {
        progress: row.progress / 2 * 2,
        ..row
    }
}

// The rows as a message shows them.
fn shown(rows: &[ReceiverRow]) -> ArrayVec<ReceiverRow, 74>
    requires few { length rows.now ≤ 74 }
    requires shown { AreShownRows rows.now }
    ensures listed { AreListed result.items }
    ensures rows { map row_here result.items ≡ map rounded (map row_here rows.now) }
{
    let mut shown = ArrayVec::new();
    for row in rows {
        shown.push(rounded(*row));
    }
    shown
}

/// The Firmware Distribution Receivers List: how many receivers there are, and those from the place `first` on, at most `limit` and 74
/// of them, each with its progress rounded down to an even number.
#[tactic(auto, using(crate::proofs::Listing::listed))]
pub fn receivers_list(rows: &[ReceiverRow], first: u16, limit: u16) -> DistAnswer
    requires few { length rows.now ≤ 128 }
    requires shown { AreShownRows rows.now }
    ensures { (s : DistState) → AreRowsOf rows.now s → result ≡ receivers_list first limit s }
{
    let from = usize::from(first).min(rows.len());
    let most = usize::from(limit).min(74).min(rows.len() - from);
    DistAnswer::new(DistReply::ReceiversList {
        count: rows.len() as u16,
        first,
        rows: shown(&rows[from..from + most]),
    })
}
