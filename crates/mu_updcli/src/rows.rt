// The rows of an update client.
ghost use Rattle.std.specs.Prelude.{◌≡◌, ◌≤◌, map, length};
ghost use Rattle.mu_model_client.specs.Begin.{new_active, resumed, goes_on_with, may_transfer, cause_of, first_place};
ghost use Rattle.mu_model_client.specs.Client.{row_of as row_seen};
ghost use Rattle.mu_receivers.specs.Receivers.{receiver_of, receivers_of};
ghost use Rattle.mu_receivers.specs.Receivers.{row_of as row_in};
ghost use Rattle.mu_receivers.specs.Slots.{IsFew, AreFew};
ghost use Rattle.mu_rounds.specs.Begin.{IsOff};
ghost use Rattle.mu_updcli.specs.Client.{row_shown};

use arrayvec::ArrayVec;
use mu_distmsg::ReceiverRow;
use mu_model_client::{Dropped, Part, Place, Stage, Standing, Step};
use mu_receivers::Slot;
use mu_rounds::{KeptRow, new_slot};

/// Receivers with these addresses and indexes of images, of which nothing is known yet.
pub(crate) fn slots_of(rows: &[(u16, u8)]) -> ArrayVec<Slot, 128>
    requires { length rows.now ≤ 128 }
    ensures receivers { receivers_of result.items ≡ map new_active rows.now }
    ensures few { AreFew result.items }
{
    let mut slots = ArrayVec::new();
    for (address, index) in rows {
        let row = KeptRow {
            address: *address,
            index: *index,
            phase: 10,
            update_status: 0,
            transfer_status: 0,
            progress: 0,
        };
        slots.push(new_slot(row, Standing::Active));
    }
    slots
}

fn may_transfer(row: &ReceiverRow) -> bool
    ensures { result ≡ may_transfer (row_shown row.now) }
{
    !(row.phase == 5 || row.phase == 7 || row.phase == 8 || row.phase == 9)
        && row.update_status == 0
        && row.transfer_status == 0
}

fn goes_on_with(stage: Stage, row: &ReceiverRow) -> bool
    ensures { result ≡ goes_on_with stage (row_shown row.now) }
{
    match stage {
        Stage::Transfer => may_transfer(row),
        Stage::Verified | Stage::Applying => row.phase == 4 || row.phase == 6,
        Stage::Canceling | Stage::Ended => false,
    }
}

fn standing_of(stage: Stage, row: &ReceiverRow) -> Standing
    ensures { result ≡ (resumed stage (row_shown row.now)).standing }
{
    if goes_on_with(stage, row) {
        Standing::Active
    } else {
        Standing::Idle
    }
}

// The receiver of a row that is gone on with, or isn't.
fn slot_of(stage: Stage, row: &ReceiverRow) -> Slot
    ensures receiver { receiver_of result ≡ resumed stage (row_shown row.now) }
    ensures few { IsFew result }
{
    let kept = KeptRow {
        address: row.address,
        index: row.image_index,
        phase: row.phase,
        update_status: row.update_status,
        transfer_status: row.transfer_status,
        progress: row.progress,
    };
    new_slot(kept, standing_of(stage, row))
}

/// The receivers of these rows, of which nothing else is known.
pub(crate) fn slots_again(rows: &[ReceiverRow], stage: Stage) -> ArrayVec<Slot, 128>
    requires { length rows.now ≤ 128 }
    ensures receivers { receivers_of result.items ≡ map (resumed stage) (map row_shown rows.now) }
    ensures few { AreFew result.items }
{
    let mut slots = ArrayVec::new();
    for row in rows {
        slots.push(slot_of(stage, row));
    }
    slots
}

/// Where a client begins at this stage.
pub(crate) fn first_place(stage: Stage) -> Place
    ensures place { result ≡ first_place stage }
    ensures off { IsOff result }
{
    match stage {
        Stage::Transfer => Place::Before(Step::Check),
        Stage::Verified => Place::Verified,
        Stage::Applying => Place::Before(Step::Apply),
        Stage::Canceling => Place::Before(Step::Cancel),
        Stage::Ended => Place::Ended(Part::Applying),
    }
}

/// Why the receiver was dropped, if it was.
pub(crate) fn cause_of(standing: Standing) -> Option<Dropped>
    ensures { result ≡ cause_of standing }
{
    match standing {
        Standing::Gone(cause) => Some(cause),
        _ => None,
    }
}

/// The row of a receiver.
pub(crate) fn row_of(slot: &Slot) -> ReceiverRow
    ensures { row_shown result ≡ row_in slot.now }
{
    ReceiverRow {
        address: slot.address,
        phase: slot.phase,
        update_status: slot.update_status,
        transfer_status: slot.transfer_status,
        progress: slot.progress,
        image_index: slot.index,
    }
}

/// The rows of all receivers.
pub(crate) fn rows_of(slots: &[Slot]) -> ArrayVec<ReceiverRow, 128>
    requires { length slots.now ≤ 128 }
    ensures { map row_shown result.items ≡ map row_seen (receivers_of slots.now) }
{
    let mut rows = ArrayVec::new();
    for slot in slots {
        rows.push(row_of(slot));
    }
    rows
}
