// How a client begins, and what it is asked to do then.
ghost use Rattle.std.specs.Prelude.{◌≡◌, ◌≤◌, length};
ghost use Rattle.mu_model_client.specs.Client.{new_receiver};
ghost use Rattle.mu_model_client.specs.Begin.{at_first, take_apply, take_cancel};
ghost use Rattle.mu_receivers.specs.Receivers.{receiver_of, receivers_of};
ghost use Rattle.mu_receivers.specs.Slots.{Each, IsFew, AreFew};
ghost use Rattle.mu_told.specs.Told.{IsSendable};
ghost use Rattle.mu_rounds.specs.After.{PlaceFits};
ghost use Rattle.mu_rounds.specs.Rounds.{client_of, HasShape};
ghost use Rattle.mu_rounds.specs.Begin.{IsOff, IsCanceled, row_kept};

use crate::rounds::Rounds;
use arrayvec::ArrayVec;
use mu_model_client::{Place, Purpose, Sending, Standing, Step};
use mu_receivers::{Slot, Was};
use mu_report::NumberSet;

/// A receiver's row, as a client keeps it.
#[derive(Clone, Copy, Debug, PartialEq, Eq)]
pub struct KeptRow {
    pub address: u16,
    /// The index of the image.
    pub index: u8,
    /// An update phase, 0..10.
    pub phase: u8,
    pub update_status: u8,
    pub transfer_status: u8,
    /// The per cent of blocks held.
    pub progress: u8,
}

/// A receiver with this row, of which nothing is known yet.
pub fn new_slot(row: KeptRow, standing: Standing) -> Slot
    ensures receiver { receiver_of result ≡ new_receiver (row_kept row) standing }
    ensures few { IsFew result }
{
    let was = Was {
        phase: row.phase,
        standing,
        pending: false,
        heard: false,
        silent: 0,
        wants: false,
        listed: false,
    };
    Slot {
        address: row.address,
        index: row.index,
        phase: row.phase,
        update_status: row.update_status,
        transfer_status: row.transfer_status,
        progress: row.progress,
        standing,
        pending: false,
        heard: false,
        silent: 0,
        barren: 0,
        blocks: NumberSet::new(0),
        chunks: NumberSet::new(0),
        wants: false,
        wanted: NumberSet::new(0),
        listed: false,
        asked: NumberSet::new(0),
        was,
    }
}

/// A client of these receivers, whose place isn't at a step.
pub fn rounds_at(
    sending: Sending,
    purpose: Purpose,
    slots: ArrayVec<Slot, 128>,
    place: Place,
) -> Rounds
    requires range { IsSendable sending }
    requires few { AreFew slots.items }
    requires fits { PlaceFits sending place }
    requires off { IsOff place }
    ensures client { client_of result ≡ at_first sending purpose (receivers_of slots.items) place }
    ensures shape { HasShape result }
{
    let _most = slots.len();
    Rounds {
        sending,
        purpose,
        slots,
        place,
        left: None,
        began: 0,
        moment: 0,
    }
}

// A row that isn't final is canceled, and its receiver isn't pending any more.
fn cancel_one(slot: &mut Slot)
    ensures { IsCanceled slot.old slot.new }
{
    if slot.phase <= 6 || slot.phase == 10 {
        slot.phase = 7;
    }
    slot.pending = false;
    slot.wants = false;
}

fn cancel(slots: &mut [Slot])
    ensures each { Each IsCanceled slots.old slots.new }
{
    for i in 0..slots.len() {
        let slot = &mut slots[i];
        cancel_one(slot);
    }
}

impl Rounds {
    /// Applying begins in the next time event.
    pub fn take_apply(&mut self)
        requires { HasShape self.old }
        ensures client { client_of self.new ≡ take_apply (client_of self.old) }
        ensures shape { HasShape self.new }
    {
        self.place = Place::Before(Step::Apply);
        self.left = None;
    }

    /// Cancelling begins in the next time event: each row that isn't final is canceled.
    pub fn take_cancel(&mut self)
        requires { HasShape self.old }
        ensures client { client_of self.new ≡ take_cancel (client_of self.old) }
        ensures shape { HasShape self.new }
    {
        cancel(&mut self.slots);
        self.place = Place::Before(Step::Cancel);
        self.left = None;
    }
}
