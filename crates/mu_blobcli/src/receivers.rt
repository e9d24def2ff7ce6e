// The receivers of a BLOB client, before and after.
ghost use Rattle.std.specs.Prelude.{◌≡◌, ◌≤◌, map, length};
ghost use Rattle.mu_model_client.specs.Begin.{new_active, transfer_row, cause_of};
ghost use Rattle.mu_receivers.specs.Receivers.{receiver_of, receivers_of};
ghost use Rattle.mu_receivers.specs.Slots.{AreFew};

use arrayvec::ArrayVec;
use mu_model_client::{Dropped, Standing, TransferRow};
use mu_receivers::Slot;
use mu_rounds::{KeptRow, new_slot};

/// The receivers with these addresses, of which nothing is known yet.
pub(crate) fn slots_of(to: &[u16]) -> ArrayVec<Slot, 128>
    requires { length to.now ≤ 128 }
    ensures receivers { receivers_of result.items ≡ map (λ address. new_active (address, 0)) to.now }
    ensures few { AreFew result.items }
{
    let mut slots = ArrayVec::new();
    for address in to {
        let row = KeptRow {
            address: *address,
            index: 0,
            phase: 10,
            update_status: 0,
            transfer_status: 0,
            progress: 0,
        };
        slots.push(new_slot(row, Standing::Active));
    }
    slots
}

/// Why the receiver was dropped, if it was.
pub(crate) fn cause_of(standing: Standing) -> Option<Dropped>
    ensures { result ≡ cause_of standing }
{
    match standing {
        Standing::Gone(cause) => Some(cause),
        _ => None,
    }
}

/// What is seen of a receiver.
pub(crate) fn row_of(slot: &Slot) -> TransferRow
    ensures { result ≡ transfer_row (receiver_of slot.now) }
{
    TransferRow {
        address: slot.address,
        status: slot.transfer_status,
        progress: slot.progress,
        silent: slot.silent,
        dropped: cause_of(slot.standing),
    }
}
