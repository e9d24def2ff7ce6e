// A receiver that a status drops: the status stands in its row.
ghost use Rattle.mu_model_client.specs.Told.{refused_update, refused_transfer};
ghost use Rattle.mu_told.specs.Told.{IsTold};

use mu_model_client::{Dropped, Step};
use mu_receivers::{Slot, drop_by, number};

/// Drops a receiver by a status of an update message.
pub(crate) fn refuse_update(slot: &mut Slot, step: Step, status: u8)
    ensures { IsTold (refused_update step status) slot.old slot.new }
{
    slot.update_status = status;
    drop_by(slot, Dropped::Status(number(step), status));
}

/// Drops a receiver by a status of a BLOB message.
pub(crate) fn refuse_transfer(slot: &mut Slot, step: Step, status: u8)
    ensures { IsTold (refused_transfer step status) slot.old slot.new }
{
    slot.transfer_status = status;
    drop_by(slot, Dropped::Status(number(step), status));
}
