//! Laws of the definitions: functions that do nothing, whose contracts are proved.

ghost use Rattle.mu_model_rows.specs.Clients.{PresenceStays, StatusesStand, TimeIsExact, UnknownIsExact};
ghost use Rattle.mu_model_rows.specs.Distributors.{RowsAreExact};

use mu_model_client_laws::laws::rows;
use mu_model_distributor_laws::laws::rows_move_by_cause;

/// Time changes the phase of a row exactly where its receiver was pending through its fifth silent round of Confirm and the row wasn't
/// Apply Success: it becomes Apply Failed then. And a client's transfer stays present, or canceled, in each event.
pub fn time_is_exact()
    ensures time { TimeIsExact }
    ensures presence { PresenceStays }
{}

/// A status by which a receiver is dropped stands in its row: that of an update message as update status, that of a BLOB message, or of the
/// BLOB information, as transfer status. No other packet changes a status.
pub fn statuses_stand()
    ensures { StatusesStand }
{}

/// A row leaves Phase Unknown by a packet exactly where that is an Update Status of the transfer with a phase of 1 to 6, and no row comes
/// to it.
pub fn unknown_is_exact()
    ensures { UnknownIsExact }
{}

/// While a distribution goes on, the phase of each row after an event is exactly what the event makes of it.
pub fn distributor_rows_are_exact()
    ensures { RowsAreExact }
{
    rows();
    rows_move_by_cause();
}
