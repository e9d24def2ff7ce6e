//! Laws of the client's definitions: functions that do nothing, whose contracts are proved.

ghost use Rattle.mu_model_client_bounds.specs.Bounds.{BeginsBounded, EventsKeepBounds};
ghost use Rattle.mu_model_client_bounds.specs.Runs.{RunsAreBounded};

use mu_model_client_laws::laws::clients_are_sound;

/// A client's round began no later than its moment; the block of its step is one of the BLOB; no receiver has more than five silent rounds
/// or fruitless answers, and an active one fewer than five of these; and each set that it keeps is empty, or has as many places as the BLOB
/// has blocks, or one of the blocks chunks: in pull, the block of the step. So it begins, and each event keeps it, where the client is sound;
/// and so every client is that a run comes to.
pub fn clients_are_bounded()
    ensures begins { BeginsBounded }
    ensures events { EventsKeepBounds }
    ensures runs { RunsAreBounded }
{
    clients_are_sound();
}
