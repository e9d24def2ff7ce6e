//! Laws of the definitions: functions that do nothing, whose contracts are proved.

ghost use Rattle.mu_model_serving.specs.Missing.{MessagesNameMissing, TimeNamesMissing};
ghost use Rattle.mu_model_serving.specs.Laws.{BootsAreLinked, CancelsInFailed, EventsKeepLinked, PhasesAreAlike, RequestsKeepLinked, ServesAlike, WaitsAlike};

use mu_model_wire::reports::reports;

/// Of a job in update phase 5 the link is Cut, from each boot on. So a node's BLOB server does what it would by the job's blocks alone, in
/// every message, in time and in its phase, but for a Transfer Cancel in update phase 5, which the node answers itself: 0, whatever the
/// BLOB ID, and nothing changes.
pub fn nodes_serve_by_their_blocks()
    ensures boots { BootsAreLinked }
    ensures events { EventsKeepLinked }
    ensures requests { RequestsKeepLinked }
    ensures messages { ServesAlike }
    ensures time { WaitsAlike }
    ensures phases { PhasesAreAlike }
    ensures cancels { CancelsInFailed }
{}

/// While a block comes, a Block Status 0 of it names exactly the chunks that are missing after the message, and a Partial Block Report the
/// least 16 of them, or all where there are fewer.
pub fn replies_name_what_is_missing()
    ensures messages { MessagesNameMissing }
    ensures time { TimeNamesMissing }
{
    reports();
}
