//! Laws of the definitions: functions that do nothing, whose contracts are proved.

ghost use Rattle.mu_model_updater_reached.specs.Laws.{NewRowsAreTrue, RowsAreReached};

/// A node and an updater, whatever comes to each and whenever the node's power goes: where what came to the updater from the node's
/// address was sent by the node, no row shows the node in a phase that it hasn't reached.
pub fn rows_are_reached()
    ensures rows { RowsAreReached }
    ensures new { NewRowsAreTrue }
{
    mu_model_told::laws::told_is_reached();
    mu_model_updater::laws::rows_are_told();
}
