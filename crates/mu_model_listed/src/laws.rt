//! Laws of the definitions: functions that do nothing, whose contracts are proved.

ghost use Rattle.mu_model_listed.specs.Laws.{ListsAreReached, NewListsAreTrue, RowsAreReached};

/// A node and a distributor, whatever comes to each and whenever the power goes: where what came to the distributor from the node's
/// address was sent by the node, no row and no list shows the node in a phase that it hasn't reached.
pub fn lists_are_reached()
    ensures rows { RowsAreReached }
    ensures lists { ListsAreReached }
    ensures new { NewListsAreTrue }
{
    mu_model_told::laws::told_is_reached();
    mu_model_distributor_laws::laws::rows_are_told();
    mu_model_distributor_laws::laws::lists_are_told();
}
