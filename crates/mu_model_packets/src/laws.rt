//! Laws of the definitions: functions that do nothing, whose contracts are proved.

ghost use Rattle.mu_model_packets.specs.Laws.{DistributorsSendFit, NodesSendFit, OctetsSayFit, UpdatersSendFit};

use mu_model_client_laws::laws::requests_are_no_answers;
use mu_model_wire::laws::opcodes_are_kept;

/// What octets say to a node and to a distributor is in the ranges of the grammar.
pub fn octets_say_fit()
    ensures { OctetsSayFit }
{
    mu_model_distributor_laws::laws::octets_say_in_range();
}

/// What a node sends is in the ranges of the grammar, offers no update and is no Receivers List.
pub fn nodes_send_fit()
    ensures { NodesSendFit }
{
    opcodes_are_kept();
}

/// What an updater sends is in the ranges of the grammar, whatever its plan is.
pub fn updaters_send_fit()
    ensures { UpdatersSendFit }
{
    requests_are_no_answers();
}

/// What a distributor sends is in the ranges of the grammar.
pub fn distributors_send_fit()
    ensures { DistributorsSendFit }
{
    opcodes_are_kept();
    requests_are_no_answers();
}
