//! Laws over whole runs: functions that do nothing, whose contracts are proved.

ghost use Rattle.mu_model_mesh_safety.specs.Laws.{EveryWorldIsOfRuns, EveryWorldIsSafe, EveryCutIsSafe, EveryListIsTrue, ListsStayTrue, EveryFactHolds, FactsStay};

use mu_model_distributor_laws::laws::{runs_are_in_order, starts_are_in_order};
use mu_model_fates::laws::{
    jobs_are_logged, moments_are_the_greatest, took_was_offered, verified_is_held, versions_rise,
};
use mu_model_image::laws::{firmware_ids, images, made, metadata};
use mu_model_listed::laws::lists_are_reached;
use mu_model_offers::laws::{offers_agree, packets_say_starts};
use mu_model_packets::laws::{
    distributors_send_fit, nodes_send_fit, octets_say_fit, updaters_send_fit,
};
use mu_model_updater::laws::{nothing_else, starts_are_offered};
use mu_model_updater_reached::laws::rows_are_reached;

/// In every world of every script, and within every line, and wherever the power of a node or of a distributor may go: each active
/// image of each node is its first one or a whole one that came by an update, and no row of an updater or of a distributor shows a
/// node in a phase that it hasn't reached. The same holds of each Receivers List that a distributor ever sent, of the transfer that it
/// had then; and the facts that this rests on hold.
pub fn every_world_is_safe()
    ensures worlds { EveryWorldIsSafe }
    ensures cuts { EveryCutIsSafe }
    ensures lists { EveryListIsTrue }
    ensures lists_after { ListsStayTrue }
    ensures facts { EveryFactHolds }
    ensures facts_after { FactsStay }
{
    mu_model_wire::laws::grammar_holds();
    mu_model_wire::laws::reads_what_is_spelled();
    metadata();
    firmware_ids();
    images();
    made();
    mu_model_script::script_event_is_in_range();
    mu_model_node::laws::one_node_is_safe();
    mu_model_told::laws::told_is_reached();
    jobs_are_logged();
    mu_model_fates::laws::jobs_go_on();
    versions_rise();
    verified_is_held();
    took_was_offered();
    moments_are_the_greatest();
    mu_model_client_laws::laws::plans_stay();
    starts_are_offered();
    mu_model_updater::laws::rows_are_told();
    nothing_else();
    starts_are_in_order();
    runs_are_in_order();
    mu_model_distributor_laws::laws::starts_are_offered();
    mu_model_distributor_laws::laws::rows_are_told();
    mu_model_wire::laws::opcodes_are_kept();
    offers_agree();
    packets_say_starts();
    octets_say_fit();
    nodes_send_fit();
    updaters_send_fit();
    distributors_send_fit();
    lists_are_reached();
    rows_are_reached();
}

/// In every world of every script, and within every line, each member has gone through a run of its own, in which only packets of the
/// bag came to it; what the bag has from a member's address was sent in that run, and what it says is in the ranges of the grammar.
pub fn every_world_is_of_runs()
    ensures { EveryWorldIsOfRuns }
{
    images();
    made();
    mu_model_script::script_event_is_in_range();
    moments_are_the_greatest();
    starts_are_offered();
    starts_are_in_order();
    packets_say_starts();
    octets_say_fit();
    nodes_send_fit();
    updaters_send_fit();
    distributors_send_fit();
}
