//! Laws on whole updates of a script in which nothing is lost: functions that do nothing, whose contracts are proved.

ghost use Rattle.mu_model_mesh_completion.specs.Carried.{SettleIsCarried};
ghost use Rattle.mu_model_mesh_completion.specs.Laws.{PushSettles, PushSettlesNoSooner, PullSettles, PushSettleDropsNobody, PullSettleDropsNobody, PushScriptsComplete, PullScriptsComplete, WorldsOfScripts};
ghost use Rattle.mu_model_mesh_completion.specs.Worked.{OneNode};

use mu_model_client_laws::laws::{
    clients_are_sound, lists, plans_stay, replies_are_read, requests_are_no_answers,
    requests_are_read,
};
use mu_model_completion::laws::{nobody_is_dropped, pull_completes, push_completes};
use mu_model_fates::laws::moments_are_the_greatest;
use mu_model_image::laws::{blocks, chunks, images, made};
use mu_model_mesh_runs::laws::settles_end;
use mu_model_mesh_safety::laws::every_world_is_of_runs;
use mu_model_node::laws::{flash_work, states_are_sound, told_phase};
use mu_model_script::script_event_is_in_range;
use mu_model_wire::laws::{canonical_is_read, grammar_holds, opcodes_are_kept};

/// Where nothing is lost, a `settle` of so many turns completes the update of an updater that has had no event: in push seven turns
/// for each sixteen receivers, and for each block two for each sixteen receivers and one for each sixteen chunks; in pull with one
/// receiver seven turns, and for each block one and two for each sixteen chunks. In push with full blocks and up to sixteen receivers
/// in a group not a turn sooner. No receiver is dropped, after however many turns. And the `settle` is carried through where nothing
/// would wear out a flash in the worlds that it goes through.
pub fn settle_completes()
    ensures push { PushSettles }
    ensures no_sooner { PushSettlesNoSooner }
    ensures pull { PullSettles }
    ensures push_drops_nobody { PushSettleDropsNobody }
    ensures pull_drops_nobody { PullSettleDropsNobody }
    ensures carried { SettleIsCarried }
{
    push_completes();
    pull_completes();
    nobody_is_dropped();
    requests_are_read();
    requests_are_no_answers();
    replies_are_read();
    plans_stay();
    lists();
    clients_are_sound();
    blocks();
    chunks();
    images();
    states_are_sound();
    told_phase();
    moments_are_the_greatest();
    grammar_holds();
    opcodes_are_kept();
    canonical_is_read();
    settles_end();
}

/// Each world of each run of a script, whatever its lines and the outcomes of its tears are, is one that these laws ask for: its nodes
/// are sound, an updater sends from its own address, no address stands twice, and each has a member. A worked row: a script of one
/// updater, one node whose bank is one page, and a distributor, of which a `settle` of ten turns is asked for.
pub fn worlds_of_scripts()
    ensures worlds { WorldsOfScripts }
    ensures one_node { OneNode }
{
    every_world_is_of_runs();
    plans_stay();
    images();
    states_are_sound();
    flash_work();
    told_phase();
}

/// So in a script: a line `settle` of so many turns or more completes the update of an updater that has had no event, where its
/// receivers take it, every other updater has ended, every distributor is at rest and no tear is to come.
pub fn scripts_complete()
    ensures push { PushScriptsComplete }
    ensures pull { PullScriptsComplete }
{
    settle_completes();
    worlds_of_scripts();
    script_event_is_in_range();
    made();
}
