//! Laws on whole updates in which nothing is lost: functions that do nothing, whose contracts are proved.

ghost use Rattle.mu_model_completion.specs.Answering.{AnsweringStays};
ghost use Rattle.mu_model_completion.specs.Completion.{PushCompletes, PushTakesAll, PullCompletes, PushDropsNobody, PullDropsNobody, ThreeOver64KiB};
ghost use Rattle.mu_model_completion.specs.WorkedAnswering.{BesideTheSilent};
ghost use Rattle.mu_model_completion.specs.Worked.{OneNodeCompletes, OneNodePulls, EqualVersionEnds, FirstBlock, ThreeComplete};

use mu_model_client_laws::laws::{
    clients_are_sound, drops_stay, fields_are_read, named_sets, plans_stay,
};
use mu_model_image::laws::{blocks, chunks, images, metadata};
use mu_model_wire::reports::reports;

/// In push all receivers have the image after so many turns, and from then on, where nothing is lost: seven turns for each sixteen
/// receivers, and for each block two for each sixteen receivers and one for each sixteen chunks. Where each block is full and up to
/// sixteen receivers are in a group, not a turn sooner.
pub fn push_completes()
    ensures completes { PushCompletes }
    ensures takes_all { PushTakesAll }
{
    plans_stay();
    fields_are_read();
    metadata();
    images();
    blocks();
    chunks();
}

/// In pull one receiver has the image after so many turns, and from then on, where nothing is lost: seven turns, and for each block
/// one and two for each sixteen chunks.
pub fn pull_completes()
    ensures { PullCompletes }
{
    plans_stay();
    fields_are_read();
    metadata();
    images();
    blocks();
    chunks();
}

/// Three receivers have 64 KiB after 71 turns, and not after 70, whatever the image.
pub fn three_over_64_kib()
    ensures { ThreeOver64KiB }
{
    plans_stay();
    fields_are_read();
    metadata();
    images();
    blocks();
    chunks();
}

/// Where nothing is lost nobody is ever dropped: in push, and in pull with one receiver.
pub fn nobody_is_dropped()
    ensures push { PushDropsNobody }
    ensures pull { PullDropsNobody }
{
    push_completes();
    pull_completes();
    clients_are_sound();
    drops_stay();
}

/// A receiver whose node takes the update and answers all that reaches it in time is never dropped, in push and in pull, whoever
/// else the client has, whatever they say, and whatever they lose.
pub fn answering_stays()
    ensures { AnsweringStays }
{
    plans_stay();
    fields_are_read();
    named_sets();
    reports();
    metadata();
    images();
    blocks();
    chunks();
}

/// Worked rows: how many turns an update takes.
pub fn worked_updates()
    ensures one_node { OneNodeCompletes }
    ensures one_pulls { OneNodePulls }
    ensures beside_the_silent { BesideTheSilent }
    ensures equal_version { EqualVersionEnds }
    ensures first_block { FirstBlock }
    ensures three { ThreeComplete }
{}
