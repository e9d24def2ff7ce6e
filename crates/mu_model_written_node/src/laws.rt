//! Laws of the definitions: functions that do nothing, whose contracts are proved.

ghost use Rattle.mu_model_written_node.specs.Free.{OneBankIsFree, ActiveBanksAreThere};
ghost use Rattle.mu_model_written_node.specs.Memory.{WrittenIsANode, WrittenIsShort, NodeNoteFits, ChangedIsANode};
ghost use Rattle.mu_model_written_node.specs.Changed.{BegunIsWritten, DroppedIsWritten, PutIsWorked};
ghost use Rattle.mu_model_written_node.specs.Written.{LostIsWritten, TakenIsWritten, AppliedIsWritten, ActivatedIsWritten};

use mu_model_flash::laws::ranges_of_octets;
use mu_model_image::laws::metadata;
use mu_model_jobs::laws::{parts, states_stay};
use mu_model_represents::laws::{
    blocks_of_jobs, images_of_banks, octets_of_tags, records_are_short, represented_is_sound,
    runs_are_read, written_node, written_note,
};
use mu_model_shown_node::laws::rules_go_on;
use mu_model_stored_node::laws::{node_is_kept, node_steps};

/// Of the banks of a node all but one are active: a bank that isn't active is that one.
pub fn one_bank_is_free()
    ensures one { OneBankIsFree }
    ensures active { ActiveBanksAreThere }
{}

/// The record that is written next is a node's, and short.
pub fn written_in_memory()
    ensures node { WrittenIsANode }
    ensures short { WrittenIsShort }
    ensures fits { NodeNoteFits }
{
    metadata();
    ranges_of_octets();
    rules_go_on();
    written_note();
    octets_of_tags();
    records_are_short();
    node_steps();
}

/// What the store represents after the record of each row, and how its operations are read.
pub fn written_in_a_store()
    ensures lost { LostIsWritten }
    ensures taken { TakenIsWritten }
    ensures applied { AppliedIsWritten }
    ensures activated { ActivatedIsWritten }
{
    states_stay();
    images_of_banks();
    represented_is_sound();
    runs_are_read();
    written_node();
    node_is_kept();
    node_steps();
}

/// What the store represents after the change of a BLOB message, and how its operations are read.
pub fn changed_in_a_store()
    ensures begun { BegunIsWritten }
    ensures dropped { DroppedIsWritten }
    ensures put { PutIsWorked }
{
    parts();
    states_stay();
    images_of_banks();
    represented_is_sound();
    runs_are_read();
    written_node();
    blocks_of_jobs();
    node_is_kept();
    node_steps();
}

/// The record of a BLOB message is a node's: the same update goes on.
pub fn changed_in_memory()
    ensures { ChangedIsANode }
{
    rules_go_on();
}
