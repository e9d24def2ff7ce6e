//! Laws of the definitions: functions that do nothing, whose contracts are proved.

ghost use Rattle.mu_model_stored_node.specs.NodeIn.{NoteIsRead, NodeIsRead};
ghost use Rattle.mu_model_stored_node.specs.Steps.{NodeFreshIsTheSame, ShortFreshIsTheSame, NodeRecordSteps, NodeBeginSteps, NodeBlockSteps, WorkIsOfThePassed};
ghost use Rattle.mu_model_stored_node.specs.Kept.{NodeIsKept, ImagesStay, JobIsAsked, JobBegins, JobDrops, JobIsRefused, JobGoes, JobComes, NoJobIsLeft, FirstJobComes, JobIsVerified, JobIsActivated};

use mu_model_jobs::laws::{banks_change, parts};
use mu_model_represents::laws::{blocks_of_jobs, records_are_short};

/// The function of a store's state is the node that it represents.
pub fn node_is_read()
    ensures note { NoteIsRead }
    ensures node { NodeIsRead }
{
    parts();
}

/// The operations of a record, of a bank that is begun and of a block that is put are the flash work of a node, state by state, and leave as many
/// slots fresh.
pub fn node_steps()
    ensures fresh { NodeFreshIsTheSame }
    ensures short { ShortFreshIsTheSame }
    ensures one_record { NodeRecordSteps }
    ensures begin { NodeBeginSteps }
    ensures block { NodeBlockSteps }
    ensures passed { WorkIsOfThePassed }
{
    records_are_short();
}

/// What a node keeps beside the tag, before and after each call.
pub fn node_is_kept()
    ensures kept { NodeIsKept }
    ensures images { ImagesStay }
    ensures asked { JobIsAsked }
    ensures begins { JobBegins }
    ensures drops { JobDrops }
    ensures refused { JobIsRefused }
    ensures goes { JobGoes }
    ensures comes { JobComes }
    ensures none_left { NoJobIsLeft }
    ensures first { FirstJobComes }
    ensures verified { JobIsVerified }
    ensures activated { JobIsActivated }
{
    banks_change();
    blocks_of_jobs();
}
