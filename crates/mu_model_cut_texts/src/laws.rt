//! Laws of the definitions: functions that do nothing, whose contracts are proved.

ghost use Rattle.mu_model_cut_texts.specs.Laws.{BootTextsEnd, DistributorCutsAreTold, NodeCutsAreTold};

use mu_model_node::laws::{chunks_are_of_the_job, flash_work};

/// What a boot prints tells which of the states it found that a cut in an event may have left, of a node and of a distributor; and the
/// text shows where it ends.
pub fn boots_are_told()
    ensures ends { BootTextsEnd }
    ensures nodes { NodeCutsAreTold }
    ensures distributors { DistributorCutsAreTold }
{
    chunks_are_of_the_job();
    flash_work();
    mu_model_distributor_laws::laws::flash_work();
}
