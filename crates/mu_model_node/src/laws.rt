//! Laws of the definitions: functions that do nothing, whose contracts are proved.

ghost use Rattle.mu_model_node.specs.Safe.{OneNodeIsSafe};
ghost use Rattle.mu_model_node.specs.Worked.{AWholeUpdate, PowerCuts, Refusals, TwoImages};
ghost use Rattle.mu_model_node.specs.Laws.{OctetsAskInRange, EventsKeepStatesSound, RequestsKeepStatesSound, TimeKeepsStatesSound, BootsAreSound, PhasesAreSound, ChunksAreOfTheJob, StatesPassRising, WorkLeavesOldOrNew, WorkLeadsToTheNew, WorkIsBounded, ToldPhaseIsThePhase, MissingIsTheRest, FullLacksNone, EntriesHaveCauses};

use mu_model_wire::laws::{grammar_holds, reads_what_is_spelled};

/// Whatever packets come to a node, whatever time passes and whenever the power goes, each active image is the one that the boot
/// found, or a whole image that the node took, verified, was asked for and made active.
pub fn one_node_is_safe()
    ensures { OneNodeIsSafe }
{}

/// A node's states are sound, from each boot on.
pub fn states_are_sound()
    ensures events { EventsKeepStatesSound }
    ensures requests { RequestsKeepStatesSound }
    ensures time { TimeKeepsStatesSound }
    ensures boots { BootsAreSound }
    ensures phases { PhasesAreSound }
{}

/// What octets ask of a node is in the ranges of the grammar.
pub fn octets_ask_in_range()
    ensures { OctetsAskInRange }
{
    grammar_holds();
    reads_what_is_spelled();
}

/// What an event does to the flash.
pub fn flash_work()
    ensures passed { StatesPassRising }
    ensures left { WorkLeavesOldOrNew }
    ensures led { WorkLeadsToTheNew }
    ensures bounded { WorkIsBounded }
{}

/// A node that waits for chunks has a job and a block.
pub fn chunks_are_of_the_job()
    ensures { ChunksAreOfTheJob }
{}

/// A BLOB reply tells the phase after its message.
pub fn told_phase()
    ensures { ToldPhaseIsThePhase }
{}

/// Blocks and chunks are missing or received.
pub fn missing_and_received()
    ensures rest { MissingIsTheRest }
    ensures full { FullLacksNone }
{}

/// Each entry of the log has its cause.
pub fn entries_have_causes()
    ensures { EntriesHaveCauses }
{}

/// Worked rows: what a node answers and is left with.
pub fn worked_rows()
    ensures whole_update { AWholeUpdate }
    ensures power_cuts { PowerCuts }
    ensures refusals { Refusals }
    ensures two_images { TwoImages }
{}
