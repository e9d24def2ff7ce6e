//! Laws of the definitions: functions that do nothing, whose contracts are proved.

ghost use Rattle.mu_model_shown_node.specs.Shown.{RepresentedIsShown, ShownIsRepresented, MemoryIsOne, MetasAreShown, FullIsShown};
ghost use Rattle.mu_model_shown_node.specs.Next.{NextIsShown, BlockIsShown, ActivatedIsShown, NextIsANode, JobGoesOn, JobIsTaken, ActivatedIsANode, OthersStay};

use mu_model_represents::laws::blob_parts;
use mu_model_stored_node::laws::node_is_read;

/// What a store represents is what its node has in memory, and the other way round. Of a record there is one such memory.
pub fn memory_is_kept()
    ensures shown { RepresentedIsShown }
    ensures represented { ShownIsRepresented }
    ensures one { MemoryIsOne }
{
    blob_parts();
    node_is_read();
}

/// The rows look at what is in memory: the metadata of the active images, and whether all blocks are held.
pub fn memory_is_looked_at()
    ensures metas { MetasAreShown }
    ensures full { FullIsShown }
{}

/// What is kept after a record, or a block, is what is then in memory.
pub fn memory_goes_on()
    ensures next { NextIsShown }
    ensures block { BlockIsShown }
    ensures activated { ActivatedIsShown }
{}

/// A record after which the rules on a node's record hold again.
pub fn rules_go_on()
    ensures next { NextIsANode }
    ensures goes_on { JobGoesOn }
    ensures taken { JobIsTaken }
    ensures activated { ActivatedIsANode }
    ensures others { OthersStay }
{}
