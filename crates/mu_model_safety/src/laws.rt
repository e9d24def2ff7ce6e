//! Laws over whole runs: functions that do nothing, whose contracts are proved.

ghost use Rattle.mu_model_safety.specs.Laws.{EveryWorldIsSafe, EveryCutIsSafe};

use mu_model_image::laws::{images, made};
use mu_model_node::laws::one_node_is_safe;
use mu_model_script::event_is_in_range;

/// In every world of every run of every script, and wherever the power may go, each active image of each node is one that it was
/// made with, or a whole image that it accepted and whose Update Apply reached it verified.
pub fn every_world_is_safe()
    ensures worlds { EveryWorldIsSafe }
    ensures cuts { EveryCutIsSafe }
{
    images();
    made();
    one_node_is_safe();
    event_is_in_range();
}
