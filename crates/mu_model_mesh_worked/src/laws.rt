//! A law of the definitions: a function that does nothing, whose contract is proved.

ghost use Rattle.mu_model_mesh_worked.specs.Completed.{AScriptCompletes};
ghost use Rattle.mu_model_mesh_worked.specs.Ended.{WorkedEnds};

use mu_model_mesh_completion::laws::{scripts_complete, worlds_of_scripts};
use mu_model_mesh_rows::rows::settles;

/// The lines `node 0002 0000 1 1 hex:61`, `updater 0001 0000 7 5 0 push 12 200 2 hex:616263 0002` and `distributor 0003 1`, and then `settle 10`,
/// meet every premise under which a `settle` completes an update; so the receiver's row is in Apply Success.
pub fn a_script_completes()
    ensures { AScriptCompletes }
{
    settles();
    worlds_of_scripts();
    scripts_complete();
}

/// How an empty script, one of silent lines and two that are refused end, octet by octet.
pub fn scripts_end()
    ensures { WorkedEnds }
{}
