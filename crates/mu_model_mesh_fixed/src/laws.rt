//! Laws of the definitions: functions that do nothing, whose contracts are proved.

ghost use Rattle.mu_model_mesh_fixed.specs.Laws.{LinesFixTheRun, RefusedHasNoTrace, TextFixesTheRun};

use mu_model_cut_texts::laws::boots_are_told;
use mu_model_distributor_laws::laws::runs_are_in_order;
use mu_model_mesh_runs::laws::lines_come_to_one_thing;
use mu_model_mesh_safety::laws::every_world_is_of_runs;
use mu_model_node::laws::{flash_work, states_are_sound};

/// The lines of a script and the text that is written for them fix its whole run: each world, and what each line prints. Where no tear
/// leaves made bits the lines alone do, so that such a script has one trace or a refused line, and not both.
pub fn runs_are_fixed()
    ensures by_text { TextFixesTheRun }
    ensures by_lines { LinesFixTheRun }
    ensures refused { RefusedHasNoTrace }
{
    every_world_is_of_runs();
    states_are_sound();
    flash_work();
    runs_are_in_order();
    boots_are_told();
    lines_come_to_one_thing();
}
