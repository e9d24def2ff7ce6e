//! Laws of the definitions: functions that do nothing, whose contracts are proved.

ghost use Rattle.mu_model_mesh_runs.specs.Laws.{AllLinesCome, LinesComeToOneThing, LinesComeToSomething, RunsHaveMembers, ScriptsEnd, SettlesEnd};
ghost use Rattle.mu_model_mesh_runs.specs.Worked.{FlashOperations, WornOut};

use mu_model_answers::laws::answers_are_unanswered;

/// Each line is done, is refused, would wear out a flash or would pass a limit; a line that is refused or would pass a limit comes to
/// nothing else.
pub fn lines_come_to_one_thing()
    ensures one { LinesComeToOneThing }
    ensures some { LinesComeToSomething }
{}

/// A `settle` is carried through, or somewhere on its way what comes next would wear out a flash: its deliveries end, since what is sent
/// on a packet is answered by nothing. So each line comes to something, whatever it says.
pub fn settles_end()
    ensures end { SettlesEnd }
    ensures all { AllLinesCome }
{
    answers_are_unanswered();
}

/// Whatever it is, a script ends in one of four ways: all its lines are done, one of them is refused, one would wear out a flash, or a
/// limit of the input or of the world is passed. In each world of its runs somebody stands at each address of the order.
pub fn scripts_end()
    ensures end { ScriptsEnd }
    ensures members { RunsHaveMembers }
{
    answers_are_unanswered();
}

/// Worked rows: flash operations of events, whole and torn, and of one that would wear out a flash.
pub fn worked_operations()
    ensures operations { FlashOperations }
    ensures worn { WornOut }
{}
