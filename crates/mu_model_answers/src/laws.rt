//! Laws of the definitions: functions that do nothing, whose contracts are proved.

ghost use Rattle.mu_model_answers.specs.Laws.{NodeAnswersAreUnanswered, DistributorAnswersAreUnanswered, UpdatersAnswerNothing, AnswersAskNothing};

use mu_model_wire::laws::opcodes_are_kept;

/// What a node or a distributor sends on a packet is answered by nothing: by no node, no distributor and no updater, in whatever state.
/// An updater sends nothing on a packet. What is sent on time isn't meant: an Update Get is answered.
pub fn answers_are_unanswered()
    ensures nodes { NodeAnswersAreUnanswered }
    ensures distributors { DistributorAnswersAreUnanswered }
    ensures updaters { UpdatersAnswerNothing }
    ensures octets { AnswersAskNothing }
{
    opcodes_are_kept();
}
