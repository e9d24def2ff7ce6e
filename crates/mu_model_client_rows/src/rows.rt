//! Worked rows of clients: functions that do nothing, whose contracts are evaluated.

ghost use Rattle.mu_model_client_rows.specs.Initiators.{EachInitiator};
ghost use Rattle.mu_model_client_rows.specs.Ranks.{Ranks};
ghost use Rattle.mu_model_client_rows.specs.Runs.{PullAndRest, RoundsAndChunks};
ghost use Rattle.mu_model_client_rows.specs.Tables.{EachAnswer};

/// What each answer does in each step: the receiver's row, its drop, and what the next time event sends; and what it makes of a
/// row's phase.
pub fn each_answer()
    ensures answers { EachAnswer }
    ensures ranks { Ranks }
{}

/// Rounds, lists and chunks; pull, verification, applying and cancelling.
pub fn runs()
    ensures rounds { RoundsAndChunks }
    ensures rest { PullAndRest }
{}

/// What an initiator asks in each step, octet by octet, and how it ends.
pub fn initiators()
    ensures { EachInitiator }
{}
