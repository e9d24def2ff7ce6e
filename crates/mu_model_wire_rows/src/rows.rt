//! Worked rows of the message grammar: functions that do nothing, whose contracts are evaluated.

ghost use Rattle.mu_model_wire_rows.specs.Grammar.{Messages, Refusals};

/// What each message says, and the octets that are written of it.
pub fn messages()
    ensures { Messages }
{}

/// What is refused, for which reason and at which place.
pub fn refusals()
    ensures { Refusals }
{}
