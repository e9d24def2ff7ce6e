//! Laws of the definitions: functions that do nothing, whose contracts are proved.

ghost use Rattle.mu_model_distributor_rules.specs.Rules.{FirstRuleAnswers};

/// Each request of a distributor is answered by one reply to its source, whose status is that of the first rule that holds; a request that is
/// refused changes nothing.
pub fn first_rule_answers()
    ensures { FirstRuleAnswers }
{}
