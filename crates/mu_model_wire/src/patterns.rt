//! Laws of number patterns: functions that do nothing, whose contracts are proved.

ghost use Rattle.mu_model_wire.specs.Patterns.{ShortestPatternIsThePattern, PatternIsRead};

/// A number has one pattern, and the grammar reads exactly the patterns.
pub fn number_patterns()
    ensures shortest { ShortestPatternIsThePattern }
    ensures read { PatternIsRead }
{}
