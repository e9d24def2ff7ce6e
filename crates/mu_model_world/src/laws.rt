//! Laws of the definitions: functions that do nothing, whose contracts are proved.

ghost use Rattle.mu_model_world.specs.Laws.{TraceIsAlone, RefusedHasNoTrace};

/// A script in which no tear leaves made bits has one trace or a refused line, and not both.
pub fn runs()
    ensures alone { TraceIsAlone }
    ensures refused { RefusedHasNoTrace }
{}
