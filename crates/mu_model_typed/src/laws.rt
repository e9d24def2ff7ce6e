//! Laws of typed runs: functions that do nothing, whose contracts are proved for any typed states, any states and any reading.
ghost use Rattle.mu_model_flash.specs.Flash.{Seen};
ghost use Rattle.mu_model_flash.specs.Laws.{RunLaws};
ghost use Rattle.mu_model_flash.specs.Run.{Reading};
ghost use Rattle.mu_model_typed.specs.Joins.{TypedRunsJoin};

/// Flashes of a type and the ways in which their octets are read, values and faults that have the flash, and what a value keeps of a state.
pub trait Typed {
    ghost Flash: { Type 0 };

    ghost seen: { Flash → Seen };

    ghost Way: { Type 0 };

    ghost State: { Way → Type 0 };

    ghost reading: { (way : Way) → Reading (State way) };

    ghost Value: { Type 0 };

    ghost Fault: { Type 0 };

    ghost flash_of_value: { Value → Flash };

    ghost flash_of_fault: { Fault → Flash };

    ghost kept: { (way : Way) → Value → State way → Type 0 };

    ghost by_flash: { Fault → Type 0 };
}

/// A run, and then a call that hands on the flash where it ended, are one call that goes through all their states; and a call is read as one through
/// other states.
pub fn typed_runs<R: Typed>()
    ensures { RunLaws R.State R.reading R.seen → TypedRunsJoin R.State R.reading R.seen R.flash_of_value R.flash_of_fault R.kept R.by_flash }
{}
