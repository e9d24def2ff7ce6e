//! Laws of flash runs: functions that do nothing, whose contracts are proved for any flash, any states and any reading.
ghost use Rattle.std.specs.Prelude.{◌≡◌, ℕ, List, IsTrue, false, length};
ghost use Rattle.mu_model_flash.specs.Flash.{Seen, IsBefore};
ghost use Rattle.mu_model_flash.specs.Laws.{RangeLaws, RunLaws};
ghost use Rattle.mu_model_flash.specs.Run.{Reading, either, Ran, Broke};
ghost use Rattle.mu_model_flash.specs.Sentences.{Done, Failing};

/// Flashes of a type, and the ways in which their octets are read as states.
pub trait Readings {
    ghost Flash: { Type 0 };

    ghost seen: { Flash → Seen };

    ghost Way: { Type 0 };

    ghost State: { Way → Type 0 };

    ghost reading: { (way : Way) → Reading (State way) };
}

/// A reading of octets as states, the states that operations pass, and a flash before and after them.
pub trait Course {
    ghost State: { Type 0 };

    ghost reading: { Reading State };

    ghost start: { State };

    ghost steps: { List State };

    ghost before: { Seen };

    ghost after: { Seen };
}

/// What octets stand for, the states that operations pass, and a flash before and after them.
pub trait Standing {
    ghost State: { Type 0 };

    ghost stands: { State → List ℕ → Type 0 };

    ghost start: { State };

    ghost steps: { List State };

    ghost before: { Seen };

    ghost after: { Seen };
}

/// Parts of octets, ranges that are written, and ranges whose write is cut short.
pub fn ranges_of_octets()
    ensures { RangeLaws }
{}

/// Runs one after the other are a run of all their operations, and a run is read as one of other states, operation by operation.
pub fn runs<R: Readings>()
    ensures { RunLaws R.State R.reading R.seen }
{}

/// Where calls fail by an armed operation alone, and none is armed within the operations, no call fails.
pub fn no_failure<C: Course>()
    requires only_armed { IsTrue C.before.only_armed }
    requires on { C.before.off ≡ false }
    requires unreached { IsBefore (length C.steps) C.before.armed }
    ensures { ¬ Broke C.reading C.start C.steps C.before C.after }
{}

/// What is promised of every call that was done.
pub fn done<C: Standing>()
    requires told { IsTrue C.before.told }
    requires ran { Ran (either C.stands) C.start C.steps C.before C.after }
    ensures { Done C.stands C.start C.steps C.before C.after }
{}

/// What is promised of every call that failed.
pub fn failing<C: Standing>()
    requires told { IsTrue C.before.told }
    requires broke { Broke (either C.stands) C.start C.steps C.before C.after }
    ensures { Failing C.stands C.start C.steps C.before C.after }
{}
