//! Laws of the definitions: functions that do nothing, whose contracts are proved.

ghost use Rattle.mu_model_jobs.specs.Places.{BanksChange};
ghost use Rattle.mu_model_jobs.specs.States.{TaggedIsAState, BankIsAState, BegunIsAState, EmptiedIsAState, SealedIsAState, ReleasedIsAState, BlockIsAState};
ghost use Rattle.mu_model_jobs.specs.Transfers.{TaggedStays, TaggedDrops, BegunBegins, EmptiedDrops, SealedStays, OtherBankStays, ReleasedStays};
ghost use Rattle.mu_model_jobs.specs.Parts.{NewPartKeepsTheNote, PartIsRead, RulesStay, RulesOfAnother, RulesOfADrop, RulesBegin, RulesAreGivenUp, RulesSeal, RulesRelease};

use mu_model_record::laws::changes;
use mu_model_represents::laws::{blob_parts, blocks_of_jobs};

/// Banks that are changed or released, and the others.
pub fn banks_change()
    ensures { BanksChange }
{}

/// The states that the calls on a store give are states that a store can be in.
pub fn states_stay()
    ensures tagged { TaggedIsAState }
    ensures bank { BankIsAState }
    ensures begun { BegunIsAState }
    ensures emptied { EmptiedIsAState }
    ensures sealed { SealedIsAState }
    ensures released { ReleasedIsAState }
    ensures block { BlockIsAState }
{
    changes();
}

/// What each call makes of a job's transfer. A block that is put is told of beside the relations.
pub fn transfers()
    ensures tagged { TaggedStays }
    ensures dropped { TaggedDrops }
    ensures begun { BegunBegins }
    ensures emptied { EmptiedDrops }
    ensures sealed { SealedStays }
    ensures filled { OtherBankStays }
    ensures released { ReleasedStays }
{
    blocks_of_jobs();
}

/// What the record says of a job after each call.
pub fn parts()
    ensures new_part { NewPartKeepsTheNote }
    ensures read { PartIsRead }
    ensures tagged { RulesStay }
    ensures another { RulesOfAnother }
    ensures dropped { RulesOfADrop }
    ensures begun { RulesBegin }
    ensures emptied { RulesAreGivenUp }
    ensures sealed { RulesSeal }
    ensures released { RulesRelease }
{
    blob_parts();
}
