//! Laws of the definitions: functions that do nothing, whose contracts are proved.

ghost use Rattle.mu_model_distributor_laws.specs.Worked.{ReceiversAndImages};
ghost use Rattle.mu_model_distributor_laws.specs.WorkedUploads.{AWholeUpload, BrokenUploads, RefusedUploads};
ghost use Rattle.mu_model_distributor_laws.specs.WorkedPhases.{PhaseByPhase};
ghost use Rattle.mu_model_distributor_laws.specs.WorkedRun.{ADistribution};
ghost use Rattle.mu_model_distributor_laws.specs.WorkedSettle.{NothingIsLost};
ghost use Rattle.mu_model_distributor_laws.specs.WorkedEnds.{VerificationEnds, AnswersCount, Confirmations, ManyReceivers};
ghost use Rattle.mu_model_distributor_laws.specs.Laws.{EventsKeepStatesSound, BootsAreSound, PassedStatesAreSound, NewIsSound, StockedIsSound, OctetsSayInRange, StatesPassRising, WorkLeavesOldOrNew, WorkLeadsToTheNew, WorkIsBounded, RecordsAreLongByReceivers, RecordsSaySomething, LongIsPastTheEnd};
ghost use Rattle.mu_model_distributor_laws.specs.Planned.{EventsKeepPlanned, BootsArePlanned, StartsAreOffered, CountersRise};
ghost use Rattle.mu_model_distributor_laws.specs.RowMoves.{RowsMoveByCause};
ghost use Rattle.mu_model_distributor_laws.specs.Rests.{RestsMove, RestsStartNothing};
ghost use Rattle.mu_model_distributor_laws.specs.RowsTold.{OffersStand, RowsAreTold};
ghost use Rattle.mu_model_distributor_laws.specs.Lists.{ListsShowRows, ListsAreTold};
ghost use Rattle.mu_model_distributor_laws.specs.Starts.{StartsAreInOrder, NewIsUnused, StockedIsUnused};
ghost use Rattle.mu_model_distributor_laws.specs.RunLaws.{RunsAreInOrder, NoNumberIsLost};

use mu_model_wire::laws::{
    canonical_is_read, grammar_holds, opcodes_are_kept, reads_what_is_spelled,
};

/// The rules on a distributor's record hold in each state that it goes through, from each boot on.
pub fn states_are_sound()
    ensures events { EventsKeepStatesSound }
    ensures boots { BootsAreSound }
    ensures passed { PassedStatesAreSound }
    ensures new { NewIsSound }
    ensures stocked { StockedIsSound }
{
    mu_model_node::laws::states_are_sound();
}

/// What octets say to a distributor is in the ranges of the grammar.
pub fn octets_say_in_range()
    ensures { OctetsSayInRange }
{
    grammar_holds();
    reads_what_is_spelled();
    mu_model_image::laws::metadata();
}

/// What an event does to the flash.
pub fn flash_work()
    ensures passed { StatesPassRising }
    ensures left { WorkLeavesOldOrNew }
    ensures led { WorkLeadsToTheNew }
    ensures bounded { WorkIsBounded }
    ensures long { RecordsAreLongByReceivers }
    ensures says { RecordsSaySomething }
    ensures past { LongIsPastTheEnd }
{
    mu_model_node::laws::states_are_sound();
}

/// A distributor's client does what the distribution asks, and its Update Starts are what each record that a cut may leave offers.
pub fn starts_are_offered()
    ensures events { EventsKeepPlanned }
    ensures boots { BootsArePlanned }
    ensures offered { StartsAreOffered }
    ensures counters { CountersRise }
{}

/// Each change of a row has its cause.
pub fn rows_move_by_cause()
    ensures { RowsMoveByCause }
{}

/// At rest, while no distribution goes on, no row changes, nobody is asked to update, and a distribution begins under a new number.
pub fn rests_stand()
    ensures moves { RestsMove }
    ensures starts { RestsStartNothing }
{}

/// A new distributor, and one that images are stocked into, begin their runs in order.
pub fn starts_are_in_order()
    ensures order { StartsAreInOrder }
    ensures new { NewIsUnused }
    ensures stocked { StockedIsUnused }
{}

/// Whatever comes and whenever the power goes, a distributor is in order, and no number of a distribution is used again.
pub fn runs_are_in_order()
    ensures order { RunsAreInOrder }
    ensures numbers { NoNumberIsLost }
{
    mu_model_node::laws::states_are_sound();
}

/// The rows of a distributor say what its receivers told it of the present distribution while its transfer was present.
pub fn rows_are_told()
    ensures stand { OffersStand }
    ensures told { RowsAreTold }
{
    mu_model_node::laws::states_are_sound();
}

/// The Receivers Lists of a distributor, read from their octets, show its rows, and so what its receivers told it.
pub fn lists_are_told()
    ensures rows { ListsShowRows }
    ensures told { ListsAreTold }
{
    opcodes_are_kept();
    grammar_holds();
    canonical_is_read();
    mu_model_node::laws::states_are_sound();
}

/// Worked rows: what a distributor answers and is left with.
pub fn worked_rows()
    ensures receivers_and_images { ReceiversAndImages }
    ensures whole_upload { AWholeUpload }
    ensures broken_uploads { BrokenUploads }
    ensures refused_uploads { RefusedUploads }
    ensures phase_by_phase { PhaseByPhase }
    ensures distribution { ADistribution }
    ensures nothing_is_lost { NothingIsLost }
    ensures verification_ends { VerificationEnds }
    ensures answers_count { AnswersCount }
    ensures confirmations { Confirmations }
    ensures many_receivers { ManyReceivers }
{}
