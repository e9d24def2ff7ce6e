//! Laws of the client's definitions: functions that do nothing, whose contracts are proved.

ghost use Rattle.mu_model_client_laws.specs.Worked.{RepairsTheUnion, Completes, DropsTheSilent, DropsByStatus, EachStatusDrops, DropsOthers, GoesOn, CancellingTellsTheRound};
ghost use Rattle.mu_model_client_laws.specs.WorkedInitiator.{Initiates};
ghost use Rattle.mu_model_client_laws.specs.Wire.{RequestsAreRead, RequestsKeepTheirOpcodes, RequestsAreNoAnswers, RepliesAreRead};
ghost use Rattle.mu_model_client_laws.specs.Asked.{ClientsSendTheirPlans};
ghost use Rattle.mu_model_client_laws.specs.Laws.{AtMostSixteen, FieldsAreRead, NamedSetsAreReported, NamedSetsAreRead, PlansStay, TimeKeepsRanks, CancellingKeepsRanks, RowsRise, RowsChangeByCause, RowsFollowPackets, TimeChangesAtFive, ApplyingDropsNobody, DropsStay, GroupGetsTheUnion, EachGetsWhatItMisses, StepsSendTheirLists, BeginsSound, EventsKeepSound, ListsGoToActive};

use mu_model_wire::laws::{canonical_is_read, grammar_holds, opcodes_are_kept};

/// A node reads what a client writes.
pub fn requests_are_read()
    ensures { RequestsAreRead }
{
    grammar_holds();
    canonical_is_read();
}

/// What a client writes, in the ranges of the grammar or not, is read as a message of its kind or as none, and never as an answer.
pub fn requests_are_no_answers()
    ensures opcodes { RequestsKeepTheirOpcodes }
    ensures answers { RequestsAreNoAnswers }
{
    opcodes_are_kept();
}

/// A client reads what a node replies.
pub fn replies_are_read()
    ensures { RepliesAreRead }
{
    grammar_holds();
    canonical_is_read();
}

/// The bit field of a set of missing numbers is read as the set.
pub fn fields_are_read()
    ensures { FieldsAreRead }
{}

/// A client reads in a report the set below a bound that the report names, where it names one.
pub fn named_sets()
    ensures named { NamedSetsAreReported }
    ensures read { NamedSetsAreRead }
{}

/// What is sent, what for and to whom stays from the beginning on.
pub fn plans_stay()
    ensures { PlansStay }
{}

/// What a client sends, and what it leaves to be sent, is its plan.
pub fn plans_are_sent()
    ensures { ClientsSendTheirPlans }
{}

/// A time event sends at most 16 packets.
pub fn few_packets()
    ensures { AtMostSixteen }
{}

/// A row's rank never falls; each change of its phase has its cause, and Transfer Canceled, Apply Failed and Phase Unknown are
/// verdicts. A packet changes its source's rows alone, and as it says; none once the transfer is being canceled.
pub fn rows()
    ensures rise { RowsRise }
    ensures time { TimeKeepsRanks }
    ensures cancelled { CancellingKeepsRanks }
    ensures causes { RowsChangeByCause }
    ensures follow { RowsFollowPackets }
{}

/// Nobody is dropped as Silent before five silent rounds of a step, and time drops nobody in the steps Apply and Cancel.
pub fn silence()
    ensures fifth { TimeChangesAtFive }
    ensures applying { ApplyingDropsNobody }
{}

/// Who was dropped is dropped for good.
pub fn drops_stay()
    ensures { DropsStay }
{}

/// Chunks in push are the union of what active receivers miss, in rising order: one packet each with a group, and one for each
/// receiver that misses it without.
pub fn chunks()
    ensures grouped { GroupGetsTheUnion }
    ensures alone { EachGetsWhatItMisses }
    ensures sent { StepsSendTheirLists }
{}

/// Each list that is made goes to receivers that its step may ask, or to the group: active ones, and in the step Cancel dropped ones too.
pub fn lists()
    ensures { ListsGoToActive }
{}

/// From its beginning on a client's pending receivers are ones that its step may ask (active ones, but in the step Cancel), each with fewer
/// than five silent rounds.
pub fn clients_are_sound()
    ensures begins { BeginsSound }
    ensures events { EventsKeepSound }
{}

/// Worked rows: chunks that two receivers miss are sent again, an update that is answered in every step succeeds, with whom a
/// client goes on after a boot, and that no row moves in cancelling.
pub fn worked_rows()
    ensures repairs { RepairsTheUnion }
    ensures completes { Completes }
    ensures goes_on { GoesOn }
    ensures cancels { CancellingTellsTheRound }
{}

/// Worked rows: each way in which a receiver is dropped, and what its row shows then.
pub fn worked_drops()
    ensures silent { DropsTheSilent }
    ensures status { DropsByStatus }
    ensures each_status { EachStatusDrops }
    ensures others { DropsOthers }
{}

/// Worked rows: what an initiator asks of its distributor in each step, and how it ends.
pub fn worked_initiator()
    ensures { Initiates }
{}
