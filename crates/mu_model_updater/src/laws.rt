//! Laws of the definitions: functions that do nothing, whose contracts are proved.

ghost use Rattle.mu_model_updater.specs.Laws.{BeginsWithACheck, EndsStay, LinesAreInRange, NothingElse, ReadStartsAreOffered, RowsAreOfReceivers, RowsAreTold, SendsFromItsAddress, StartsAreOffered, StartsAreRead};
ghost use Rattle.mu_model_updater.specs.Worked.{AWholeUpdate, TwoReceivers};

use mu_model_client_laws::laws::{
    clients_are_sound, plans_are_sent, plans_stay, requests_are_no_answers, requests_are_read,
    rows, silence,
};

/// Whatever comes to an updater, its rows are of its receivers, and say what these told it.
pub fn rows_are_told()
    ensures receivers { RowsAreOfReceivers }
    ensures told { RowsAreTold }
{
    plans_stay();
    plans_are_sent();
    clients_are_sound();
    rows();
    silence();
}

/// An updater's Update Starts say what its plan says, to its receivers, and a node reads them so where the plan is in the ranges of
/// the grammar, as a script's line is. It sends from its own address.
pub fn starts_are_offered()
    ensures offered { StartsAreOffered }
    ensures from { SendsFromItsAddress }
    ensures read { StartsAreRead }
    ensures both { ReadStartsAreOffered }
    ensures lines { LinesAreInRange }
{
    plans_stay();
    plans_are_sent();
    clients_are_sound();
    requests_are_read();
    requests_are_no_answers();
    mu_model_image::laws::images();
}

/// What an updater sends is no answer and no Receivers List.
pub fn nothing_else()
    ensures { NothingElse }
{
    requests_are_no_answers();
}

/// An updater begins with its check; one that has ended stays so and sends nothing.
pub fn begins_and_ends()
    ensures begins { BeginsWithACheck }
    ensures ends { EndsStay }
{}

/// Worked rows: an updater's packets, octet by octet, and its rows; and a whole update of a node.
pub fn worked_rows()
    ensures receivers { TwoReceivers }
    ensures update { AWholeUpdate }
{}
