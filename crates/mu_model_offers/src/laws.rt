//! Laws of the definitions: functions that do nothing, whose contracts are proved.

ghost use Rattle.mu_model_offers.specs.Packets.{PacketsSayStarts, StartsAreOfImages};
ghost use Rattle.mu_model_offers.specs.Laws.{HeardAgree, HeardAgrees, HeardIsOwn, ListsAgree, RowsAgree, RowsStandOnce, StartsAgree, StartsAreOwn};

/// A distributor, whatever comes to it and whenever the power goes: its Update Starts under one BLOB ID have one image's metadata and
/// each receiver one index, what it heard under a BLOB ID it heard for the same offer, and its rows have the indexes that were asked.
pub fn offers_agree()
    ensures starts { StartsAgree }
    ensures heard { HeardAgrees }
    ensures answers { HeardAgree }
    ensures rows { RowsAgree }
    ensures once { RowsStandOnce }
    ensures lists { ListsAgree }
    ensures own { StartsAreOwn }
    ensures heard_own { HeardIsOwn }
{
    mu_model_image::laws::metadata();
    mu_model_distributor_laws::laws::states_are_sound();
    mu_model_distributor_laws::laws::flash_work();
    mu_model_distributor_laws::laws::starts_are_offered();
    mu_model_distributor_laws::laws::rows_move_by_cause();
    mu_model_distributor_laws::laws::rests_stand();
    mu_model_distributor_laws::laws::starts_are_in_order();
    mu_model_distributor_laws::laws::runs_are_in_order();
    mu_model_distributor_laws::laws::lists_are_told();
    mu_model_distributor_laws::laws::rows_are_told();
}

/// What a node reads in a distributor's packets as an Update Start was sent so to the packet's destination.
pub fn packets_say_starts()
    ensures { PacketsSayStarts }
{
    mu_model_image::laws::metadata();
    mu_model_wire::laws::opcodes_are_kept();
    mu_model_client_laws::laws::requests_are_read();
    mu_model_distributor_laws::laws::states_are_sound();
    mu_model_distributor_laws::laws::flash_work();
    mu_model_distributor_laws::laws::starts_are_offered();
    mu_model_distributor_laws::laws::rows_move_by_cause();
    mu_model_distributor_laws::laws::rests_stand();
    mu_model_distributor_laws::laws::starts_are_in_order();
    mu_model_distributor_laws::laws::rows_are_told();
}

/// What a node reads so offers an image that the distributor has when the event comes.
pub fn starts_are_of_images()
    ensures { StartsAreOfImages }
{
    mu_model_image::laws::metadata();
    mu_model_wire::laws::opcodes_are_kept();
    mu_model_client_laws::laws::requests_are_read();
    mu_model_distributor_laws::laws::states_are_sound();
    mu_model_distributor_laws::laws::flash_work();
    mu_model_distributor_laws::laws::starts_are_offered();
    mu_model_distributor_laws::laws::rows_move_by_cause();
    mu_model_distributor_laws::laws::rests_stand();
    mu_model_distributor_laws::laws::rows_are_told();
}
