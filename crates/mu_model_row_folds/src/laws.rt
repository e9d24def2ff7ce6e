//! Laws of the definitions: functions that do nothing, whose contracts are proved.

ghost use Rattle.mu_model_row_folds.specs.Distributors.{DistributorRowsAreFolds, RowsBeginUnknown};
ghost use Rattle.mu_model_row_folds.specs.DistributorStatuses.{DistributorDropsStand, DistributorStatusesAreFolds};
ghost use Rattle.mu_model_row_folds.specs.Folds.{UnknownIsExactInRuns};
ghost use Rattle.mu_model_row_folds.specs.Statuses.{DropsStandInRows};
ghost use Rattle.mu_model_row_folds.specs.Updaters.{UpdaterRowsAreFolds};

use mu_model_client_laws::laws::{clients_are_sound, drops_stay, plans_stay, rows};
use mu_model_distributor_laws::laws::{
    flash_work, rests_stand, rows_are_told, rows_move_by_cause, runs_are_in_order,
    starts_are_offered, states_are_sound,
};
use mu_model_rows::laws::{
    distributor_rows_are_exact, statuses_stand, time_is_exact, unknown_is_exact,
};

/// A row that begins in Phase Unknown is in it exactly where nothing that counted told a phase of the transfer and no verdict came.
pub fn unknown_is_exact_in_runs()
    ensures { UnknownIsExactInRuns }
{
    unknown_is_exact();
}

/// The phase of each row of an updater is the fold of what counted for it, from Phase Unknown on: the packets handled from its receiver,
/// and its fifth silent round of Confirm.
pub fn updater_rows_are_folds()
    ensures { UpdaterRowsAreFolds }
{
    plans_stay();
    rows();
    time_is_exact();
}

/// The status by which a receiver of an updater was dropped stands in its row: as update status where an update message had it, as transfer
/// status where a BLOB message or the BLOB information had it; and no other row has one.
pub fn drops_stand_in_rows()
    ensures { DropsStandInRows }
{
    statuses_stand();
    drops_stay();
    clients_are_sound();
}

/// The phase of each row of a distributor is the fold of what counted for it: the packets handled from its receiver while its transfer is
/// present, the cancel of its distribution, and its fifth silent round of Confirm; until another distribution begins, over every cut. Where
/// a distribution begins, all rows are in Phase Unknown.
pub fn distributor_rows_are_folds()
    ensures folds { DistributorRowsAreFolds }
    ensures begin { RowsBeginUnknown }
{
    rows_move_by_cause();
    rows_are_told();
    rests_stand();
    flash_work();
    starts_are_offered();
    states_are_sound();
    distributor_rows_are_exact();
}

/// In each run of a distributor, over every cut, the status by which a receiver stands dropped stands in its row: as update status where an
/// update message had it, as transfer status where a BLOB message or the BLOB information had it. While a distribution goes on, the statuses
/// that are kept of a receiver are those of its drops, each put in its place when it came, and change by nothing else.
pub fn distributor_drops_stand()
    ensures stand { DistributorDropsStand }
    ensures folds { DistributorStatusesAreFolds }
{
    statuses_stand();
    rows_move_by_cause();
    rows_are_told();
    rests_stand();
    flash_work();
    starts_are_offered();
    states_are_sound();
    distributor_rows_are_exact();
    runs_are_in_order();
}
