// What each request does: a function for each that changes something.
ghost use Rattle.std.specs.Prelude.{◌≡◌, ◌≤◌, List, length};
ghost use Rattle.mu_distmsg.specs.declared.message.ReceiverRow.{ReceiverRow};
ghost use Rattle.mu_model_distributor.specs.Requests.{ReceiversAdd, ReceiversDeleteAll, DistributionStart, DistributionSuspend, DistributionCancel, DistributionApply, StartUpload, UploadCancel, FirmwareDelete, FirmwareDeleteAll};
ghost use Rattle.mu_distributor_rows.specs.Receivers.{entries_of};
ghost use Rattle.mu_distributor_rows.specs.Messages.{upload_start_of};
ghost use Rattle.mu_distributor_answers.specs.Messages.{dist_request_of};
ghost use Rattle.mu_distributor_answers.specs.Decides.{Decides};
ghost use Rattle.mu_distributor_answers.specs.Decisions.{tells, changes_by, deletes, distributes};

use crate::messages::DistRequest;
use crate::steps::{Decision, DistStep};
use mu_distributor_kept::Rows;
use mu_distributor_rows::{
    DistLook, DistributionStep, UploadStart, distribution_apply, distribution_cancel,
    distribution_start, distribution_suspend, firmware_delete, firmware_delete_all, is_upload_due,
    receivers_add, receivers_delete_all, upload_cancel, upload_start,
};
use mu_model_distributor::Settings;

fn tells<'a>(status: u8) -> Decision<'a>
    ensures { result ≡ tells status }
{
    Decision {
        step: DistStep::Tell(status),
        due: false,
    }
}

fn changes_by<'a>(step: DistStep<'a>, found: Result<bool, u8>) -> Decision<'a>
    ensures { result ≡ changes_by step.entry found }
{
    match found {
        Ok(due) => Decision { step, due },
        Err(status) => tells(status),
    }
}

fn deletes<'a>(fwid: &'a [u8], found: Result<(), u8>) -> Decision<'a>
    ensures { result ≡ deletes fwid.entry found }
{
    match found {
        Ok(()) => Decision {
            step: DistStep::DeleteImages(fwid),
            due: true,
        },
        Err(status) => tells(status),
    }
}

fn distributes<'a>(step: DistributionStep) -> Decision<'a>
    ensures { result ≡ distributes step }
{
    Decision {
        step: DistStep::Distribution(step),
        due: step.is_due(),
    }
}

fn add<'l, 'a>(look: DistLook<'l>, rows: &mut Rows, entries: &[(u16, u8)]) -> Decision<'a>
    ensures { Decides look.entry rows.old.items rows.new.items (ReceiversAdd (entries_of entries.now)) result }
{
    changes_by(
        DistStep::Receivers,
        receivers_add(rows, look.phase, entries),
    )
}

fn delete_receivers<'l, 'a>(look: DistLook<'l>, rows: &mut Rows) -> Decision<'a>
    ensures { Decides look.entry rows.old.items rows.new.items ReceiversDeleteAll result }
{
    changes_by(DistStep::Receivers, receivers_delete_all(rows, look.phase))
}

fn start<'l, 'a>(look: DistLook<'l>, settings: Option<Settings>) -> Decision<'a>
    ensures { (rows : List ReceiverRow) → Decides look.entry rows rows (DistributionStart settings) result }
{
    distributes(distribution_start(look, settings))
}

fn suspend<'l, 'a>(look: DistLook<'l>) -> Decision<'a>
    ensures { (rows : List ReceiverRow) → Decides look.entry rows rows DistributionSuspend result }
{
    distributes(distribution_suspend(look))
}

fn cancel<'l, 'a>(look: DistLook<'l>) -> Decision<'a>
    ensures { (rows : List ReceiverRow) → Decides look.entry rows rows DistributionCancel result }
{
    distributes(distribution_cancel(look))
}

fn apply<'l, 'a>(look: DistLook<'l>) -> Decision<'a>
    ensures { (rows : List ReceiverRow) → Decides look.entry rows rows DistributionApply result }
{
    distributes(distribution_apply(look))
}

fn start_upload<'l, 'a>(look: DistLook<'l>, asked: UploadStart<'a>) -> Decision<'a>
    ensures { (rows : List ReceiverRow) → Decides look.entry rows rows (StartUpload (upload_start_of asked.entry)) result }
{
    let step = upload_start(look, asked);
    Decision {
        step: DistStep::Upload(asked, step),
        due: is_upload_due(look, asked, step),
    }
}

fn cancel_upload<'l, 'a>(look: DistLook<'l>) -> Decision<'a>
    ensures { (rows : List ReceiverRow) → Decides look.entry rows rows UploadCancel result }
{
    Decision {
        step: DistStep::CancelUpload,
        due: upload_cancel(look),
    }
}

fn delete<'l, 'a>(look: DistLook<'l>, fwid: &'a [u8]) -> Decision<'a>
    requires { length look.metas.now ≤ 4 }
    ensures { (rows : List ReceiverRow) → Decides look.entry rows rows (FirmwareDelete fwid.now) result }
{
    deletes(fwid, firmware_delete(look, fwid))
}

fn delete_all<'l, 'a>(look: DistLook<'l>) -> Decision<'a>
    ensures { (rows : List ReceiverRow) → Decides look.entry rows rows FirmwareDeleteAll result }
{
    changes_by(DistStep::DeleteAllImages, firmware_delete_all(look))
}

/// What a request does, by the first rule of its row that holds. Receivers are added and deleted at once; all else that changes is
/// the step that is handed back. What only tells something is answered with status 0, a start by a URI with 9.
pub fn decide<'l, 'a>(
    look: DistLook<'l>,
    rows: &mut Rows,
    request: &DistRequest<'a>,
) -> Decision<'a>
    requires { length look.metas.now ≤ 4 }
    ensures { Decides look.entry rows.old.items rows.new.items (dist_request_of request.now) result }
{
    match request {
        DistRequest::ReceiversAdd { entries } => add(look, rows, entries.as_slice()),
        DistRequest::ReceiversDeleteAll => delete_receivers(look, rows),
        DistRequest::ReceiversGet { .. } => tells(0),
        DistRequest::CapabilitiesGet => tells(0),
        DistRequest::DistributionGet => tells(0),
        DistRequest::DistributionStart { settings } => start(look, *settings),
        DistRequest::DistributionSuspend => suspend(look),
        DistRequest::DistributionCancel => cancel(look),
        DistRequest::DistributionApply => apply(look),
        DistRequest::UploadGet => tells(0),
        DistRequest::StartUpload(asked) => start_upload(look, *asked),
        DistRequest::StartUploadOob => tells(9),
        DistRequest::UploadCancel => cancel_upload(look),
        DistRequest::FirmwareGet { .. } => tells(0),
        DistRequest::FirmwareGetByIndex { .. } => tells(0),
        DistRequest::FirmwareDelete { fwid } => delete(look, *fwid),
        DistRequest::FirmwareDeleteAll => delete_all(look),
    }
}
