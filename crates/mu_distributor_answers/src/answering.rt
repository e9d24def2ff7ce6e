// What answers each request, over what stands then.
ghost use Rattle.std.specs.Prelude.{◌≡◌, ◌<◌, ◌≤◌, ◌*◌, ◌^◌, length};
ghost use Rattle.mu_model_distributor.specs.DistState.{DistState};
ghost use Rattle.mu_distributor_rows.specs.Looks.{LooksAs};
ghost use Rattle.mu_distributor_rows.specs.Receivers.{AreRowsOf, AreShownRows};
ghost use Rattle.mu_distributor_rows.specs.Replies.{HasSettings};
ghost use Rattle.mu_distributor_rows.specs.Fits.{IsPercent};
ghost use Rattle.mu_distributor_answers.specs.Messages.{dist_request_of};
ghost use Rattle.mu_distributor_answers.specs.Fits.{HasFirmwareId};
ghost use Rattle.mu_distributor_answers.specs.Steps.{shown_to};

use crate::messages::DistRequest;
use mu_distributor_kept::ReceiverRow;
use mu_distributor_rows::{
    DistAnswer, DistLook, all_firmware_status, capabilities_answer, distribution_answer,
    firmware_get, firmware_get_by_index, firmware_status, receivers_list, receivers_status,
    upload_answer,
};

/// The answer to a request, with the status that its step has, over what is looked at once the step is done: a request that is refused
/// shows what stands, and not what was asked.
pub fn answer<'l, 'a>(
    look: DistLook<'l>,
    rows: &[ReceiverRow],
    request: &DistRequest<'a>,
    status: u8,
) -> DistAnswer
    requires known { status ≤ 13 }
    requires id { HasFirmwareId request.now }
    requires capacity { 4 * look.capacity < 2 ^ 32 }
    requires images { length look.metas.now ≤ 4 }
    requires settings { HasSettings look.phase look.settings }
    requires progress { IsPercent look.job }
    requires few { length rows.now ≤ 128 }
    requires rows { AreShownRows rows.now }
    ensures { (s : DistState) → LooksAs look.entry s → AreRowsOf rows.now s → result ≡ shown_to (dist_request_of request.now) status s }
{
    match request {
        DistRequest::ReceiversAdd { .. } | DistRequest::ReceiversDeleteAll => {
            receivers_status(status, rows)
        }
        DistRequest::ReceiversGet { first, limit } => receivers_list(rows, *first, *limit),
        DistRequest::CapabilitiesGet => capabilities_answer(look),
        DistRequest::DistributionGet
        | DistRequest::DistributionStart { .. }
        | DistRequest::DistributionSuspend
        | DistRequest::DistributionCancel
        | DistRequest::DistributionApply => distribution_answer(look, status),
        DistRequest::UploadGet
        | DistRequest::StartUpload(_)
        | DistRequest::StartUploadOob
        | DistRequest::UploadCancel => upload_answer(look, status),
        DistRequest::FirmwareGet { fwid } => firmware_get(look, *fwid),
        DistRequest::FirmwareGetByIndex { index } => firmware_get_by_index(look, *index),
        DistRequest::FirmwareDelete { fwid } => firmware_status(look, status, *fwid),
        DistRequest::FirmwareDeleteAll => all_firmware_status(look, status),
    }
}
