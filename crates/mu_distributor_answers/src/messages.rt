// The messages that a Firmware Distribution Server takes.
use arrayvec::ArrayVec;
use mu_distributor_rows::UploadStart;
use mu_model_distributor::Settings;

/// A message that a Firmware Distribution Server takes (MshDFU, Firmware Distribution messages).
#[derive(Drop)]
pub enum DistRequest<'a> {
    ReceiversAdd {
        /// The receivers' addresses and the indexes of the images that they are to update.
        entries: ArrayVec<(u16, u8), 126>,
    },
    ReceiversDeleteAll,
    ReceiversGet {
        first: u16,
        limit: u16,
    },
    CapabilitiesGet,
    DistributionGet,
    DistributionStart {
        /// None where it goes to a label.
        settings: Option<Settings>,
    },
    DistributionSuspend,
    DistributionCancel,
    DistributionApply,
    UploadGet,
    StartUpload(UploadStart<'a>),
    StartUploadOob,
    UploadCancel,
    FirmwareGet {
        fwid: &'a [u8],
    },
    FirmwareGetByIndex {
        index: u16,
    },
    FirmwareDelete {
        fwid: &'a [u8],
    },
    FirmwareDeleteAll,
}
