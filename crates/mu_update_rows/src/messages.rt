// The messages that a Firmware Update Server takes and those that it answers.
use arrayvec::ArrayVec;
use mu_image::Fwid;

/// What a Firmware Update Start asks for.
#[derive(Clone, Copy)]
pub struct UpdateStart<'a> {
    pub ttl: u8,
    /// The Update Timeout Base.
    pub base: u16,
    /// The BLOB ID.
    pub id: u64,
    /// The index of the image.
    pub index: u8,
    pub metadata: &'a [u8],
}

/// A message that a Firmware Update Server takes.
#[derive(Clone, Copy)]
pub enum UpdateRequest<'a> {
    InformationGet { first: u8, limit: u8 },
    MetadataCheck { index: u8, metadata: &'a [u8] },
    UpdateGet,
    StartUpdate(UpdateStart<'a>),
    UpdateCancel,
    UpdateApply,
}

/// What a Firmware Update Status shows of a job.
#[derive(Clone, Copy)]
pub struct ShownJob {
    pub ttl: u8,
    pub base: u16,
    pub id: u64,
    pub index: u8,
}

/// What a Firmware Update Server answers.
#[derive(Drop)]
pub enum UpdateReply {
    InformationStatus {
        count: u8,
        first: u8,
        ids: ArrayVec<Fwid, 2>,
    },
    MetadataStatus {
        status: u8,
        index: u8,
    },
    UpdateStatus {
        status: u8,
        phase: u8,
        job: Option<ShownJob>,
    },
}
