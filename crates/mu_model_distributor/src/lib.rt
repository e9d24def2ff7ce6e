//! What a distributor is and does (MshDFU, Firmware Distribution Server; MshMBT, BLOB Transfer Server; in this profile).
#![tactic(auto)]

/// The phase of a distribution (MshDFU, Distribution Phase).
#[derive(Clone, Copy, Debug, PartialEq, Eq)]
pub enum DistPhase {
    /// There is none.
    Idle,
    /// The receivers check, take and verify the image.
    TransferActive,
    /// Receivers have verified the image, and nobody was asked to apply it.
    TransferSuccess,
    /// The receivers apply the image and are asked whether they did.
    ApplyingUpdate,
    /// A receiver has applied the image.
    Completed,
    /// No receiver has.
    Failed,
    /// The receivers are told that there is no update.
    CancelingUpdate,
    /// As in Transfer Active, but nothing is sent.
    TransferSuspended,
}

/// What a Distribution Start asks for (MshDFU, Firmware Distribution Start).
#[derive(Clone, Copy, Debug, PartialEq, Eq)]
pub struct Settings {
    pub appkey: u16,
    pub ttl: u8,
    /// The Timeout Base.
    pub base: u16,
    /// The Transfer Mode: 1 push or 2 pull.
    pub mode: u8,
    /// The Update Policy: 0 Verify Only or 1 Verify And Apply.
    pub policy: u8,
    /// The index of the image among the distributor's.
    pub image: u16,
    /// C000..FFFF, or 0 where each receiver is sent to by its own address.
    pub group: u16,
}
