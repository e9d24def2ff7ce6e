//! What a client of an update or of a BLOB transfer sends and concludes (MshDFU, Firmware Update Client; MshMBT, BLOB Transfer
//! Client; the rounds, drops and verdicts are this profile's), and what an initiator does.
#![tactic(auto)]

use mu_model_image::Meta;

/// What a client sends, and how.
#[derive(Clone, Copy, Debug, PartialEq, Eq)]
pub struct Sending {
    /// The client's unicast address.
    pub from: u16,
    /// The BLOB ID.
    pub id: u64,
    /// Octets of the BLOB, 1..1,048,576.
    pub size: u32,
    /// The Block Size Log, 12..14.
    pub log: u8,
    /// Octets of a chunk, 8..376.
    pub chunk: u16,
    /// The Transfer Mode: 1 push or 2 pull.
    pub mode: u8,
    /// The group that chunks go to, C000..FFFF, or 0 where they go to each receiver.
    pub group: u16,
    pub ttl: u8,
    /// The Timeout Base. Rounds and server timeouts grow with it.
    pub base: u16,
}

/// An update: what is sent, the image's metadata, and whether it is applied as soon as it is verified.
#[derive(Clone, Copy, Debug, PartialEq, Eq)]
pub struct Plan {
    pub sending: Sending,
    pub meta: Meta,
    pub apply: bool,
}

/// Why a receiver was dropped. Steps are numbered 1 to 11 in the order of the client's table.
#[derive(Clone, Copy, Debug, PartialEq, Eq)]
pub enum Dropped {
    /// Five silent rounds of this step.
    Silent(u8),
    /// In this step it answered with this status, or its BLOB information ruled the transfer out with this BLOB status.
    Status(u8, u8),
    /// Five times after its chunks were sent it missed no fewer of them.
    Barren,
    /// While it was to verify, it was in this update phase: 1 or 5.
    Phase(u8),
}

/// What a client is for.
#[derive(Clone, Copy, Debug, PartialEq, Eq)]
pub enum Purpose {
    /// A BLOB alone.
    Blob,
    /// An update with the image's metadata, and whether it is applied once verified.
    Update(Meta, bool),
}

/// A step of a client, in the order of its table; those of a block with its number.
#[derive(Clone, Copy, Debug, PartialEq, Eq)]
pub enum Step {
    Check,
    Start,
    Information,
    Transfer,
    Block(u16),
    /// In push.
    Chunks(u16),
    /// In pull.
    Pull(u16),
    /// In push.
    Get(u16),
    Verify,
    Apply,
    Confirm,
    Cancel,
}

/// A part of an update.
#[derive(Clone, Copy, Debug, PartialEq, Eq)]
pub enum Part {
    Transferring,
    Applying,
    Cancelling,
}

/// How a receiver stands.
#[derive(Clone, Copy, Debug, PartialEq, Eq)]
pub enum Standing {
    /// Not begun with.
    Idle,
    Active,
    Gone(Dropped),
}

/// Where a client is in its steps.
#[derive(Clone, Copy, Debug, PartialEq, Eq)]
pub enum Place {
    /// The step begins in the next time event.
    Before(Step),
    At(Step),
    /// The verification has ended, and nothing is applied yet.
    Verified,
    /// This part has ended, and with it the client.
    Ended(Part),
}

/// How far an update client is.
#[derive(Clone, Copy, Debug, PartialEq, Eq)]
pub enum Stage {
    /// From the check to the verification.
    Transfer,
    /// Verified, and not asked to apply.
    Verified,
    /// Applying and confirming.
    Applying,
    /// Cancelling.
    Canceling,
    /// Nothing is left to be done.
    Ended,
}

/// A receiver of a BLOB, as its client knows it.
#[derive(Clone, Copy, Debug, PartialEq, Eq)]
pub struct TransferRow {
    /// The receiver's unicast address.
    pub address: u16,
    /// The BLOB status that it was dropped by, or 0.
    pub status: u8,
    /// The per cent of blocks that it holds.
    pub progress: u8,
    /// Silent rounds of the step that it was asked in last.
    pub silent: u8,
    pub dropped: Option<Dropped>,
}

/// How an initiator ended.
#[derive(Clone, Copy, Debug, PartialEq, Eq)]
pub enum InitEnd {
    /// All rows of its distributor are had.
    Done,
    /// The distributor answered this step, 1 to 10, with this status.
    Refused { step: u8, status: u8 },
    /// It didn't answer in five rounds of this step.
    Silent { step: u8 },
}
