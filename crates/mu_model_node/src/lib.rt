//! What a node is and does (MshDFU, Firmware Update Server; MshMBT, BLOB Transfer Server; in this profile).
#![tactic(auto)]

pub mod laws;

/// Where a node stands in the mesh.
#[derive(Clone, Copy, Debug, PartialEq, Eq)]
pub struct NodeConfig {
    /// Its unicast address.
    pub address: u16,
    /// Its group, C000..FFFF, or 0 for none.
    pub group: u16,
}

/// The parameters of a transfer (MshMBT, BLOB Transfer Start).
#[derive(Clone, Copy, Debug, PartialEq, Eq)]
pub struct Parameters {
    /// The Transfer Mode: 1 push or 2 pull.
    pub mode: u8,
    /// Octets of the BLOB.
    pub size: u32,
    /// The Block Size Log.
    pub log: u8,
    /// The client's MTU Size.
    pub mtu: u16,
}

/// The link of a BLOB server to a client (this profile).
#[derive(Clone, Copy, Debug, PartialEq, Eq)]
pub enum Link {
    /// There is none.
    Cut,
    /// A transfer may start.
    Ready,
    /// A transfer is under way.
    Running,
}

/// The block that a BLOB server completed or was asked for last.
#[derive(Clone, Copy, Debug, PartialEq, Eq)]
pub struct LastBlock {
    pub number: u16,
    /// Octets of a chunk.
    pub chunk_size: u16,
}

/// How far an update is, as its record says.
#[derive(Clone, Copy, Debug, PartialEq, Eq)]
pub enum Stored {
    /// Blocks come, or all are there.
    Filling,
    /// The new image is whole.
    Verified,
    /// What came isn't the image that was offered.
    Refused,
    /// An Update Apply has reached the new image.
    Applied,
}

/// What an event does to the flash.
#[derive(Clone, Copy, Debug, PartialEq, Eq)]
pub enum FlashWork {
    /// Nothing.
    Untouched,
    /// A record is written: a short one is a slot of a control page, a long one a whole control page.
    Recorded { is_long: bool },
    /// A bank is begun: its mark page is erased, then a record is written.
    Begun { is_long: bool },
    /// A block is put: its pages are erased and programmed, then its mark is set.
    PutBlock { pages: usize },
}
