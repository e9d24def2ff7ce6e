use arrayvec::ArrayVec;

/// An image of a node, as Firmware Update Information Status lists it (MshDFU).
#[derive(Clone, Copy, Debug, Default, PartialEq, Eq)]
pub struct Entry<'a> {
    /// The Firmware ID, 2 to 108 octets.
    pub id: &'a [u8],
    /// The update's URI, at most 255 octets.
    pub uri: &'a [u8],
}

/// A message of the Firmware Update model (MshDFU). What it lends lies in the payload.
#[derive(Drop, Debug, PartialEq)]
pub enum UpdMsg<'a> {
    /// Firmware Update Information Get.
    InformationGet {
        /// The index of the first image that is asked for.
        first: u8,
        /// At most so many entries.
        limit: u8,
    },
    /// Firmware Update Information Status.
    InformationStatus {
        /// How many images the node has.
        count: u8,
        /// The index of the first entry.
        first: u8,
        /// The images, in their order.
        entries: ArrayVec<Entry<'a>, 94>,
    },
    /// Firmware Update Firmware Metadata Check.
    MetadataCheck {
        /// The index of the image.
        index: u8,
        /// The metadata, at most 255 octets.
        metadata: &'a [u8],
    },
    /// Firmware Update Firmware Metadata Status.
    MetadataStatus {
        /// An update status, 0 to 7.
        status: u8,
        /// Additional information, 0 to 31.
        additional: u8,
        /// The index of the image.
        index: u8,
    },
    /// Firmware Update Get.
    UpdateGet,
    /// Firmware Update Start.
    UpdateStart {
        /// The time to live of the node's replies.
        ttl: u8,
        /// The timeout base, in steps of 10 seconds.
        base: u16,
        /// The BLOB ID.
        id: u64,
        /// The index of the image.
        index: u8,
        /// The metadata, at most 255 octets.
        metadata: &'a [u8],
    },
    /// Firmware Update Cancel.
    UpdateCancel,
    /// Firmware Update Apply.
    UpdateApply,
    /// Firmware Update Status. The fields after the phase are there exactly where the phase isn't 0.
    UpdateStatus {
        /// An update status, 0 to 7.
        status: u8,
        /// An update phase, 0 to 6.
        phase: u8,
        /// The time to live of the node's replies.
        ttl: Option<u8>,
        /// Additional information, 0 to 31.
        additional: Option<u8>,
        /// The timeout base, in steps of 10 seconds.
        base: Option<u16>,
        /// The BLOB ID.
        id: Option<u64>,
        /// The index of the image.
        index: Option<u8>,
    },
}
