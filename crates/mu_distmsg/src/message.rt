use arrayvec::ArrayVec;

/// What a distributor knows of a receiver, as Firmware Distribution Receivers List shows it (MshDFU).
#[derive(Clone, Copy, Debug, Default, PartialEq, Eq)]
pub struct ReceiverRow {
    /// The receiver's unicast address.
    pub address: u16,
    /// An update phase, 0 to 10.
    pub phase: u8,
    /// An update status, 0 to 7.
    pub update_status: u8,
    /// A BLOB status, 0 to 10.
    pub transfer_status: u8,
    /// How much of the image was transferred, in per cent. It is even: a message carries half of it.
    pub progress: u8,
    /// The index of the image on the receiver.
    pub image_index: u8,
}

/// A message of the Firmware Distribution model (MshDFU). What it lends lies in the payload.
#[derive(Drop, Debug, PartialEq)]
pub enum DistMsg<'a> {
    /// Firmware Distribution Receivers Add.
    ReceiversAdd {
        /// Each receiver's unicast address and the index of the image on it, at least one.
        entries: ArrayVec<(u16, u8), 126>,
    },
    /// Firmware Distribution Receivers Delete All.
    ReceiversDeleteAll,
    /// Firmware Distribution Receivers Status.
    ReceiversStatus {
        /// A distribution status, 0 to 13.
        status: u8,
        /// How many receivers there are.
        count: u16,
    },
    /// Firmware Distribution Receivers Get.
    ReceiversGet {
        /// The place of the first receiver that is asked for.
        first: u16,
        /// At most so many entries.
        limit: u16,
    },
    /// Firmware Distribution Receivers List.
    ReceiversList {
        /// How many receivers there are.
        count: u16,
        /// The place of the first entry.
        first: u16,
        /// The receivers, in their order.
        entries: ArrayVec<ReceiverRow, 74>,
    },
    /// Firmware Distribution Capabilities Get.
    CapabilitiesGet,
    /// Firmware Distribution Capabilities Status.
    CapabilitiesStatus {
        /// The greatest number of receivers.
        receivers: u16,
        /// The greatest number of images.
        images: u16,
        /// The greatest size of an image in octets.
        max_size: u32,
        /// The space for images in octets.
        space: u32,
        /// How much of it is left in octets.
        remaining: u32,
        /// 1 where upload by URI is supported, else 0.
        oob: u8,
        /// The names of URI schemes, at most 361 octets.
        schemes: &'a [u8],
    },
    /// Firmware Distribution Get.
    DistributionGet,
    /// Firmware Distribution Start, to a label or to a group.
    DistributionStart {
        /// The index of the application key, 0 to 4095.
        appkey: u16,
        /// The time to live of the distributor's messages.
        ttl: u8,
        /// The timeout base, in steps of 10 seconds.
        base: u16,
        /// The transfer mode, 1 push or 2 pull.
        mode: u8,
        /// The update policy, 0 Verify Only or 1 Verify And Apply.
        policy: u8,
        /// The index of the image.
        image: u16,
        /// A label, which stands for a virtual address.
        label: Option<[u8; 16]>,
        /// A group address, or 0 for none, where there is no label.
        group: Option<u16>,
    },
    /// Firmware Distribution Suspend.
    DistributionSuspend,
    /// Firmware Distribution Cancel.
    DistributionCancel,
    /// Firmware Distribution Apply.
    DistributionApply,
    /// Firmware Distribution Status. The fields after the phase are there exactly where the phase isn't 0.
    DistributionStatus {
        /// A distribution status, 0 to 13.
        status: u8,
        /// A distribution phase, 0 to 7.
        phase: u8,
        /// A virtual or group address, or 0 for none.
        group: Option<u16>,
        /// The index of the application key, 0 to 4095.
        appkey: Option<u16>,
        /// The time to live of the distributor's messages.
        ttl: Option<u8>,
        /// The timeout base, in steps of 10 seconds.
        base: Option<u16>,
        /// The transfer mode, 1 push or 2 pull.
        mode: Option<u8>,
        /// The update policy, 0 Verify Only or 1 Verify And Apply.
        policy: Option<u8>,
        /// The index of the image.
        image: Option<u16>,
    },
    /// Firmware Distribution Upload Get.
    UploadGet,
    /// Firmware Distribution Upload Start.
    UploadStart {
        /// The time to live of the distributor's replies.
        ttl: u8,
        /// The timeout base, in steps of 10 seconds.
        base: u16,
        /// The BLOB ID.
        id: u64,
        /// The size of the image in octets, at least 1.
        size: u32,
        /// The metadata, at most 255 octets.
        metadata: &'a [u8],
        /// The Firmware ID, 2 to 108 octets.
        fwid: &'a [u8],
    },
    /// Firmware Distribution Upload OOB Start.
    UploadStartOob {
        /// The URI, at most 255 octets.
        uri: &'a [u8],
        /// The Firmware ID, 2 to 108 octets.
        fwid: &'a [u8],
    },
    /// Firmware Distribution Upload Cancel.
    UploadCancel,
    /// Firmware Distribution Upload Status. The fields after the phase are there exactly where the phase isn't 0.
    UploadStatus {
        /// A distribution status, 0 to 13.
        status: u8,
        /// An upload phase, 0 to 3.
        phase: u8,
        /// How much was uploaded, in per cent.
        progress: Option<u8>,
        /// 0 of an Upload Start, 1 of an Upload OOB Start.
        kind: Option<u8>,
        /// The Firmware ID, 2 to 108 octets.
        fwid: Option<&'a [u8]>,
    },
    /// Firmware Distribution Firmware Get.
    FirmwareGet {
        /// The Firmware ID, 2 to 108 octets.
        fwid: &'a [u8],
    },
    /// Firmware Distribution Firmware Get By Index.
    FirmwareGetByIndex {
        /// The index of the image.
        index: u16,
    },
    /// Firmware Distribution Firmware Delete.
    FirmwareDelete {
        /// The Firmware ID, 2 to 108 octets.
        fwid: &'a [u8],
    },
    /// Firmware Distribution Firmware Delete All.
    FirmwareDeleteAll,
    /// Firmware Distribution Firmware Status.
    FirmwareStatus {
        /// A distribution status, 0 to 13.
        status: u8,
        /// How many images there are.
        count: u16,
        /// The index of the image.
        index: u16,
        /// The Firmware ID, 2 to 108 octets, or none.
        fwid: Option<&'a [u8]>,
    },
}
