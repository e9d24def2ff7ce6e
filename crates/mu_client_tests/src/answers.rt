// What receivers answer here, and what is sent to them.
use arrayvec::ArrayVec;
use mu_blobmsg::BlobMsg;
use mu_image::Meta;
use mu_model_client::{Plan, Sending};
use mu_report::Report;
use mu_updmsg::UpdMsg;

pub(crate) const FIRST: u16 = 0x0101;

pub(crate) const SECOND: u16 = 0x0102;

pub(crate) const GROUP: u16 = 0xC001;

/// Milliseconds of a round of what is sent here.
pub(crate) const ROUND: u64 = 6100;

/// One block of 16 chunks.
pub(crate) const SENDING: Sending = Sending {
    from: 1,
    id: 7,
    size: 4096,
    log: 12,
    chunk: 256,
    mode: 1,
    group: 0,
    ttl: 5,
    base: 1,
};

pub(crate) const META: Meta = Meta {
    size: 4096,
    version: 2,
    digest: [9; 32],
};

pub(crate) const PLAN: Plan = Plan {
    sending: SENDING,
    meta: META,
    apply: true,
};

/// A packet: its destination, the low octet of its message's opcode, and the number of its block or chunk.
pub(crate) type Shown = (u16, u8, u16);

pub(crate) fn shown(to: u16, payload: &[u8]) -> Shown {
    match payload {
        [0x83, 0x04, low, high, ..] => (to, 0x04, u16::from_le_bytes([*low, *high])),
        [0x83, low, ..] => (to, *low, 0),
        [0x66, low, high, ..] => (to, 0x66, u16::from_le_bytes([*low, *high])),
        [first, ..] => (to, *first, 0),
        [] => (to, 0, 0),
    }
}

/// A BLOB Information Status of a server that takes what is sent here, but for these.
pub(crate) fn information(
    max_size: u32,
    max_log: u8,
    max_chunks: u16,
    mtu: u16,
    push: u8,
) -> BlobMsg<'static> {
    BlobMsg::BlobInformationStatus {
        min_log: 6,
        max_log,
        max_chunks,
        max_chunk_size: 376,
        max_size,
        mtu,
        push,
        pull: 1,
    }
}

/// The Transfer Status of a server that misses all of one block.
pub(crate) fn transfer_status(status: u8, size: u32, log: u8) -> BlobMsg<'static> {
    BlobMsg::TransferStatus {
        status,
        mode: 1,
        phase: 2,
        id: Some(7),
        size: Some(size),
        log: Some(log),
        mtu: Some(380),
        blocks: Some(&[1]),
    }
}

/// A report of these missing chunks.
pub(crate) fn listed(numbers: &[u16]) -> Report {
    let mut list = ArrayVec::new();
    for number in numbers {
        if !list.is_full() {
            list.push(*number);
        }
    }
    if list.is_empty() {
        Report::Nothing
    } else {
        Report::List(list)
    }
}

/// A Block Status of block 0.
pub(crate) fn block_status(status: u8, chunk_size: u16, report: Report) -> BlobMsg<'static> {
    BlobMsg::BlockStatus {
        status,
        block: 0,
        chunk_size,
        report,
    }
}

/// A Partial Block Report of these chunks.
pub(crate) fn part(numbers: &[u16]) -> BlobMsg<'static> {
    let mut missing = ArrayVec::new();
    for number in numbers {
        if !missing.is_full() {
            missing.push(*number);
        }
    }
    BlobMsg::PartialBlockReport { missing }
}

/// An Update Status of an update by the transfer `id`.
pub(crate) fn update_status(status: u8, phase: u8, id: u64) -> UpdMsg<'static> {
    UpdMsg::UpdateStatus {
        status,
        phase,
        ttl: Some(5),
        additional: Some(0),
        base: Some(1),
        id: Some(id),
        index: Some(0),
    }
}
