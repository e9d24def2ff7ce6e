use arrayvec::ArrayVec;
use mu_report::Report;

/// A message of the BLOB Transfer model (MshMBT). What it lends lies in the payload.
#[derive(Drop, Debug, PartialEq)]
pub enum BlobMsg<'a> {
    /// BLOB Transfer Get.
    TransferGet,
    /// BLOB Transfer Start.
    TransferStart {
        /// The transfer mode, 1 push or 2 pull.
        mode: u8,
        /// The BLOB ID.
        id: u64,
        /// The size of the BLOB in octets, at least 1.
        size: u32,
        /// The size of a block as a power of 2, 6 to 32.
        log: u8,
        /// The greatest number of octets of a message, at least 20.
        mtu: u16,
    },
    /// BLOB Transfer Cancel.
    TransferCancel {
        /// The BLOB ID.
        id: u64,
    },
    /// BLOB Transfer Status. The BLOB ID is there exactly where the phase isn't 0, and what follows it exactly where
    /// the phase is neither 0 nor 1.
    TransferStatus {
        /// A BLOB status, 0 to 10.
        status: u8,
        /// The transfer mode, 0 none, 1 push or 2 pull.
        mode: u8,
        /// A BLOB phase, 0 to 5.
        phase: u8,
        /// The BLOB ID.
        id: Option<u64>,
        /// The size of the BLOB in octets, at least 1.
        size: Option<u32>,
        /// The size of a block as a power of 2, 6 to 32.
        log: Option<u8>,
        /// The greatest number of octets of a message, at least 20.
        mtu: Option<u16>,
        /// The bit field of the blocks that aren't received, at most 361 octets.
        blocks: Option<&'a [u8]>,
    },
    /// BLOB Block Start.
    BlockStart {
        /// The number of the block.
        block: u16,
        /// The size of a chunk in octets.
        chunk_size: u16,
    },
    /// BLOB Block Get.
    BlockGet,
    /// BLOB Information Get.
    BlobInformationGet,
    /// BLOB Information Status.
    BlobInformationStatus {
        /// The least size of a block as a power of 2, 6 to 32.
        min_log: u8,
        /// The greatest size of a block as a power of 2, 6 to 32.
        max_log: u8,
        /// The greatest number of chunks of a block.
        max_chunks: u16,
        /// The greatest size of a chunk in octets.
        max_chunk_size: u16,
        /// The greatest size of a BLOB in octets.
        max_size: u32,
        /// The greatest number of octets of a message.
        mtu: u16,
        /// 1 where push is supported, else 0.
        push: u8,
        /// 1 where pull is supported, else 0.
        pull: u8,
    },
    /// BLOB Chunk Transfer.
    ChunkTransfer {
        /// The number of the chunk.
        chunk: u16,
        /// Its octets, 1 to 377.
        octets: &'a [u8],
    },
    /// BLOB Block Status.
    BlockStatus {
        /// A BLOB status, 0 to 10.
        status: u8,
        /// The number of the block.
        block: u16,
        /// The size of a chunk in octets.
        chunk_size: u16,
        /// The chunks that are missing.
        report: Report,
    },
    /// BLOB Partial Block Report.
    PartialBlockReport {
        /// The numbers of chunks that are missing.
        missing: ArrayVec<u16, 379>,
    },
}
