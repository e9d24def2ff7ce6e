// The messages that a BLOB Transfer Server takes and those that it answers.
use arrayvec::ArrayVec;
use mu_model_node::Parameters;
use mu_report::{NumberSet, Report};

/// A message that a BLOB Transfer Server takes.
#[derive(Drop)]
pub enum BlobRequest<'a> {
    BlobInformationGet,
    TransferGet,
    TransferStart { id: u64, parameters: Parameters },
    TransferCancel { id: u64 },
    BlockStart { block: u16, chunk_size: u16 },
    BlockGet,
    ChunkTransfer { chunk: u16, octets: &'a [u8] },
}

/// What a BLOB Transfer Server answers.
#[derive(Drop)]
pub enum BlobReply {
    BlobInformationStatus {
        /// Octets of a bank.
        capacity: u32,
    },
    TransferStatus {
        status: u8,
        mode: u8,
        phase: u8,
        id: Option<u64>,
        parameters: Option<Parameters>,
        /// The blocks that are missing.
        missing: NumberSet,
    },
    BlockStatus {
        status: u8,
        block: u16,
        chunk_size: u16,
        report: Report,
    },
    PartialBlockReport {
        chunks: ArrayVec<u16, 16>,
    },
}
