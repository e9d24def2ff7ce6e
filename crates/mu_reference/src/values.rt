// What a node keeps and what it has while it runs, as plain values.
use crate::slots::Slots;
pub use mu_blob_rows::{PullReport, Session as RowSession};
use mu_image::Meta;
use mu_model_node::{Parameters, Stored};

/// An update that was taken.
#[derive(Drop)]
pub struct Job {
    /// The BLOB ID.
    pub id: u64,
    /// The index of the image.
    pub index: u8,
    pub meta: Meta,
    pub ttl: u8,
    /// The Update Timeout Base.
    pub base: u16,
    pub stored: Stored,
    pub parameters: Option<Parameters>,
    /// A place for each block; none without parameters.
    pub held: Slots,
}

/// The block that comes.
#[derive(Drop)]
pub struct CurrentBlock {
    pub number: u16,
    /// Octets of a chunk.
    pub chunk_size: u16,
    /// A place for each chunk.
    pub chunks: Slots,
}

/// What isn't kept over a power cut.
#[derive(Drop)]
pub struct Session {
    /// All but the block that comes.
    pub rest: RowSession,
    /// The block that comes, if one does.
    pub current: Option<CurrentBlock>,
}

/// A firmware image with its metadata.
#[derive(Drop)]
pub struct Image {
    pub octets: Vec<u8>,
    pub meta: Meta,
}

/// All of a node.
#[derive(Drop)]
pub struct State {
    /// How many records were written.
    pub count: u32,
    /// Octets of a bank.
    pub capacity: u32,
    /// The active images by index.
    pub images: Vec<Image>,
    pub job: Option<Job>,
    /// Slots after the present record that this run may still use.
    pub fresh: u8,
    pub session: Session,
    /// The greatest moment that it was handed, in milliseconds.
    pub moment: u64,
}
