// The messages that a node takes and those that it answers.
pub use mu_blob_answers::{BlobAnswer, BlobReply, BlobRequest};
pub use mu_update_rows::{ShownJob, UpdateAnswer, UpdateReply, UpdateRequest, UpdateStart};

/// A message that a node takes.
#[derive(Drop)]
pub enum Request<'a> {
    Update(UpdateRequest<'a>),
    Blob(BlobRequest<'a>),
}
