//! The octets of a tag: the BLOB part, and the note of a node.
#![tactic(auto)]

mod blob;
mod node;
mod zero;

pub use blob::{BlobJob, blob_part_of, note_of, tag_of};
pub use mu_model_record::Tag;
pub use node::{Active, NodeNote, NoteJob, node_note_from, node_note_octets, old_node_note_octets};
use thiserror::Error;

/// The octets of a tag past its BLOB part.
pub type Note = [u8; 1728];

/// Octets that aren't what they are read as.
#[derive(Clone, Copy, Debug, PartialEq, Eq, Error)]
#[error("octets of another kind")]
pub struct Foreign;
