// What the rows look at of a server, and the phase of its transfer.
ghost use Rattle.std.specs.Prelude.{◌≡◌};
ghost use Rattle.mu_model_node.specs.Slots.{Slots};
ghost use Rattle.mu_model_node.specs.BlobServer.{blob_number, server_phase, serving_phase};
ghost use Rattle.mu_blob_rows.specs.Looks.{serving_with, session_with, phase_with, server_with, TransferPhaseOf, PhaseOf};

use crate::session::Session;
use mu_model_node::{Link, Parameters};

/// A transfer, its blocks apart.
#[derive(Clone, Copy)]
pub struct TransferLook {
    /// The BLOB ID.
    pub id: u64,
    /// Octets that are expected.
    pub size: u32,
    /// The Timeout Base.
    pub base: u16,
    /// None before its first Transfer Start.
    pub parameters: Option<Parameters>,
}

/// What the owner of a server says of its job.
#[derive(Clone, Copy)]
pub enum Serving {
    NoJob,
    /// Blocks are missing.
    Lacking(TransferLook),
    /// All blocks are held.
    Whole(TransferLook),
}

/// The block that comes, its chunks apart.
#[derive(Clone, Copy)]
pub struct BlockLook {
    pub number: u16,
    /// Octets of a chunk.
    pub chunk_size: u16,
}

/// The phase of a transfer (MshMBT, Transfer Phase).
#[derive(Clone, Copy)]
pub enum BlobPhase {
    Inactive,
    WaitingForStart(TransferLook),
    NextBlock(TransferLook, Parameters),
    NextChunk(TransferLook, Parameters, BlockLook),
    Complete(TransferLook),
    Suspended(TransferLook, Parameters),
}

/// A server as its rows look at it.
#[derive(Clone, Copy)]
pub struct Look<'a> {
    /// Octets of a bank.
    pub capacity: u32,
    pub serving: Serving,
    pub session: &'a Session,
    /// The block that comes, if one does.
    pub current: Option<BlockLook>,
    /// The present moment, in milliseconds.
    pub now: u64,
}

fn transferring(transfer: TransferLook, link: Link, current: Option<BlockLook>) -> BlobPhase
    ensures found { TransferPhaseOf transfer link current result }
    ensures phase { (session : Session) (held chunks : Slots) → session.link ≡ link → phase_with result held chunks ≡ serving_phase (session_with session current chunks) (serving_with (Serving.Lacking transfer) held) }
{
    match (transfer.parameters, link) {
        (None, Link::Cut) => BlobPhase::Inactive,
        (None, _) => BlobPhase::WaitingForStart(transfer),
        (Some(parameters), Link::Running) => match current {
            None => BlobPhase::NextBlock(transfer, parameters),
            Some(block) => BlobPhase::NextChunk(transfer, parameters, block),
        },
        (Some(parameters), _) => BlobPhase::Suspended(transfer, parameters),
    }
}

impl<'a> Look<'a> {
    /// The phase of the transfer.
    pub fn phase(self) -> BlobPhase
        ensures found { PhaseOf self.entry result }
        ensures phase { (held chunks : Slots) → phase_with result held chunks ≡ server_phase (server_with self.entry held chunks) }
    {
        match self.serving {
            Serving::NoJob => BlobPhase::Inactive,
            Serving::Lacking(transfer) => transferring(transfer, self.session.link, self.current),
            Serving::Whole(transfer) => BlobPhase::Complete(transfer),
        }
    }
}

impl BlobPhase {
    /// The phase as it stands on the wire, 0 to 5.
    pub fn number(self) -> u8
        ensures { (held chunks : Slots) → result ≡ blob_number (phase_with self held chunks) }
    {
        match self {
            BlobPhase::Inactive => 0,
            BlobPhase::WaitingForStart(_) => 1,
            BlobPhase::NextBlock(..) => 2,
            BlobPhase::NextChunk(..) => 3,
            BlobPhase::Complete(_) => 4,
            BlobPhase::Suspended(..) => 5,
        }
    }
}
