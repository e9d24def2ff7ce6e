// What is sent.
ghost use Rattle.std.specs.Prelude.{◌≡◌, IfSome};
ghost use Rattle.mu_model_client.specs.declared.Sending.{Sending};
ghost use Rattle.mu_model_client.specs.Client.{Purpose, Receiver};
ghost use Rattle.mu_receivers.specs.Messages.{list_message};
ghost use Rattle.mu_rounds.specs.Sents.{said_of, SaysOctets};

use arrayvec::ArrayVec;
use mu_model_client::Step;

/// A message to a receiver, or to the group. What it needs of the plan isn't in it.
#[derive(Drop)]
pub enum Said {
    /// Firmware Update Firmware Metadata Check of an image.
    MetadataCheck {
        index: u8,
    },
    /// Firmware Update Start of an image.
    UpdateStart {
        index: u8,
    },
    BlobInformationGet,
    /// BLOB Transfer Start.
    TransferStart,
    BlockStart {
        block: u16,
    },
    ChunkTransfer {
        chunk: u16,
        /// Its octets, at least 1.
        octets: ArrayVec<u8, 376>,
    },
    BlockGet,
    /// Firmware Update Get.
    UpdateGet,
    /// Firmware Update Apply.
    UpdateApply,
    /// Firmware Update Information Get of an image.
    InformationGet {
        index: u8,
    },
    /// Firmware Update Cancel.
    UpdateCancel,
}

/// A message with its destination.
#[derive(Drop)]
pub struct Sent {
    pub to: u16,
    pub said: Said,
}

impl Default for Sent {
    fn default() -> Sent {
        Sent {
            to: 0,
            said: Said::BlobInformationGet,
        }
    }
}

/// The message that the list of a step has for a receiver of the image with this index.
pub(crate) fn message_of(step: Step, index: u8) -> Option<Said>
    ensures says { (p : Sending) (purpose : Purpose) (r : Receiver) → r.row.index ≡ index → said_of p purpose result ≡ list_message p purpose step r }
    ensures octets { IfSome result SaysOctets }
{
    match step {
        Step::Check => Some(Said::MetadataCheck { index }),
        Step::Start => Some(Said::UpdateStart { index }),
        Step::Information => Some(Said::BlobInformationGet),
        Step::Transfer => Some(Said::TransferStart),
        Step::Block(block) => Some(Said::BlockStart { block }),
        Step::Chunks(_) => None,
        Step::Pull(_) | Step::Get(_) => Some(Said::BlockGet),
        Step::Verify => Some(Said::UpdateGet),
        Step::Apply => Some(Said::UpdateApply),
        Step::Confirm => Some(Said::InformationGet { index }),
        Step::Cancel => Some(Said::UpdateCancel),
    }
}
