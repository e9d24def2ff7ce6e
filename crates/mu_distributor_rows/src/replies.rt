// What a Firmware Distribution Server answers.
ghost use Rattle.std.specs.Prelude.{◌≡◌};
ghost use Rattle.mu_distributor_rows.specs.Replies.{dist_reply_of, DistReplyFits};

use arrayvec::ArrayVec;
use mu_distributor_kept::ReceiverRow;
use mu_image::Fwid;
use mu_model_distributor::Settings;
use std::marker::Model;

/// What is shown of an upload.
#[derive(Drop)]
pub struct ShownUpload {
    /// Per cent.
    pub progress: u8,
    pub fwid: Fwid,
}

/// An answer of a Firmware Distribution Server.
#[derive(Drop)]
pub enum DistReply {
    ReceiversStatus {
        status: u8,
        count: u16,
    },
    ReceiversList {
        count: u16,
        first: u16,
        /// Progress is even.
        rows: ArrayVec<ReceiverRow, 74>,
    },
    CapabilitiesStatus {
        /// Octets of a bank.
        capacity: u32,
        /// Octets of all banks that are empty.
        remaining: u32,
    },
    DistributionStatus {
        status: u8,
        phase: u8,
        /// None in phase 0.
        settings: Option<Settings>,
    },
    UploadStatus {
        status: u8,
        phase: u8,
        /// None in phase 0.
        upload: Option<ShownUpload>,
    },
    FirmwareStatus {
        status: u8,
        count: u16,
        index: u16,
        fwid: Option<Fwid>,
    },
}

/// An answer with each field in its range.
#[derive(Drop)]
pub struct DistAnswer {
    reply: DistReply,
}

impl Model for DistAnswer {
    ghost use Rattle.mu_model_distributor.specs.Replies.{DistReply};
    ghost use Rattle.mu_distributor_rows.specs.Replies.{dist_reply_of, DistReplyFits};

    ghost Value = { DistReply };

    ghost view = { λ a. dist_reply_of a.reply };

    ghost invariant = { λ a. DistReplyFits a.reply };
}

impl DistAnswer {
    /// An answer whose fields are in their ranges.
    pub fn new(reply: DistReply) -> DistAnswer
        requires { DistReplyFits reply }
        ensures { result ≡ dist_reply_of reply }
    {
        DistAnswer { reply }
    }

    /// The answer.
    pub fn into_reply(self) -> DistReply
        ensures is { dist_reply_of result ≡ self }
        ensures fits { DistReplyFits result }
    {
        self.reply
    }
}
