// An update of two receivers, brought to a step.
ghost use Rattle.std.specs.Prelude.{◌≡◌, ◌≤◌, length};
ghost use Rattle.mu_told.specs.Told.{IsSendable};
ghost use Rattle.mu_client_messages.specs.Messages.{HasMode};

use crate::answers::{
    FIRST, PLAN, SECOND, Shown, block_status, information, shown, transfer_status, update_status,
};
use arrayvec::ArrayVec;
use mu_blobmsg::{BlobMsg, in_range as blob_in_range};
use mu_codec::Outbox;
use mu_distmsg::ReceiverRow;
use mu_model_client::Sending;
use mu_receivers::SliceImage;
use mu_report::Report;
use mu_updcli::{Dropped, Plan, Stage, UpdateClient};
use mu_updmsg::{UpdMsg, in_range as update_in_range};
use std::process::Abort;

const OCTETS: [u8; 4096] = [5; 4096];

/// A client that sends those octets.
#[derive(Drop)]
pub(crate) struct Update {
    pub(crate) client: UpdateClient,
    ghost sized: { client.sending.size ≡ 4096 },
}

impl Update {
    /// Of two receivers, in push or pull.
    pub(crate) fn new(mode: u8) -> Update {
        let client = UpdateClient::start(plan_of(mode), &[(FIRST, 0), (SECOND, 0)]);
        Update { client }
    }

    /// One that isn't applied unasked.
    pub(crate) fn resumed(rows: &[ReceiverRow], stage: Stage) -> Update
        requires { length rows.now ≤ 128 }
    {
        let plan = Plan {
            apply: false,
            ..PLAN
        };
        let client = UpdateClient::resume(plan, rows, stage);
        Update { client }
    }

    /// What a time event sends.
    pub(crate) fn sent(&mut self, rt: &impl Abort, now: u64) -> ArrayVec<Shown, 32> {
        let octets = OCTETS;
        let mut image = SliceImage::new(&octets);
        let mut out = Outbox::new();
        let result = self.client.on_time(&mut image, now, &mut out);
        assert!(rt; result.is_ok());
        let mut all = ArrayVec::new();
        for packet in out.iter() {
            if !all.is_full() {
                all.push(shown(packet.to, packet.payload.as_slice()));
            }
        }
        all
    }

    /// Cancels a transfer.
    pub(crate) fn cancel(&mut self, rt: &impl Abort) {
        assert!(rt; self.client.stage() == Stage::Transfer);
        self.client.take_cancel();
    }

    pub(crate) fn tell(&mut self, rt: &impl Abort, from: u16, message: &UpdMsg, now: u64) {
        assert!(rt; update_in_range(message));
        self.client.on_upd(from, message, now);
    }

    pub(crate) fn tell_blob(&mut self, rt: &impl Abort, from: u16, message: &BlobMsg, now: u64) {
        assert!(rt; blob_in_range(message));
        self.client.on_blob(from, message, now);
    }

    /// The row of receiver `i`.
    pub(crate) fn row(&self, rt: &impl Abort, i: u8) -> ReceiverRow {
        assert!(rt; i < self.client.count());
        self.client.row(i)
    }

    /// Why receiver `i` was dropped, if it was.
    pub(crate) fn cause(&self, rt: &impl Abort, i: u8) -> Option<Dropped> {
        assert!(rt; i < self.client.count());
        self.client.dropped(i)
    }
}

fn plan_of(mode: u8) -> Plan
    ensures size { result.sending.size ≡ 4096 }
    ensures range { IsSendable result.sending }
    ensures mode { HasMode result.sending }
{
    if mode == 2 {
        Plan {
            sending: Sending {
                mode: 2,
                ..PLAN.sending
            },
            ..PLAN
        }
    } else {
        PLAN
    }
}

/// A receiver answers a step of the client's table with a status; 0 is what the client waits for.
pub(crate) fn answer(
    rt: &impl Abort,
    update: &mut Update,
    from: u16,
    step: u8,
    status: u8,
    now: u64,
) {
    match step {
        1 => {
            let message = UpdMsg::MetadataStatus {
                status,
                additional: 0,
                index: 0,
            };
            update.tell(rt, from, &message, now);
        }
        2 => update.tell(rt, from, &update_status(status, 2, 7), now),
        3 => update.tell_blob(rt, from, &information(4096, 12, 16, 380, 1), now),
        4 => update.tell_blob(rt, from, &transfer_status(status, 4096, 12), now),
        5 => update.tell_blob(rt, from, &block_status(status, 256, Report::All), now),
        6 | 7 => update.tell_blob(rt, from, &block_status(status, 256, Report::Nothing), now),
        8 => update.tell(rt, from, &update_status(status, 4, 7), now),
        _ => update.tell(rt, from, &update_status(status, 6, 7), now),
    }
}

// Both receivers answer a step that is begun at this moment. Chunks in push need no answer.
fn pass(rt: &impl Abort, update: &mut Update, mode: u8, step: u8, now: u64) {
    update.sent(rt, now);
    if step == 6 && mode == 1 {
        update.sent(rt, now);
    } else {
        answer(rt, update, FIRST, step, 0, now);
        answer(rt, update, SECOND, step, 0, now);
    }
}

// Both receivers answer all steps before this one.
fn pass_to(rt: &impl Abort, update: &mut Update, mode: u8, step: u8, now: u64) {
    for before in 1..step {
        pass(rt, update, mode, before, now);
    }
}

/// A client whose receivers answered all steps before this one, which it has begun at this moment. It is cancelling in step 11.
pub(crate) fn at_step(rt: &impl Abort, mode: u8, step: u8, now: u64) -> Update {
    let mut update = Update::new(mode);
    if step == 11 {
        update.cancel(rt);
    } else {
        pass_to(rt, &mut update, mode, step, now);
    }
    update.sent(rt, now);
    update
}
