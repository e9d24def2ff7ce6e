// The octets of what a Firmware Update Server answers.
ghost use Rattle.std.specs.Prelude.{◌≡◌, ◌≤◌, length, map, [], ◌∷◌};
ghost use Rattle.mu_model_node.specs.UpdateMessages.{InformationStatus, MetadataStatus, UpdateStatus};
ghost use Rattle.mu_model_node.specs.NodeMessages.{ByUpdate, reply_octets};
ghost use Rattle.mu_update_rows.specs.Looks.{there};
ghost use Rattle.mu_update_rows.specs.Messages.{update_reply_of, shown_job_of};
ghost use Rattle.mu_update_rows.specs.Fits.{AreIds, ShowsJob, UpdateReplyFits};

use arrayvec::ArrayVec;
use mu_codec::Payload;
use mu_image::Fwid;
use mu_update_rows::{ShownJob, UpdateAnswer, UpdateReply};
use mu_updmsg::{Entry, UpdMsg, write};

fn no_entry(count: u8, first: u8) -> Payload
    ensures { result.items ≡ reply_octets (ByUpdate (InformationStatus count first [])) }
{
    write(&UpdMsg::InformationStatus {
        count,
        first,
        entries: ArrayVec::new(),
    })
}

fn one_entry(count: u8, first: u8, id: &[u8]) -> Payload
    requires least { 2 ≤ length id.now }
    requires most { length id.now ≤ 108 }
    ensures { result.items ≡ reply_octets (ByUpdate (InformationStatus count first (id.now ∷ []))) }
{
    let mut entries = ArrayVec::new();
    entries.push(Entry { id, uri: &[] });
    write(&UpdMsg::InformationStatus {
        count,
        first,
        entries,
    })
}

fn two_entries(count: u8, first: u8, id: &[u8], second: &[u8]) -> Payload
    requires least { 2 ≤ length id.now }
    requires most { length id.now ≤ 108 }
    requires second_least { 2 ≤ length second.now }
    requires second_most { length second.now ≤ 108 }
    ensures { result.items ≡ reply_octets (ByUpdate (InformationStatus count first (id.now ∷ second.now ∷ []))) }
{
    let mut entries = ArrayVec::new();
    entries.push(Entry { id, uri: &[] });
    entries.push(Entry {
        id: second,
        uri: &[],
    });
    write(&UpdMsg::InformationStatus {
        count,
        first,
        entries,
    })
}

fn information(count: u8, first: u8, ids: &[Fwid]) -> Payload
    requires few { length ids.now ≤ 2 }
    requires are { AreIds (map (λ id. id.items) ids.now) }
    ensures { result.items ≡ reply_octets (ByUpdate (InformationStatus count first (map (λ id. id.items) ids.now))) }
{
    match ids {
        [] => no_entry(count, first),
        [id] => one_entry(count, first, id.as_slice()),
        [id, second] => two_entries(count, first, id.as_slice(), second.as_slice()),
        _ => {
            prove!(false);
            Payload::new()
        }
    }
}

fn metadata(status: u8, index: u8) -> Payload
    requires { status ≤ 7 }
    ensures { result.items ≡ reply_octets (ByUpdate (MetadataStatus status index)) }
{
    write(&UpdMsg::MetadataStatus {
        status,
        additional: 0,
        index,
    })
}

fn update(status: u8, phase: u8, job: Option<ShownJob>) -> Payload
    requires status { status ≤ 7 }
    requires shows { ShowsJob phase job }
    ensures { result.items ≡ reply_octets (ByUpdate (UpdateStatus status phase (there shown_job_of job))) }
{
    match job {
        None => write(&UpdMsg::UpdateStatus {
            status,
            phase,
            ttl: None,
            additional: None,
            base: None,
            id: None,
            index: None,
        }),
        Some(job) => write(&UpdMsg::UpdateStatus {
            status,
            phase,
            ttl: Some(job.ttl),
            additional: Some(0),
            base: Some(job.base),
            id: Some(job.id),
            index: Some(job.index),
        }),
    }
}

// The octets of a reply whose fields are in their ranges.
fn update_octets(reply: UpdateReply) -> Payload
    requires { UpdateReplyFits reply }
    ensures { result.items ≡ reply_octets (ByUpdate (update_reply_of reply)) }
{
    match reply {
        UpdateReply::InformationStatus { count, first, ids } => {
            information(count, first, ids.as_slice())
        }
        UpdateReply::MetadataStatus { status, index } => metadata(status, index),
        UpdateReply::UpdateStatus { status, phase, job } => update(status, phase, job),
    }
}

/// The octets of a reply.
pub fn octets_of(answer: UpdateAnswer) -> Payload
    ensures { result.items ≡ reply_octets (ByUpdate answer) }
{
    update_octets(answer.into_reply())
}
