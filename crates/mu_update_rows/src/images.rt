// What a node tells of its images.
ghost use Rattle.std.specs.Prelude.{◌≡◌, length, map, take, drop};
ghost use Rattle.mu_model_image.specs.Meta.{firmware_id, own_company};
ghost use Rattle.mu_model_node.specs.UpdateMessages.{InformationStatus};
ghost use Rattle.mu_model_node.specs.NodeState.{NodeState};
ghost use Rattle.mu_update_rows.specs.Looks.{LooksAs, one_or_two};
ghost use Rattle.mu_update_rows.specs.Decided.{is_shown, ids_seen};
ghost use Rattle.mu_update_rows.specs.Fits.{AreIds};

use crate::answer::UpdateAnswer;
use crate::look::{ActiveMetas, NodeLook};
use crate::messages::UpdateReply;
use arrayvec::ArrayVec;
use mu_image::{Fwid, fwid_of};

fn is_shown(index: u8, first: u8, limit: u8) -> bool
    ensures { result ≡ is_shown index first limit }
{
    first <= index && index - first < limit
}

fn ids(active: &ActiveMetas, first: u8, limit: u8) -> ArrayVec<Fwid, 2>
    ensures are { AreIds (map (λ id. id.items) result.items) }
    ensures ids { map (λ id. id.items) result.items ≡ ids_seen active.now first limit }
{
    let mut ids = ArrayVec::new();
    if is_shown(0, first, limit) {
        ids.push(fwid_of(0xFFFF, &active.first));
    }
    if let Some(second) = &active.second {
        if is_shown(1, first, limit) {
            ids.push(fwid_of(0xFFFF, second));
        }
    }
    ids
}

/// The Firmware Update Information Status: how many images there are, and the Firmware IDs of the active ones from index `first` on,
/// at most `limit` of them.
#[tactic(auto, using(crate::proofs::Ids::ids_are, crate::proofs::Ids::count_is))]
pub fn information(look: &NodeLook, first: u8, limit: u8) -> UpdateAnswer
    ensures { (s : NodeState) → LooksAs look.now s → result ≡ InformationStatus (length s.durable.images) first (take limit (drop first (map (λ image. firmware_id own_company image.meta) s.durable.images))) }
{
    UpdateAnswer::new(UpdateReply::InformationStatus {
        count: look.active.count(),
        first,
        ids: ids(&look.active, first, limit),
    })
}
