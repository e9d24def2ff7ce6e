// What a node tells of its images.
ghost use Rattle.std.specs.Prelude.{ℕ, ◌≡◌, ◌≤◌, ◌+◌, Ok, length, map, take, drop};
ghost use Rattle.mu_model_image.specs.Meta.{firmware_id, own_company};
ghost use Rattle.mu_model_node.specs.UpdateMessages.{InformationGet};
ghost use Rattle.mu_model_node.specs.UpdateTable.{on_update};
ghost use Rattle.mu_model_node.specs.Sound.{IsNodeState};
ghost use Rattle.mu_reference.specs.View.{image_of, state_of};
ghost use Rattle.mu_reference.specs.Words.{ids_of};
ghost use Rattle.mu_reference.specs.UpdateRows.{UpdatedAs};
ghost use Rattle.mu_update_rows.specs.Fits.{AreIds};

use crate::messages::{UpdateAnswer, UpdateReply};
use crate::update_table::Updated;
use crate::values::{Image, State};
use arrayvec::ArrayVec;
use mu_image::{Fwid, fwid_of};
use mu_model_node::FlashWork;

fn id_of(image: &Image) -> Fwid
    ensures { result.items ≡ firmware_id own_company (image_of image.now).meta }
{
    fwid_of(0xFFFF, &image.meta)
}

#[tactic(auto, using(crate::proofs::Ids::one_more, crate::proofs::Ids::none_yet, crate::proofs::Ids::up_to, crate::proofs::Ids::past_end, crate::proofs::Shown::ids_are))]
fn ids(images: &[Image], first: usize, limit: usize) -> ArrayVec<Fwid, 2>
    requires few { length images.now ≤ 2 }
    requires small { first + limit ≤ 1000 }
    ensures are { AreIds (map (λ id. id.items) result.items) }
    ensures ids { map (λ id. id.items) result.items ≡ take limit (drop first (ids_of (map image_of images.now))) }
{
    let last = images.len().min(first + limit);
    let mut ids = ArrayVec::new();
    for index in first..last {
        ids.push(id_of(&images[index]));
    }
    ids
}

impl State {
    /// Firmware Update Information Get.
    pub fn on_information_get(&self, from: u16, first: u8, limit: u8) -> Updated
        requires { IsNodeState (state_of self.now) }
        ensures { UpdatedAs (state_of self.now) from (on_update (state_of self.now) from (InformationGet first limit)) (Ok result) (state_of self.now) }
    {
        let reply = UpdateAnswer::new(UpdateReply::InformationStatus {
            count: self.images.len() as u8,
            first,
            ids: ids(
                self.images.as_slice(),
                usize::from(first),
                usize::from(limit),
            ),
        });
        Updated {
            reply,
            work: FlashWork::Untouched,
        }
    }
}
