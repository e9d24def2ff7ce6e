//! Laws of the definitions: functions that do nothing, whose contracts are proved.

ghost use Rattle.mu_model_mesh_images.specs.Laws.{NewImagesAreOffered, OffersAreOfImages};

use mu_model_client_laws::laws::plans_stay;
use mu_model_distributor_laws::laws::runs_are_in_order;
use mu_model_image::laws::{images, metadata};
use mu_model_mesh_safety::laws::{every_world_is_of_runs, every_world_is_safe};
use mu_model_offers::laws::starts_are_of_images;
use mu_model_packets::laws::nodes_send_fit;
use mu_model_updater::laws::starts_are_offered;

/// In each run of each script: an Update Start under a member's BLOB ID offers an image that this member has or had. So each active image
/// of a node is its first one, or such an image of the member under whose BLOB ID it came, where no two different images of the run have
/// one digest.
pub fn offers_are_images()
    ensures offers { OffersAreOfImages }
    ensures images { NewImagesAreOffered }
{
    every_world_is_of_runs();
    every_world_is_safe();
    runs_are_in_order();
    starts_are_of_images();
    starts_are_offered();
    nodes_send_fit();
    plans_stay();
    metadata();
    images();
}
