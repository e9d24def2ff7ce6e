// What a script reads of a node.
ghost use Rattle.std.specs.Prelude.{◌≡◌, ◌≤◌, ◌<◌, length, map, slice_get, Some};
ghost use Rattle.mu_model_node.specs.NodeState.{update_phase, update_number, blob_phase};
ghost use Rattle.mu_model_node.specs.BlobServer.{blob_number};
ghost use Rattle.mu_reference_node.specs.Readings.{filling_count};

use crate::node::Node;
use mu_image::Meta;
use mu_model_node::Stored;

impl Node {
    /// How many active images it has: 1 or 2.
    pub fn images(&self) -> u8
        ensures images { result ≡ length self.now.durable.images }
        ensures least { 1 ≤ result }
        ensures most { result ≤ 2 }
    {
        self.state.images.len() as u8
    }

    /// The metadata of the active image of an index.
    pub fn active(&self, index: u8) -> Meta
        requires { index < length self.now.durable.images }
        ensures { slice_get (map (λ image. image.meta) self.now.durable.images) index ≡ Some result }
    {
        self.state.images[usize::from(index)].meta
    }

    /// The update phase, as a Firmware Update Status has it.
    pub fn phase(&self) -> u8
        ensures { result ≡ update_number (update_phase self.now) }
    {
        self.state.phase_number()
    }

    /// The BLOB phase, as a BLOB Transfer Status has it.
    pub fn blob_phase(&self) -> u8
        ensures { result ≡ blob_number (blob_phase self.now) }
    {
        self.state.blob_phase_number()
    }

    /// How many records were written.
    pub fn count(&self) -> u32
        ensures { result ≡ self.now.durable.count }
    {
        self.state.count
    }

    /// How many blocks of a bank in filling are held: 0 where none is in filling.
    pub fn held_count(&self) -> u16
        ensures { result ≡ filling_count self.now.durable.job }
    {
        match &self.state.job {
            Some(job) if job.stored == Stored::Filling => job.held.held() as u16,
            _ => 0,
        }
    }
}
