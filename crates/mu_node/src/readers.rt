// What a node tells.
ghost use Rattle.std.specs.Prelude.{◌≡◌, ◌<◌, ◌≤◌, length, map, slice_get, Some, None};
ghost use Rattle.mu_model_node.specs.NodeState.{NodeState, update_phase, update_number, blob_phase};
ghost use Rattle.mu_model_node.specs.BlobServer.{blob_number};
ghost use Rattle.mu_node.specs.Readings.{filling_count};
ghost use Rattle.mu_update_rows.specs.Looks.{there, look_at};
ghost use Rattle.mu_store.specs.declared.faults.StoreFault.{StoreFault};
ghost use Rattle.mu_place.specs.Place.{place_record};
ghost use Rattle.mu_note.specs.Views.{active_banks};
ghost use Rattle.mu_node.specs.Views.{fault_in, place_in, note_in, Shows};

use crate::judging::bank_of;
use crate::node::Node;
use mu_blobsrv::StoreFault;
use mu_image::Meta;
use mu_model_serving::laws::nodes_serve_by_their_blocks;
use mu_model_shown_node::laws::memory_is_looked_at;
use mu_note::Active;
use mu_outside::Flash;
use mu_update_rows::{JobLook, phase_of};

impl<F: Flash> Node<F> {
    /// The fault that is kept.
    pub fn fault(&self) -> Option<StoreFault>
        ensures { result ≡ fault_in self.now }
    {
        self.server.fault()
    }

    /// How many images there are: 1 or 2. No fault is kept.
    pub fn images(&self) -> u8
        requires { fault_in self.now ≡ None }
        ensures banks { result ≡ length (active_banks (note_in self.now).active) }
        ensures images { (n : NodeState) → Shows self.now n → result ≡ length n.durable.images }
    {
        match self.note.active {
            Active::One(_) => 1,
            Active::Two(_, _) => 2,
        }
    }

    /// The metadata of the active image of an index, which is below `images()`. No fault is kept.
    pub fn active(&self, index: u8) -> Meta
        requires fault { fault_in self.now ≡ None }
        requires there { index < length (active_banks (note_in self.now).active) }
        ensures { (n : NodeState) → Shows self.now n → slice_get (map (λ image. image.meta) n.durable.images) index ≡ Some result }
    {
        let Some(bank) = bank_of(self.note.active, index) else {
            unreachable!()
        };
        self.meta_of(bank)
    }

    /// The update phase as it stands on the wire, 0 to 6 (MshDFU, Update Phase). No fault is kept.
    pub fn phase(&self) -> u8
        requires { fault_in self.now ≡ None }
        ensures { (n : NodeState) → Shows self.now n → result ≡ update_number (update_phase n) }
    {
        phase_of(&self.look()).number()
    }

    /// The BLOB phase as it stands on the wire, 0 to 5 (MshMBT, Transfer Phase). No fault is kept.
    pub fn blob_phase(&self) -> u8
        requires { fault_in self.now ≡ None }
        ensures { (n : NodeState) → Shows self.now n → result ≡ blob_number (blob_phase n) }
    {
        nodes_serve_by_their_blocks();
        memory_is_looked_at();
        self.known();
        self.server.phase()
    }

    /// The count of the present record. No fault is kept.
    pub fn count(&self) -> u32
        requires { fault_in self.now ≡ None }
        ensures { (n : NodeState) → Shows self.now n → result ≡ n.durable.count }
    {
        self.server.count()
    }

    /// How many blocks of the bank that is being filled are held; 0 where none is being filled. No fault is kept.
    pub fn held_count(&self) -> u16
        requires { fault_in self.now ≡ None }
        ensures { (n : NodeState) → Shows self.now n → result ≡ filling_count n.durable.job }
    {
        self.known();
        if self.server.fills() {
            self.server.held_count()
        } else {
            0
        }
    }

    /// The update that was taken, if there is one. No fault is kept.
    pub fn job(&self) -> Option<JobLook>
        requires { fault_in self.now ≡ None }
        ensures { (n : NodeState) → Shows self.now n → result ≡ there look_at n.durable.job }
    {
        self.look().job
    }
}
