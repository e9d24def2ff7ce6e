// A node: its BLOB server, its note, and its last moment.
ghost use Rattle.mu_node.specs.Rules.{HasItsNote, note_prop};

use mu_blobsrv::BlobServer;
use mu_model_node::NodeConfig;
use mu_note::NodeNote;
use mu_outside::Flash;

/// A node over a flash that it owns. A fault is kept: each call that can answer one answers it from then on, and the way on from there is
/// `into_flash` and a boot. The value is about 20 KB.
#[derive(Drop)]
pub struct Node<F: Flash> {
    pub(crate) server: BlobServer<F>,
    pub(crate) config: NodeConfig,
    // What the note of the present record says.
    pub(crate) note: NodeNote,
    // The greatest moment that it was handed, in milliseconds.
    pub(crate) moment: u64,
    ghost its_note: { HasItsNote server note } by { note_prop server note },
}

impl<F: Flash> Node<F> {
    ghost use Rattle.std.specs.Prelude.{◌≡◌};
    ghost use Rattle.mu_node.specs.Views.{flash_of};

    /// The flash that it owns.
    pub fn flash(&self) -> &F
        ensures { result.now ≡ flash_of self.now }
    {
        self.server.flash()
    }

    /// The flash that it owned.
    pub fn into_flash(self) -> F
        ensures { result ≡ flash_of self }
    {
        self.server.into_flash()
    }
}
