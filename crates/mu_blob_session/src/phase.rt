// The phase of the transfer.
ghost use Rattle.std.specs.Prelude.{◌≡◌, ℕ};
ghost use Rattle.mu_model_node.specs.Slots.{Slots};
ghost use Rattle.mu_model_node.specs.BlobServer.{blob_number, server_phase};
ghost use Rattle.mu_block.specs.Coming.{chunks_of};
ghost use Rattle.mu_blob_rows.specs.Looks.{phase_with};

use crate::session::{BlobSession, Kept};
use mu_blob_rows::BlobPhase;

impl BlobSession {
    ghost use Rattle.mu_blob_session.specs.Sessions.{coming_in, server_in};

    /// The phase of the transfer, with what it has.
    pub fn phase(&self, kept: Kept) -> BlobPhase
        ensures { (held : Slots) (now : ℕ) → phase_with result held (chunks_of (coming_in self.now)) ≡ server_phase (server_in self.now kept held now) }
    {
        self.look(kept, 0).phase()
    }

    /// The phase as it stands on the wire, 0 to 5.
    pub fn phase_number(&self, kept: Kept) -> u8
        ensures { (held : Slots) (now : ℕ) → result ≡ blob_number (server_phase (server_in self.now kept held now)) }
    {
        self.phase(kept).number()
    }
}
