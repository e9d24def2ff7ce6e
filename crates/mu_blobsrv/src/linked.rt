// The link of a server.
ghost use Rattle.std.specs.Prelude.{◌≡◌, None};
ghost use Rattle.mu_blobsrv.specs.Views.{fault_of, session_of};

use crate::server::BlobServer;
use mu_model_node::Link;
use mu_outside::Flash;

impl<F: Flash> BlobServer<F> {
    /// The link to a client (this profile). No fault is kept.
    pub fn link(&self) -> Link
        requires { fault_of self.now ≡ None }
        ensures { result ≡ (session_of self.now).link }
    {
        let look = self.session.look(self.store.kept(), 0);
        look.session.link
    }
}
