ghost use Rattle.std.specs.Prelude.{◌≡◌, ℕ, List, [], ◌++◌};
ghost use Rattle.sha2.specs.Sha256.{sha256};
ghost use Rattle.mu_image.specs.Digests.{HasTaken};

use sha2::{Digest, Sha256};

/// The SHA-256 of octets that come in pieces. SHA-256 is defined for fewer than 2^61 octets.
#[derive(Drop)]
pub struct Digesting {
    hasher: Sha256,
}

#[tactic(auto, unfolding(crate::specs::Digests::HasTaken))]
impl Digesting {
    /// A digest of nothing yet.
    pub fn new() -> Digesting
        ensures { HasTaken result [] }
    {
        Digesting {
            hasher: Sha256::new(),
        }
    }

    /// Takes one more piece.
    pub fn take(&mut self, piece: &[u8])
        ensures { (octets : List ℕ) → HasTaken self.old octets → HasTaken self.new (octets ++ piece.now) }
    {
        self.hasher.update(piece);
    }

    /// The SHA-256 of the pieces joined.
    pub fn done(self) -> [u8; 32]
        ensures { (octets : List ℕ) → HasTaken self octets → result ≡ sha256 octets }
    {
        self.hasher.finalize()
    }
}
