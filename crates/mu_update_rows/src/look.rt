// What the rows look at.
ghost use Rattle.std.specs.Prelude.{◌≡◌, length, slice_get};
ghost use Rattle.mu_update_rows.specs.Looks.{one_or_two};

use mu_image::Meta;
use mu_model_node::{Link, Stored};

/// The metadata of the active images: one or two.
#[derive(Clone, Copy)]
pub struct ActiveMetas {
    /// Of index 0.
    pub first: Meta,
    /// Of index 1, where there is such an image.
    pub second: Option<Meta>,
}

impl ActiveMetas {
    /// How many active images there are: 1 or 2.
    pub fn count(&self) -> u8
        ensures { result ≡ length (one_or_two self.now) }
    {
        match self.second {
            None => 1,
            Some(_) => 2,
        }
    }

    /// The metadata of the active image of an index, where there is one.
    #[tactic(auto, using(crate::proofs::Places::third_is_none))]
    pub fn get(&self, index: u8) -> Option<Meta>
        ensures { result ≡ slice_get (one_or_two self.now) index }
    {
        match index {
            0 => Some(self.first),
            1 => self.second,
            _ => None,
        }
    }
}

/// What the rows look at of an update that was taken.
#[derive(Clone, Copy)]
pub struct JobLook {
    /// The BLOB ID.
    pub id: u64,
    /// The index of the image.
    pub index: u8,
    pub meta: Meta,
    pub ttl: u8,
    /// The Update Timeout Base.
    pub base: u16,
    pub stored: Stored,
    /// Whether its transfer has parameters and all blocks are held.
    pub is_whole: bool,
}

/// What the rows look at of a node.
#[derive(Clone, Copy)]
pub struct NodeLook {
    /// Octets of a bank.
    pub capacity: u32,
    pub active: ActiveMetas,
    pub job: Option<JobLook>,
    /// The link of its BLOB server.
    pub link: Link,
}
