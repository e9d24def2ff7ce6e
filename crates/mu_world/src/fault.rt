// Why an event wasn't done.
ghost use Rattle.std.specs.Prelude.{◌≡◌};

use mu_model_script::BadWhy;
use mu_reference_node::Stop;
use std::alloc::{AllocError, AllocFailed};

/// Why a world hasn't done an event.
#[derive(Clone, Copy, Debug, PartialEq, Eq)]
pub enum WorldFault {
    /// Want of memory. The event may be half done.
    Memory,
    /// The event can't be done in this world: the number of the token of its line that shows it, and why.
    Bad { token: u8, why: BadWhy },
    /// The flash of the node at this address has its last record, and the event would write another.
    Worn { address: u16 },
    /// The world has done as many events as it may.
    TooLong,
}

impl WorldFault {
    ghost use Rattle.std.specs.Prelude.{◌≡◌};
    ghost use Rattle.mu_reference.specs.declared.recording.Stop.TheVariants.{NoMemory, Worn as WornOut};
    ghost use Rattle.mu_world.specs.Moved.{fault_of};

    /// That of the node at this address.
    pub(crate) fn at(address: u16, stop: Stop) -> WorldFault
        ensures { result ≡ fault_of address stop }
    {
        match stop {
            Stop::NoMemory => WorldFault::Memory,
            Stop::Worn => WorldFault::Worn { address },
        }
    }
}

impl From<AllocError> for WorldFault {
    ghost use Rattle.std.specs.Prelude.{◌≡◌};
    ghost use Rattle.mu_world.specs.declared.fault.WorldFault.TheVariants.{Memory};

    ghost from_gives = { λ _ e. e ≡ Memory };

    fn from(_e: AllocError) -> WorldFault {
        WorldFault::Memory
    }
}

impl<T: Drop> From<AllocFailed<T>> for WorldFault {
    ghost use Rattle.std.specs.Prelude.{◌≡◌};
    ghost use Rattle.mu_world.specs.declared.fault.WorldFault.TheVariants.{Memory};

    ghost from_gives = { λ _ e. e ≡ Memory };

    fn from(_e: AllocFailed<T>) -> WorldFault {
        WorldFault::Memory
    }
}

/// What stands against an event: the number of the token that shows it, and why.
pub(crate) fn bad(token: u8, why: BadWhy) -> WorldFault
    ensures { result ≡ WorldFault.Bad token why }
{
    WorldFault::Bad { token, why }
}
