// The ways in which the octets of a flash with a distributor are read, for the laws of runs.
ghost use Rattle.mu_distributor_server.specs.Ways.{Way, StateOf, reading_of};

use mu_model_flash::laws::Readings;
use mu_outside::Flash;
use std::marker::PhantomData;

/// Flashes of a type, read as stores and as distributors. It stands in calls of laws alone, and has no values.
pub struct Ways<F>(PhantomData<F>);

impl<F: Flash> Readings for Ways<F> {
    ghost Flash = { F };

    ghost seen = { F.seen };

    ghost Way = { Way };

    ghost State = { StateOf };

    ghost reading = { reading_of };
}
