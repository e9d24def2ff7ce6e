// The laws of the definitions below.
ghost use Rattle.mu_store.specs.Known.{Known};

use mu_model_flash::laws::ranges_of_octets;
use mu_model_record::laws::{changes, stores};

// What is known of ranges of octets, of records, and of what a flash represents.
pub(crate) fn known()
    ensures { Known }
{
    ranges_of_octets();
    changes();
    stores();
}
