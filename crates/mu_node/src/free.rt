// The bank that isn't active.
ghost use Rattle.std.specs.Prelude.{◌≡◌, ◌<◌, ◌+◌, ℕ, None, false, length};
ghost use Rattle.std.specs.List.{AllByRecursion};
ghost use Rattle.mu_model_represents.specs.Images.{is_among, AllDiffer};
ghost use Rattle.mu_model_written_node.specs.Free.{IsFreeBank};
ghost use Rattle.mu_note.specs.Views.{active_banks};
ghost use Rattle.mu_place.specs.Place.{place_record};
ghost use Rattle.mu_node.specs.Views.{fault_in, place_in, note_in};

use crate::node::Node;
use mu_model_written_node::laws::one_bank_is_free;
use mu_note::Active;
use mu_outside::Flash;

// Of one bank more than there are active ones, the other.
fn other_bank(active: Active) -> u8
    requires there { AllByRecursion (λ (b : ℕ). b < 1 + length (active_banks active)) (active_banks active) }
    requires differ { AllDiffer (active_banks active) }
    ensures there { result < 1 + length (active_banks active) }
    ensures apart { is_among (active_banks active) result ≡ false }
{
    match active {
        Active::One(first) => 1 - first,
        Active::Two(first, second) => 3 - first - second,
    }
}

impl<F: Flash> Node<F> {
    // The bank that isn't active. No fault is kept.
    pub(crate) fn free_bank(&self) -> u8
        requires { fault_in self.now ≡ None }
        ensures { IsFreeBank (place_record (place_in self.now)) (active_banks (note_in self.now).active) result }
    {
        one_bank_is_free();
        self.known();
        other_bank(self.note.active)
    }
}
