// Whether octets are laid out as a distributor's note.
ghost use Rattle.std.specs.Prelude.{◌≡◌, ◌↔◌, IsTrue, EachIndex, length, slice_index};
ghost use Rattle.mu_model_represents_distributor.specs.DistributorNote.{SpellsDistributor};
ghost use Rattle.mu_distributor_note.specs.Layout.{HasNumbers, HasZeros};
ghost use Rattle.mu_model_stored_distributor.specs.DistributorIn.{note_in};

use crate::writing::KIND;

// Whether all octets are 0.
fn is_zero(octets: &[u8]) -> bool
    ensures { IsTrue result ↔ EachIndex octets.now (λ k. slice_index octets.now k ≡ 0) }
{
    octets.iter().all(|octet| *octet == 0)
}

fn has_numbers(octets: &[u8]) -> bool
    requires { length octets.now ≡ 1728 }
    ensures { IsTrue result ↔ HasNumbers octets.now }
{
    octets[0] == KIND && octets[1] <= 7 && octets[2] <= 3 && octets[3] <= 4 && octets[26] <= 128
}

// Whether the octets are 0 past the images, past the metadata and past the rows.
fn has_zeros(octets: &[u8]) -> bool
    requires long { length octets.now ≡ 1728 }
    requires numbers { HasNumbers octets.now }
    ensures { IsTrue result ↔ HasZeros octets.now }
{
    let banks = 4 + usize::from(octets[3]);
    let rows = 128 + 6 * usize::from(octets[26]);
    if !is_zero(&octets[banks..8]) {
        return false;
    }
    if !is_zero(&octets[68..128]) {
        return false;
    }
    is_zero(&octets[rows..1728])
}

/// Whether the octets spell what they would say as a distributor's note.
pub(crate) fn is_spelled(octets: &[u8]) -> bool
    requires { length octets.now ≡ 1728 }
    ensures { IsTrue result ↔ SpellsDistributor (note_in octets.now) octets.now }
{
    has_numbers(octets) && has_zeros(octets)
}
