// Octets that are 0.
ghost use Rattle.std.specs.Prelude.{◌≡◌, ◌↔◌, IsTrue, EachIndex, slice_index};

// Whether all octets are 0.
pub(crate) fn is_zero(octets: &[u8]) -> bool
    ensures { IsTrue result ↔ EachIndex octets.now (λ k. slice_index octets.now k ≡ 0) }
{
    octets.iter().all(|octet| *octet == 0)
}
