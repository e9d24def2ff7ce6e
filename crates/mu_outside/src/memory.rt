// Octets in memory.
ghost use Rattle.std.specs.Prelude.{◌≡◌, ℕ, ◌+◌, ◌*◌, ◌<◌, ◌≤◌, length, slice_index};
ghost use Rattle.std.specs.Int.{bit_at};
ghost use Rattle.mu_model_flash.specs.Bits.{AreOctets, blank, written, Between};
ghost use Rattle.mu_model_flash.specs.Patterns.{made_bit, IsMade, IsLeftBy};

use mu_model_flash::Pattern;
use mu_model_flash::laws::ranges_of_octets;

pub(crate) const PAGE: usize = 4096;

// The octets of an erased page.
pub(crate) fn blank_page() -> [u8; 4096]
    ensures { result ≡ blank 4096 }
{
    [255; PAGE]
}

// Puts these octets from a place on.
pub(crate) fn overwrite(octets: &mut Vec<u8>, at: usize, bytes: &[u8])
    requires { at + length bytes.now ≤ length octets.old.items }
    ensures items { octets.new.items ≡ written octets.old.items at bytes.now }
    ensures len { length octets.new.items ≡ length octets.old.items }
{
    ranges_of_octets();
    octets[at..at + bytes.len()].copy_from_slice(bytes);
}

// Puts as much of these octets from a place on as the pattern says.
pub(crate) fn tear(octets: &mut Vec<u8>, at: usize, bytes: &[u8], pattern: Pattern)
    requires within { at + length bytes.now ≤ length octets.old.items }
    requires octets { AreOctets octets.old.items }
    ensures left { IsLeftBy pattern octets.old.items at bytes.now octets.new.items }
    ensures between { Between octets.old.items (written octets.old.items at bytes.now) octets.new.items }
    ensures len { length octets.new.items ≡ length octets.old.items }
{
    match pattern {
        Pattern::Old => {}
        Pattern::New => overwrite(octets, at, bytes),
        Pattern::Made(seed) => mix(octets, at, bytes, seed),
    }
}

// Puts some bits of these octets from a place on, by the seed.
fn mix(octets: &mut Vec<u8>, at: usize, bytes: &[u8], seed: u64)
    requires within { at + length bytes.now ≤ length octets.old.items }
    requires octets { AreOctets octets.old.items }
    ensures made { IsMade seed octets.old.items at bytes.now octets.new.items }
    ensures between { Between octets.old.items (written octets.old.items at bytes.now) octets.new.items }
    ensures len { length octets.new.items ≡ length octets.old.items }
{
    ranges_of_octets();
    for (j, new) in bytes.iter().enumerate() {
        let old = octets[at + j];
        octets[at + j] = mixed(old, *new, seed, j as u64);
    }
}

// Octet j of a range, with the bits new that the seed says. Of eight neighbouring octets of a seed every other is odd.
fn mixed(old: u8, new: u8, seed: u64, j: u64) -> u8
    ensures { (k : ℕ) → k < 8 → bit_at result k ≡ made_bit seed (8 * j + k) (bit_at old k) (bit_at new k) }
{
    let mask = if (seed % 2 + j / 32 % 2) % 2 == 0 {
        0b1010_1010
    } else {
        0b0101_0101
    };
    (old & (255 - mask)) | (new & mask)
}
