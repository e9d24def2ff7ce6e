// The entries of banks in a record.
ghost use Rattle.std.specs.Prelude.{◌≡◌, ℕ, ◌+◌, ◌*◌, ◌<◌, ◌≤◌, ◌↔◌, IsTrue, MatchOption, EachIndex, length, slice_index, slice_index_or};
ghost use Rattle.mu_model_image.specs.declared.Meta.{Meta};
ghost use Rattle.mu_model_image.specs.Meta.{IsMeta};
ghost use Rattle.mu_model_flash.specs.Bits.{AreOctets, part_of, written};
ghost use Rattle.mu_model_record.specs.declared.BankState.{BankState};
ghost use Rattle.mu_model_record.specs.declared.BankState.TheVariants.{Empty};
ghost use Rattle.mu_model_record.specs.Record.{zeros, IsEntry, IsFillingEntry, IsSealedEntry};
ghost use Rattle.mu_record.specs.Entries.{AreEntries, IsSealable};

use byteorder::{ByteOrder, LittleEndian};
use mu_image::{meta_from, meta_octets};
use mu_model_flash::laws::ranges_of_octets;
use mu_model_image::{Meta, laws};
use mu_model_record::BankState;

pub(crate) const ENTRY: usize = 48;

const FILLING: u8 = 1;

const SEALED: u8 = 2;

// Whether all octets are 0.
pub(crate) fn is_zero(octets: &[u8]) -> bool
    ensures { IsTrue result ↔ EachIndex octets.now (λ k. slice_index octets.now k ≡ 0) }
{
    octets.iter().all(|octet| *octet == 0)
}

// Puts these octets from a place on.
pub(crate) fn put(octets: &mut [u8], at: usize, bytes: &[u8])
    requires { at + length bytes.now ≤ length octets.old }
    ensures written { octets.new ≡ written octets.old at bytes.now }
    ensures small { AreOctets octets.new }
{
    octets[at..at + bytes.len()].copy_from_slice(bytes);
}

fn filling_octets(size: u32, log: u8) -> [u8; 48]
    ensures { IsFillingEntry size log result }
{
    let mut octets = [0; ENTRY];
    octets[0] = FILLING;
    octets[1] = log;
    LittleEndian::write_u32(&mut octets[4..], size);
    octets
}

fn sealed_octets(meta: &Meta) -> [u8; 48]
    requires { IsMeta meta.now }
    ensures { IsSealedEntry meta.now result }
{
    let mut octets = [0; ENTRY];
    laws::metadata();
    octets[0] = SEALED;
    octets[8..].copy_from_slice(&meta_octets(meta));
    octets
}

fn entry_octets(entry: &BankState) -> [u8; 48]
    requires { IsSealable entry.now }
    ensures { IsEntry entry.now result }
{
    match entry {
        BankState::Empty => [0; ENTRY],
        BankState::Filling { size, log } => filling_octets(*size, *log),
        BankState::Sealed(meta) => sealed_octets(meta),
    }
}

// The entries of all places.
pub(crate) fn entries_octets(banks: &[BankState; 4]) -> [u8; 192]
    requires { (b : ℕ) → b < 4 → IsSealable (slice_index_or banks.now b Empty) }
    ensures { AreEntries banks.now result }
{
    ranges_of_octets();
    let mut octets = [0; 4 * ENTRY];
    for b in 0..4usize {
        let entry = entry_octets(&banks[b]);
        put(&mut octets, ENTRY * b, &entry);
    }
    octets
}

fn filling_from(octets: &[u8]) -> Option<BankState>
    requires { length octets.now ≡ 48 }
    ensures { MatchOption result ((size log : ℕ) → ¬ IsFillingEntry size log octets.now) (λ entry. IsEntry entry octets.now) }
{
    if octets[0] != FILLING {
        return None;
    }
    if !is_zero(&octets[2..4]) {
        return None;
    }
    if !is_zero(&octets[8..48]) {
        return None;
    }
    Some(BankState::Filling {
        size: LittleEndian::read_u32(&octets[4..]),
        log: octets[1],
    })
}

fn sealed_from(octets: &[u8]) -> Option<BankState>
    requires { length octets.now ≡ 48 }
    ensures { MatchOption result ((meta : Meta) → ¬ IsSealedEntry meta octets.now) (λ entry. IsEntry entry octets.now) }
{
    if octets[0] != SEALED {
        return None;
    }
    if !is_zero(&octets[1..8]) {
        return None;
    }
    match meta_from(&octets[8..48]) {
        Some(meta) => Some(BankState::Sealed(meta)),
        None => None,
    }
}

fn entry_from(octets: &[u8]) -> Option<BankState>
    requires { length octets.now ≡ 48 }
    ensures { MatchOption result ((entry : BankState) → ¬ IsEntry entry octets.now) (λ entry. IsEntry entry octets.now) }
{
    if octets[0] == FILLING {
        return filling_from(octets);
    }
    if octets[0] == SEALED {
        return sealed_from(octets);
    }
    if is_zero(octets) {
        Some(BankState::Empty)
    } else {
        None
    }
}

// The entries of all places, where each is one.
pub(crate) fn entries_from(octets: &[u8]) -> Option<[BankState; 4]>
    requires { length octets.now ≡ 192 }
    ensures { MatchOption result ((b : ℕ) × (b < 4) × ((entry : BankState) → ¬ IsEntry entry (part_of octets.now (48 * b) 48))) (λ banks. AreEntries banks octets.now) }
{
    let mut banks = [BankState::Empty; 4];
    for b in 0..4usize {
        match entry_from(&octets[ENTRY * b..ENTRY * b + ENTRY]) {
            Some(entry) => banks[b] = entry,
            None => return None,
        }
    }
    Some(banks)
}
