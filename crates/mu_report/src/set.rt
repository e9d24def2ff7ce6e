ghost use Rattle.std.specs.Prelude.{◌≡◌, ◌≤◌, ◌<◌, ◌+◌, ◌*◌, ◌↔◌, ℕ, Bool, List, true, false, length, slice_index, slice_set, IsTrue, IsFalse, IsSome, IfSome, All, Contains};
ghost use Rattle.mu_model_wire.specs.Patterns.{list_spelling};
ghost use Rattle.mu_model_wire.specs.Reports.{has, members, no_number, complement, union, IsFirstFrom, IsBitField, bit_field, field_bit, field_length};
ghost use Rattle.mu_report.specs.Words.{AreBitsBelow, word_bit, count_below};

use arrayvec::ArrayVec;
use byteorder::{ByteOrder, LittleEndian};
use mu_model_wire::reports::bit_fields;
use std::marker::Model;

/// A set of numbers below a bound, which is at most 2,048.
#[derive(Drop)]
pub struct NumberSet {
    // Number `k` is bit `k % 64` of word `k / 64`. Bits at and past the bound are 0.
    words: [u64; 32],
    bound: u16,
}

impl Model for NumberSet {
    ghost use Rattle.std.specs.Prelude.{Bool, List};
    ghost use Rattle.mu_report.specs.Words.{set_of_words, AreWords};

    ghost Value = { List Bool };

    ghost view = { λ set. set_of_words set.words set.bound };

    ghost invariant = { λ set. AreWords set.words set.bound };
}

// How many octets the bit field of `n` numbers has.
pub(crate) fn field_length(n: u16) -> u16
    ensures { result ≡ field_length n }
{
    n.div_ceil(8)
}

// The bits of those numbers of word `index` that are below `k`.
fn bits_below(k: u16, index: usize) -> u64
    requires { index < 32 }
    ensures { AreBitsBelow k index result }
{
    let begin = 64 * index as u16;
    if k >= begin + 64 {
        u64::MAX
    } else if k <= begin {
        0
    } else {
        (1 << (k - begin)) - 1
    }
}

// How many bits of the words are 1.
fn ones(words: &[u64]) -> u16
    requires { length words.now ≤ 32 }
    ensures { result ≡ count_below (word_bit words.now) (64 * length words.now) }
{
    let mut count = 0;
    for word in words {
        count += word.count_ones() as u16;
    }
    count
}

// The octets, and zeros behind them.
fn padded(octets: &[u8]) -> [u8; 256]
    requires { length octets.now ≤ 256 }
    ensures { (i : ℕ) → slice_index result i ≡ slice_index octets.now i }
{
    let mut all = [0; 256];
    all[..octets.len()].copy_from_slice(octets);
    all
}

// The words whose bits are those of at most 256 octets.
fn words_of(octets: &[u8]) -> [u64; 32]
    requires { length octets.now ≤ 256 }
    ensures count { length result ≡ 32 }
    ensures bits { (k : ℕ) → word_bit result k ≡ field_bit octets.now k }
{
    let mut words = [0; 32];
    LittleEndian::read_u64_into(&padded(octets), &mut words);
    words
}

// Whether a number that is `n` or more is in the words.
fn has_past(words: &[u64; 32], n: u16) -> bool
    ensures { IsFalse result ↔ ((k : ℕ) → n ≤ k → word_bit words.now k ≡ false) }
{
    for index in 0..32 {
        if words[index] & !bits_below(n, index) != 0 {
            return true;
        }
    }
    false
}

impl NumberSet {
    /// The empty set of numbers below `n`.
    pub fn new(n: u16) -> NumberSet
        requires { n ≤ 2048 }
        ensures { result ≡ no_number n }
    {
        NumberSet {
            words: [0; 32],
            bound: n,
        }
    }

    /// The bound: every number of the set is below it.
    pub fn bound(&self) -> u16
        ensures bound { result ≡ length self.now }
        ensures most { result ≤ 2048 }
    {
        self.bound
    }

    /// Adds a number.
    pub fn insert(&mut self, k: u16)
        requires { k < length self.old }
        ensures { self.new ≡ slice_set self.old k true }
    {
        self.words[k as usize / 64] |= 1 << (k % 64);
    }

    /// Takes a number out, and changes nothing where it isn't there.
    pub fn remove(&mut self, k: u16)
        ensures { self.new ≡ slice_set self.old k false }
    {
        if k < self.bound {
            self.words[k as usize / 64] &= !(1 << (k % 64));
        }
    }

    /// Whether a number is in the set.
    pub fn contains(&self, k: u16) -> bool
        ensures { result ≡ has self.now k }
    {
        k < self.bound && (self.words[k as usize / 64] >> (k % 64)) & 1 == 1
    }

    /// How many numbers are in the set.
    pub fn count(&self) -> u16
        ensures count { result ≡ length (members self.now) }
        ensures most { result ≤ length self.now }
        ensures small { result ≤ 2048 }
    {
        ones(&self.words)
    }

    /// The numbers below the bound that aren't in the set.
    pub fn missing(&self) -> NumberSet
        ensures { result ≡ complement self.now }
    {
        let mut words = [0; 32];
        for index in 0..32 {
            words[index] = !self.words[index] & bits_below(self.bound, index);
        }
        NumberSet {
            words,
            bound: self.bound,
        }
    }

    /// Adds the numbers of another set with the same bound.
    pub fn union_with(&mut self, other: &NumberSet)
        requires { length self.old ≡ length other.now }
        ensures { self.new ≡ union self.old other.now }
    {
        for index in 0..32 {
            self.words[index] |= other.words[index];
        }
    }

    /// The least number of the set that is `k` or more.
    pub fn first_from(&self, k: u16) -> Option<u16>
        ensures first { IsFirstFrom self.now k result }
        ensures within { IfSome result (λ number. number < length self.now) }
        ensures small { IfSome result (λ number. number < 2048) }
    {
        for index in k as usize / 64..32 {
            let word = self.words[index] & !bits_below(k, index);
            if word != 0 {
                return Some(64 * index as u16 + word.trailing_zeros() as u16);
            }
        }
        None
    }

    // How many octets the members have as a list of number patterns.
    pub(crate) fn spelled_length(&self) -> u16
        ensures { result ≡ length (list_spelling (members self.now)) }
    {
        // Numbers below 128 have one octet, those below 2,048 two.
        2 * self.count() - ones(&self.words[..2])
    }

    // The members, rising.
    pub(crate) fn numbers(&self) -> ArrayVec<u16, 374>
        requires { length (members self.now) ≤ 374 }
        ensures { result.items ≡ members self.now }
    {
        let mut numbers = ArrayVec::new();
        let mut at = 0;
        while let Some(number) = self.first_from(at) {
            numbers.push(number);
            at = number + 1;
        }
        numbers
    }

    /// The bit field of the set: bit `k % 8` of octet `k / 8` is 1 where `k` is in it (MshMBT, Blocks Not Received).
    pub fn bit_field(&self) -> ArrayVec<u8, 374>
        ensures { result.items ≡ bit_field self.now }
    {
        bit_fields();
        let mut octets = [0; 256];
        LittleEndian::write_u64_into(&self.words, &mut octets);
        let (used, _) = octets.split_at(field_length(self.bound) as usize);
        let mut field = ArrayVec::new();
        if field.try_extend_from_slice(used).is_err() {
            prove!(false);
        }
        field
    }

    // The set of a bit field, if it is one of numbers below `n`.
    pub(crate) fn from_bit_field(octets: &[u8], n: u16) -> Option<NumberSet>
        requires { n ≤ 2048 }
        ensures names { IfSome result (λ set. (length set ≡ n) × IsBitField octets.now set) }
        ensures some { IsSome result ↔ ((length octets.now ≡ field_length n) × ((i : ℕ) → n ≤ i → field_bit octets.now i ≡ false)) }
    {
        if octets.len() != field_length(n) as usize {
            return None;
        }
        let words = words_of(octets);
        if has_past(&words, n) {
            return None;
        }
        Some(NumberSet { words, bound: n })
    }

    // The set of listed numbers, if they are below `n`.
    pub(crate) fn from_numbers(numbers: &[u16], n: u16) -> Option<NumberSet>
        requires { n ≤ 2048 }
        ensures names { IfSome result (λ set. (length set ≡ n) × ((k : ℕ) → Contains numbers.now k ↔ IsTrue (has set k))) }
        ensures some { IsSome result ↔ All (λ k. k < n) numbers.now }
    {
        let mut set = NumberSet::new(n);
        for number in numbers {
            if *number >= n {
                return None;
            }
            set.insert(*number);
        }
        Some(set)
    }
}
