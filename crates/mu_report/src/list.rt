ghost use Rattle.std.specs.Prelude.{◌≡◌, ◌≤◌, ◌<◌, ◌+◌, ◌↔◌, ◌++◌, IsTrue, IsSome, IfSome, IfOk, IfErr, length, slice_index};
ghost use Rattle.std.specs.Bool.{OnTrue};
ghost use Rattle.mu_model_wire.specs.Patterns.{pattern_length, pattern_number, pattern_spelling, follows, list_spelling, IsList, IsListFault};
ghost use Rattle.arrayvec.specs.ArrayVec.{array_vec_len};

use arrayvec::ArrayVec;
use mu_model_wire::patterns::number_patterns;
use thiserror::Error;

/// The first bad number pattern of a list.
#[derive(Clone, Copy, Debug, PartialEq, Eq, Error)]
#[error("bad number pattern at octet {at}")]
pub struct ListFault {
    /// Place of its first octet.
    pub at: u16,
    /// Whether there are fewer octets than that octet announces.
    pub cut: bool,
}

// How many octets a pattern has by its first one, 0 where none begins so.
fn pattern_length(first: u8) -> usize
    ensures { result ≡ pattern_length first }
{
    match first {
        0..=0x7F => 1,
        0xC2..=0xDF => 2,
        0xE0..=0xEF => 3,
        _ => 0,
    }
}

fn follows(octet: u8) -> bool
    ensures { result ≡ follows octet }
{
    octet >= 0x80 && octet <= 0xBF
}

// The number of a pattern, whose length is as its first octet announces.
fn pattern_number(octets: &[u8]) -> Option<u16>
    requires { 0 < length octets.now → length octets.now ≡ pattern_length (slice_index octets.now 0) }
    ensures { result ≡ pattern_number octets.now }
{
    match octets {
        [a] => Some(*a as u16),
        [a, b] if follows(*b) => Some((*a as u16 - 0xC0) * 64 + (*b as u16 - 0x80)),
        [a, b, c] if follows(*b) && follows(*c) => {
            let number = (*a as u16 - 0xE0) * 4096 + (*b as u16 - 0x80) * 64 + (*c as u16 - 0x80);
            if number >= 0x800 { Some(number) } else { None }
        }
        _ => None,
    }
}

// Appends the pattern of a number where there is room, and answers whether there was.
fn push_pattern(octets: &mut ArrayVec<u8, 379>, number: u16) -> bool
    ensures room { IsTrue result ↔ (array_vec_len octets.old + length (pattern_spelling number) ≤ 379) }
    ensures pushed { OnTrue result (octets.new.items ≡ octets.old.items ++ pattern_spelling number) }
{
    let appended = if number < 0x80 {
        octets.try_extend_from_slice(&[number as u8])
    } else if number < 0x800 {
        octets.try_extend_from_slice(&[0xC0 + (number / 64) as u8, 0x80 + (number % 64) as u8])
    } else {
        octets.try_extend_from_slice(&[
            0xE0 + (number / 4096) as u8,
            0x80 + (number / 64 % 64) as u8,
            0x80 + (number % 64) as u8,
        ])
    };
    appended.is_ok()
}

/// The patterns of numbers, one after the other. None exactly where they have more than 379
/// octets.
pub fn encode_list(numbers: &[u16]) -> Option<ArrayVec<u8, 379>>
    ensures some { IsSome result ↔ (length (list_spelling numbers.now) ≤ 379) }
    ensures spelled { IfSome result (λ octets. octets.items ≡ list_spelling numbers.now) }
{
    let mut octets = ArrayVec::new();
    for number in numbers {
        if !push_pattern(&mut octets, *number) {
            return None;
        }
    }
    Some(octets)
}

/// The numbers whose patterns the octets are, or the first bad pattern.
pub fn decode_list(bytes: &[u8]) -> Result<ArrayVec<u16, 379>, ListFault>
    requires { length bytes.now ≤ 379 }
    ensures numbers { IfOk result (λ numbers. IsList bytes.now numbers.items) }
    ensures fault { IfErr result (λ fault. IsListFault bytes.now fault.at fault.cut) }
{
    number_patterns();
    let mut numbers = ArrayVec::new();
    let mut at = 0;
    while at < bytes.len() {
        let length = pattern_length(bytes[at]);
        let (_, left) = bytes.split_at(at);
        if left.len() < length {
            return Err(ListFault {
                at: at as u16,
                cut: true,
            });
        }
        let (pattern, _) = left.split_at(length);
        let Some(number) = pattern_number(pattern) else {
            return Err(ListFault {
                at: at as u16,
                cut: false,
            });
        };
        numbers.push(number);
        at += length;
    }
    Ok(numbers)
}
