ghost use Rattle.std.specs.Prelude.{◌≡◌, ◌≤◌, ◌+◌, ◌==◌, ◌∷◌, length, true, IfSome};
ghost use Rattle.std.specs.Char.{is_ascii_digit};
ghost use Rattle.std.specs.List.{list_all, position};
ghost use Rattle.std.specs.Option.{option_copied, option_map};
ghost use Rattle.mu_model_script.specs.Pieces.{pieces};
ghost use Rattle.mu_model_script.specs.Tokens.{digits_value, if_within, number_of, address_of, octets_of, after_prefix, made_of, content_of, pattern_of};
ghost use Rattle.mu_script.specs.Cursor.{pieces_behind, length_behind};
ghost use Rattle.mu_script.specs.View.{content};

use crate::events::Content;
use arrayvec::ArrayVec;
use mu_model_flash::Pattern;

fn first_place(octets: &[u8], separator: u8) -> Option<usize>
    ensures { result ≡ position (λ octet. octet == separator) octets.now }
{
    octets.iter().position(|octet| *octet == separator)
}

/// What stands before the first separator, and what stands behind it where there is one.
pub(crate) fn cut(octets: &[u8], separator: u8) -> (&[u8], Option<&[u8]>)
    ensures pieces { pieces separator octets.now ≡ result.0.now ∷ pieces_behind separator (option_copied result.1) }
    ensures lengths { length octets.now ≡ length result.0.now + length_behind (option_copied result.1) }
{
    match first_place(octets, separator) {
        Some(place) => (&octets[..place], Some(&octets[place + 1..])),
        None => (octets, None),
    }
}

fn are_digits(octets: &[u8]) -> bool
    ensures { result ≡ list_all is_ascii_digit octets.now }
{
    octets.iter().all(|octet| octet.is_ascii_digit())
}

/// The number that digits write, where it isn't above the most.
fn digits_value(digits: &[u8], most: u64) -> Option<u64>
    requires { list_all is_ascii_digit digits.now ≡ true }
    ensures { result ≡ if_within 0 most (digits_value 0 digits.now) }
{
    let mut number: u128 = 0;
    for digit in digits {
        number = 10 * number + (*digit - b'0') as u128;
        if number > most as u128 {
            return None;
        }
    }
    Some(number as u64)
}

/// A decimal number in a range, without a sign and without leading zeros.
pub fn number(octets: &[u8], least: u64, most: u64) -> Option<u64>
    ensures reads { result ≡ number_of least most octets.now }
    ensures within { IfSome result (λ n. n ≤ most) }
{
    if !are_digits(octets) || octets.is_empty() {
        return None;
    }
    if octets.len() > 1 && octets[0] == b'0' {
        return None;
    }
    let number = digits_value(octets, most)?;
    if number < least { None } else { Some(number) }
}

/// An address, four hexadecimal digits.
pub(crate) fn address(octets: &[u8]) -> Option<u16>
    ensures { result ≡ address_of octets.now }
{
    let mut address = [0; 2];
    match hex::decode_to_slice(octets, &mut address) {
        Ok(()) => Some(u16::from_be_bytes(address)),
        Err(_) => None,
    }
}

/// Octets of two hexadecimal digits each, 1 to as many as there is room for.
pub(crate) fn octets<const N: usize>(text: &[u8]) -> Option<ArrayVec<u8, N>>
    ensures { option_map (λ v. v.items) result ≡ octets_of N text.now }
{
    let count = text.len() / 2;
    if count == 0 {
        return None;
    }
    if count > N {
        return None;
    }
    let mut room = [0; N];
    let octets = &mut room[..count];
    if hex::decode_to_slice(text, octets).is_err() {
        return None;
    }
    let mut list = ArrayVec::new();
    if list.try_extend_from_slice(octets).is_err() {
        prove!(false);
    }
    Some(list)
}

fn made(text: &[u8]) -> Option<Content>
    ensures { option_map content result ≡ made_of (pieces 58 text.now) }
{
    let (seed, behind) = cut(text, b':');
    let (size, more) = cut(behind?, b':');
    if more.is_some() {
        return None;
    }
    let seed = number(seed, 0, u16::MAX as u64)?;
    let size = number(size, 1, 1_048_576)?;
    Some(Content::Made {
        seed: seed as u16,
        size: size as u32,
    })
}

/// An image: `hex:` and octets, or `made:SEED:SIZE`.
pub(crate) fn image(text: &[u8]) -> Option<Content>
    ensures { option_map content result ≡ content_of text.now }
{
    if let Some(digits) = text.strip_prefix(b"hex:") {
        return octets(digits).map(Content::Hex);
    }
    made(text.strip_prefix(b"made:")?)
}

fn seeded(text: &[u8]) -> Option<Pattern>
    ensures { result ≡ option_map Pattern.Made (number_of 0 65535 text.now) }
{
    Some(Pattern::Made(number(text, 0, u16::MAX as u64)?))
}

/// A pattern: `none` for the old bits, `all` for the new ones, or `made:SEED`.
pub(crate) fn pattern(text: &[u8]) -> Option<Pattern>
    ensures { result ≡ pattern_of text.now }
{
    if text == b"none".as_slice() {
        return Some(Pattern::Old);
    }
    if text == b"all".as_slice() {
        return Some(Pattern::New);
    }
    seeded(text.strip_prefix(b"made:")?)
}
