ghost use Rattle.std.specs.Prelude.{◌≡◌, ◌≤◌, ◌<◌, ◌+◌, OnOk, OnErr, IfOk, ◌^◌, [], length, slice_index};
ghost use Rattle.byteorder.specs.Endian.{little_number};
ghost use Rattle.mu_model_wire.specs.Limits.{most_octets};
ghost use Rattle.mu_model_wire.specs.Reading.{Gives, Leaves, LeavesBy, after, word_at, octets_at, number_at, zero_or_number_at, opcode_at, counted_at, rest_at, nothing_left};

use byteorder::{ByteOrder, LittleEndian};
use mu_model_wire::{Refusal, Why};
use std::marker::Model;

/// Reads a payload from its first octet to its last. Contracts see the place and the octets that are left.
///
/// A call that refuses says at which place and why, and leaves the cursor as it was.
#[derive(Drop)]
pub struct Cursor<'a> {
    left: &'a [u8],
    at: u16,
}

impl<'a> Model for Cursor<'a> {
    ghost use Rattle.std.specs.Prelude.{◌+◌, ◌≤◌, length};
    ghost use Rattle.mu_model_wire.specs.Limits.{most_octets};
    ghost use Rattle.mu_model_wire.specs.Reading.{Left};

    ghost Value = { Left };

    ghost view = { λ c. record { at = c.at; octets = c.left.now } };

    ghost invariant = { λ c. c.at + length c.left.now ≤ most_octets };
}

fn five_octets(octets: &[u8]) -> u64
    requires { 5 ≤ length octets.now }
    ensures number { result ≡ little_number 5 octets.now }
    ensures fits { result < 2 ^ 40 }
{
    LittleEndian::read_uint(octets, 5)
}

impl<'a> Cursor<'a> {
    /// A cursor before the first of the octets, which are at most 380.
    pub fn new(bytes: &'a [u8]) -> Cursor<'a>
        requires { length bytes.now ≤ most_octets }
        ensures { result ≡ record { at = 0; octets = bytes.now } }
    {
        Cursor { left: bytes, at: 0 }
    }

    /// How many octets were read: the place of the first that is left.
    pub fn place(&self) -> u16
        ensures place { result ≡ self.now.at }
        ensures most { result + length self.now.octets ≤ most_octets }
    {
        self.at
    }

    /// How many octets are left.
    pub fn left(&self) -> u16
        ensures { result ≡ length self.now.octets }
    {
        self.left.len() as u16
    }

    /// A number of one octet. `Short` where none is left.
    #[tactic(auto, unfolding(mu_model_wire::specs::Reading::word_at))]
    pub fn u8(&mut self) -> Result<u8, Refusal>
        ensures reads { Leaves result (word_at 1 self.old) self.old self.new }
        ensures taken { OnOk result (length self.new.octets + 1 ≡ length self.old.octets) }
    {
        if self.left.len() < 1 {
            return Err(self.refuse(Why::Short));
        }
        let number = self.left[0];
        self.skip(1);
        Ok(number)
    }

    /// A number of two octets, the lower one first. `Short` where they lack.
    #[tactic(auto, unfolding(mu_model_wire::specs::Reading::word_at))]
    pub fn u16(&mut self) -> Result<u16, Refusal>
        ensures reads { Leaves result (word_at 2 self.old) self.old self.new }
        ensures taken { OnOk result (length self.new.octets + 2 ≡ length self.old.octets) }
    {
        if self.left.len() < 2 {
            return Err(self.refuse(Why::Short));
        }
        let number = LittleEndian::read_u16(self.left);
        self.skip(2);
        Ok(number)
    }

    /// A number of four octets, the lowest first. `Short` where they lack.
    #[tactic(auto, unfolding(mu_model_wire::specs::Reading::word_at))]
    pub fn u32(&mut self) -> Result<u32, Refusal>
        ensures reads { Leaves result (word_at 4 self.old) self.old self.new }
        ensures taken { OnOk result (length self.new.octets + 4 ≡ length self.old.octets) }
    {
        if self.left.len() < 4 {
            return Err(self.refuse(Why::Short));
        }
        let number = LittleEndian::read_u32(self.left);
        self.skip(4);
        Ok(number)
    }

    /// A number of eight octets, the lowest first. `Short` where they lack.
    #[tactic(auto, unfolding(mu_model_wire::specs::Reading::word_at))]
    pub fn u64(&mut self) -> Result<u64, Refusal>
        ensures reads { Leaves result (word_at 8 self.old) self.old self.new }
        ensures taken { OnOk result (length self.new.octets + 8 ≡ length self.old.octets) }
    {
        if self.left.len() < 8 {
            return Err(self.refuse(Why::Short));
        }
        let number = LittleEndian::read_u64(self.left);
        self.skip(8);
        Ok(number)
    }

    /// A number of five octets, the lowest first. `Short` where they lack.
    #[tactic(auto, unfolding(mu_model_wire::specs::Reading::word_at))]
    pub fn u40(&mut self) -> Result<u64, Refusal>
        ensures reads { Leaves result (word_at 5 self.old) self.old self.new }
        ensures taken { OnOk result (length self.new.octets + 5 ≡ length self.old.octets) }
        ensures fits { IfOk result (λ n. n < 2 ^ 40) }
    {
        if self.left.len() < 5 {
            return Err(self.refuse(Why::Short));
        }
        let number = five_octets(self.left);
        self.skip(5);
        Ok(number)
    }

    /// A number of one octet in a range. `Short` where it lacks, `Value` where it is out of the range.
    #[tactic(auto, unfolding(mu_model_wire::specs::Reading::word_at))]
    pub fn u8_in(&mut self, least: u8, most: u8) -> Result<u8, Refusal>
        ensures reads { Leaves result (number_at 1 least most self.old) self.old self.new }
        ensures taken { OnOk result (length self.new.octets + 1 ≡ length self.old.octets) }
    {
        if self.left.len() < 1 {
            return Err(self.refuse(Why::Short));
        }
        let number = self.left[0];
        if number < least || most < number {
            return Err(self.refuse(Why::Value));
        }
        self.skip(1);
        Ok(number)
    }

    /// A number of two octets in a range. `Short` where they lack, `Value` where it is out of the range.
    #[tactic(auto, unfolding(mu_model_wire::specs::Reading::word_at))]
    pub fn u16_in(&mut self, least: u16, most: u16) -> Result<u16, Refusal>
        ensures reads { Leaves result (number_at 2 least most self.old) self.old self.new }
        ensures taken { OnOk result (length self.new.octets + 2 ≡ length self.old.octets) }
    {
        if self.left.len() < 2 {
            return Err(self.refuse(Why::Short));
        }
        let number = LittleEndian::read_u16(self.left);
        if number < least || most < number {
            return Err(self.refuse(Why::Value));
        }
        self.skip(2);
        Ok(number)
    }

    /// A number of two octets that is 0 or in a range. `Short` where they lack, `Value` where it is neither.
    #[tactic(auto, unfolding(mu_model_wire::specs::Reading::word_at))]
    pub fn u16_zero_or(&mut self, least: u16, most: u16) -> Result<u16, Refusal>
        ensures reads { Leaves result (zero_or_number_at 2 least most self.old) self.old self.new }
        ensures taken { OnOk result (length self.new.octets + 2 ≡ length self.old.octets) }
    {
        if self.left.len() < 2 {
            return Err(self.refuse(Why::Short));
        }
        let number = LittleEndian::read_u16(self.left);
        if number != 0 && (number < least || most < number) {
            return Err(self.refuse(Why::Value));
        }
        self.skip(2);
        Ok(number)
    }

    /// A number of four octets in a range. `Short` where they lack, `Value` where it is out of the range.
    #[tactic(auto, unfolding(mu_model_wire::specs::Reading::word_at))]
    pub fn u32_in(&mut self, least: u32, most: u32) -> Result<u32, Refusal>
        ensures reads { Leaves result (number_at 4 least most self.old) self.old self.new }
        ensures taken { OnOk result (length self.new.octets + 4 ≡ length self.old.octets) }
    {
        if self.left.len() < 4 {
            return Err(self.refuse(Why::Short));
        }
        let number = LittleEndian::read_u32(self.left);
        if number < least || most < number {
            return Err(self.refuse(Why::Value));
        }
        self.skip(4);
        Ok(number)
    }

    /// The next octets, so many. `Short` where they lack.
    #[tactic(auto, unfolding(mu_model_wire::specs::Reading::octets_at))]
    pub fn octets(&mut self, count: u16) -> Result<&'a [u8], Refusal>
        ensures reads { LeavesBy (λ octets. octets.now) result (octets_at count self.old) self.old self.new }
        ensures taken { OnOk result (length self.new.octets + count ≡ length self.old.octets) }
        ensures all { IfOk result (λ octets. length octets.now ≡ count) }
    {
        if self.left() < count {
            return Err(self.refuse(Why::Short));
        }
        let octets = &self.left[..count as usize];
        self.skip(count);
        Ok(octets)
    }

    /// The next sixteen octets. `Short` where they lack.
    pub fn sixteen(&mut self) -> Result<[u8; 16], Refusal>
        ensures reads { Leaves result (octets_at 16 self.old) self.old self.new }
        ensures taken { OnOk result (length self.new.octets + 16 ≡ length self.old.octets) }
    {
        let octets = self.octets(16)?;
        let mut all = [0; 16];
        all.copy_from_slice(octets);
        Ok(all)
    }

    /// Octets behind an octet with their number. `Short` at the first that lacks of either, `Value` where the
    /// number is out of the range.
    #[tactic(auto, unfolding(mu_model_wire::specs::Reading::word_at, mu_model_wire::specs::Reading::octets_at))]
    pub fn counted(&mut self, least: u8, most: u8) -> Result<&'a [u8], Refusal>
        ensures reads { LeavesBy (λ octets. octets.now) result (counted_at least most self.old) self.old self.new }
        ensures taken { OnOk result (length self.new.octets + 1 + least ≤ length self.old.octets) }
    {
        if self.left.len() < 1 {
            return Err(self.refuse(Why::Short));
        }
        let count = self.left[0];
        if count < least || most < count {
            return Err(self.refuse(Why::Value));
        }
        let behind = &self.left[1..];
        if behind.len() < count as usize {
            return Err(Refusal {
                at: self.at + 1,
                why: Why::Short,
            });
        }
        self.skip(count as u16 + 1);
        Ok(&behind[..count as usize])
    }

    /// All octets that are left. `Short` at the place where fewer than `least` are left, `Long` at the place and
    /// `most` where more than `most` are.
    pub fn rest(&mut self, least: u16, most: u16) -> Result<&'a [u8], Refusal>
        ensures gives { Gives (λ octets. octets.now) result (rest_at least most self.old) }
        ensures taken { OnOk result (self.new ≡ record { at = self.old.at + length self.old.octets; octets = [] }) }
        ensures unchanged { OnErr result (self.new ≡ self.old) }
    {
        if self.left() < least {
            return Err(self.refuse(Why::Short));
        }
        if self.left() > most {
            return Err(Refusal {
                at: self.at + most,
                why: Why::Long,
            });
        }
        let octets = self.left;
        self.skip(octets.len() as u16);
        Ok(octets)
    }

    /// That no octet is left. `Long` at the place where one is.
    pub fn end(&self) -> Result<(), Refusal>
        ensures { Gives (λ _. ([], [])) result (nothing_left self.now) }
    {
        if self.left.is_empty() {
            Ok(())
        } else {
            Err(self.refuse(Why::Long))
        }
    }

    /// An opcode: one octet, or two where the first is 80 to BF. `Short` at the first where one of them lacks.
    #[tactic(auto, unfolding(mu_model_wire::specs::Reading::opcode_at, mu_model_wire::specs::Reading::word_at))]
    pub fn opcode(&mut self) -> Result<u16, Refusal>
        ensures reads { Leaves result (opcode_at self.old) self.old self.new }
        ensures taken { OnOk result (length self.new.octets < length self.old.octets) }
        ensures wide { IfOk result (λ opcode. 256 ≤ opcode → length self.new.octets + 2 ≡ length self.old.octets) }
    {
        if self.left.len() < 1 {
            return Err(self.refuse(Why::Short));
        }
        let first = self.left[0];
        if first < 0x80 || first > 0xBF {
            self.skip(1);
            return Ok(first as u16);
        }
        if self.left.len() < 2 {
            return Err(self.refuse(Why::Short));
        }
        let second = self.left[1];
        self.skip(2);
        Ok(first as u16 * 256 + second as u16)
    }

    /// The refusal at this place.
    pub fn refuse(&self, why: Why) -> Refusal
        ensures { result ≡ record { at = self.now.at; why = why } }
    {
        Refusal { at: self.at, why }
    }

    fn skip(&mut self, count: u16)
        requires { count ≤ length self.old.octets }
        ensures { self.new ≡ after count self.old }
    {
        self.left = &self.left[count as usize..];
        self.at += count;
    }
}
