ghost use Rattle.std.specs.Prelude.{◌≡◌, ◌≤◌, [], length, IfOk};
ghost use Rattle.mu_model_script.specs.Pieces.{tokens_of};
ghost use Rattle.mu_model_script.specs.Tokens.{Number, Octets, Image, Bits, unicast, group_or_none, destination, number_in, octets_up_to, image, pattern};
ghost use Rattle.mu_model_script.specs.Lines.{next_token, nothing_left, value_at};
ghost use Rattle.mu_script.specs.Cursor.{Reads, Gives, token_seen};
ghost use Rattle.mu_script.specs.View.{content};

use crate::events::Content;
use crate::octets::{address, cut, image, number, octets, pattern};
use arrayvec::ArrayVec;
use mu_codec::{is_group, is_unicast};
use mu_model_flash::Pattern;
use mu_model_script::{LineFault, LineWhy};
use std::marker::Model;

/// A token, and the place of its first octet in the line.
#[derive(Clone, Copy)]
pub(crate) struct Token<'a> {
    pub(crate) at: u16,
    pub(crate) octets: &'a [u8],
}

impl<'a> Token<'a> {
    /// The refusal at this token.
    pub(crate) fn fault(&self) -> LineFault
        ensures { result ≡ record { at = self.now.at; why = LineWhy.Token } }
    {
        LineFault {
            at: self.at,
            why: LineWhy::Token,
        }
    }
}

/// The tokens of a line that are left to read.
#[derive(Drop)]
pub(crate) struct Tokens<'a> {
    left: Option<&'a [u8]>,
    at: u16,
    end: u16,
}

impl<'a> Model for Tokens<'a> {
    ghost use Rattle.std.specs.Prelude.{◌+◌, ◌≤◌};
    ghost use Rattle.std.specs.Option.{option_copied};
    ghost use Rattle.mu_model_script.specs.Lines.{Left};
    ghost use Rattle.mu_model_script.specs.Pieces.{placed, blank};
    ghost use Rattle.mu_script.specs.Cursor.{pieces_behind, length_behind};

    ghost Value = { Left };

    ghost view = { λ t. record { tokens = placed t.at (pieces_behind blank (option_copied t.left)); end = t.end } };

    ghost invariant = { λ t. (t.at + length_behind (option_copied t.left) ≤ t.end + 1) × (t.end ≤ 4096) };
}

impl<'a> Tokens<'a> {
    /// The tokens of a line.
    pub(crate) fn new(line: &'a [u8]) -> Tokens<'a>
        requires { length line.now ≤ 4096 }
        ensures { result ≡ record { tokens = tokens_of line.now; end = length line.now } }
    {
        Tokens {
            left: Some(line),
            at: 0,
            end: line.len() as u16,
        }
    }

    /// The next token.
    pub(crate) fn next(&mut self) -> Result<Token<'a>, LineFault>
        ensures { Reads token_seen result (next_token self.old.tokens self.old.end) self.new }
    {
        let Some(octets) = self.left else {
            return Err(LineFault {
                at: self.end,
                why: LineWhy::Token,
            });
        };
        let (octets, left) = cut(octets, b' ');
        let token = Token {
            at: self.at,
            octets,
        };
        if left.is_some() {
            self.at += octets.len() as u16 + 1;
        }
        self.left = left;
        Ok(token)
    }

    /// A unicast address.
    #[tactic(auto, unfolding(mu_model_script::specs::Lines::value_at))]
    pub(crate) fn unicast(&mut self) -> Result<u16, LineFault>
        ensures { Reads Number result (value_at unicast self.old) self.new }
    {
        let token = self.next()?;
        match address(token.octets) {
            Some(address) if is_unicast(address) => Ok(address),
            _ => Err(token.fault()),
        }
    }

    /// A group, or 0 for none.
    #[tactic(auto, unfolding(mu_model_script::specs::Lines::value_at))]
    pub(crate) fn group_or_none(&mut self) -> Result<u16, LineFault>
        ensures { Reads Number result (value_at group_or_none self.old) self.new }
    {
        let token = self.next()?;
        match address(token.octets) {
            Some(address) if address == 0 || is_group(address) => Ok(address),
            _ => Err(token.fault()),
        }
    }

    /// A unicast address or a group.
    #[tactic(auto, unfolding(mu_model_script::specs::Lines::value_at))]
    pub(crate) fn destination(&mut self) -> Result<u16, LineFault>
        ensures { Reads Number result (value_at destination self.old) self.new }
    {
        let token = self.next()?;
        match address(token.octets) {
            Some(address) if is_unicast(address) || is_group(address) => Ok(address),
            _ => Err(token.fault()),
        }
    }

    /// A number in a range.
    #[tactic(auto, unfolding(mu_model_script::specs::Lines::value_at))]
    pub(crate) fn number(&mut self, least: u64, most: u64) -> Result<u64, LineFault>
        ensures reads { Reads Number result (value_at (number_in least most) self.old) self.new }
        ensures within { IfOk result (λ n. n ≤ most) }
    {
        let token = self.next()?;
        match number(token.octets, least, most) {
            Some(number) => Ok(number),
            None => Err(token.fault()),
        }
    }

    /// A number of pages.
    pub(crate) fn pages(&mut self) -> Result<u16, LineFault>
        ensures { Reads Number result (value_at (number_in 1 256) self.old) self.new }
    {
        Ok(self.number(1, 256)? as u16)
    }

    /// An image's version.
    pub(crate) fn version(&mut self) -> Result<u32, LineFault>
        ensures { Reads Number result (value_at (number_in 0 4294967295) self.old) self.new }
    {
        Ok(self.number(0, u32::MAX as u64)? as u32)
    }

    /// Octets in hexadecimal, 1 to as many as there is room for.
    #[tactic(auto, unfolding(mu_model_script::specs::Lines::value_at))]
    pub(crate) fn octets_up_to<const N: usize>(&mut self) -> Result<ArrayVec<u8, N>, LineFault>
        ensures { Reads (λ v. Octets v.items) result (value_at (octets_up_to N) self.old) self.new }
    {
        let token = self.next()?;
        match octets(token.octets) {
            Some(octets) => Ok(octets),
            None => Err(token.fault()),
        }
    }

    /// An image.
    #[tactic(auto, unfolding(mu_model_script::specs::Lines::value_at))]
    pub(crate) fn image(&mut self) -> Result<Content, LineFault>
        ensures { Reads (λ c. Image (content c)) result (value_at image self.old) self.new }
    {
        let token = self.next()?;
        match image(token.octets) {
            Some(content) => Ok(content),
            None => Err(token.fault()),
        }
    }

    /// A pattern.
    #[tactic(auto, unfolding(mu_model_script::specs::Lines::value_at))]
    pub(crate) fn pattern(&mut self) -> Result<Pattern, LineFault>
        ensures { Reads Bits result (value_at pattern self.old) self.new }
    {
        let token = self.next()?;
        match pattern(token.octets) {
            Some(pattern) => Ok(pattern),
            None => Err(token.fault()),
        }
    }

    /// That no token is left.
    pub(crate) fn end(&self) -> Result<(), LineFault>
        ensures { Gives (λ _. []) result (nothing_left self.now.tokens) }
    {
        match self.left {
            None => Ok(()),
            Some(_) => Err(LineFault {
                at: self.at,
                why: LineWhy::Token,
            }),
        }
    }
}
