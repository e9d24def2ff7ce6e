//! Tables of payloads for every message of the three models: what is written and shown for them, or where and why they
//! are refused. They are worked out from the rows of the messages and not by the program, and the tests hold the
//! program against them.
#![tactic(auto)]

pub mod blob;
pub mod distribution;
pub mod opcodes;
#[cfg(test)]
mod shown;
#[cfg(test)]
mod tests;
pub mod update;

use mu_codec::Why;

/// A payload that is a message.
pub struct Vector {
    /// The payload. Its unused bits may be set.
    pub octets: &'static [u8],
    /// The payload that is written for the message: its unused bits are 0.
    pub canonical: &'static [u8],
    /// The line that shows the message, with its line feed.
    pub shown: &'static [u8],
}

/// A payload that is refused, the place in octets at which it is, and the cause.
pub type Refused = (&'static [u8], u16, Why);

/// A payload that is a message of the greatest length: its head, and then as many of the repeated octets, again and
/// again, as make up the length. One more of them is refused at the place where it stands.
pub struct Longest {
    /// The first octets.
    pub head: &'static [u8],
    /// The octets that are repeated, at least one.
    pub repeated: &'static [u8],
    /// The greatest length in octets, at most 380.
    pub length: u16,
    /// The cause for which one more octet is refused.
    pub past: Why,
}
