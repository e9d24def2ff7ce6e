//! What a script is: its lines, what each of them says, and every text that a script's run writes.
#![tactic(auto)]

mod laws;

pub use laws::{
    event_is_in_range, number_has_one_text, pieces_are_the_octets, printed_address_is_read,
    printed_octets_are_read, script_event_is_in_range,
};
use thiserror::Error;

/// Why a line by itself is no line of a script (this profile).
#[derive(Clone, Copy, Debug, PartialEq, Eq)]
pub enum LineWhy {
    /// The line isn't of a form of the grammar, or a number is out of its range.
    Token,
    /// The line has more than 4,096 octets.
    Long,
}

/// The first place at which a line is no line of a script: the first octet of the token that shows it,
/// the line's length where the token lacks, 4,096 in a line that is too long.
#[derive(Clone, Copy, Debug, PartialEq, Eq, Error)]
#[error("{why:?} at {at}")]
pub struct LineFault {
    pub at: u16,
    pub why: LineWhy,
}

/// Why a line that is well formed can't be done in the world as it is (this profile).
#[derive(Clone, Copy, Debug, PartialEq, Eq)]
pub enum BadWhy {
    /// The content is larger than the bank.
    Token,
    /// An address is used twice, is unknown or is of the wrong kind; a member line comes too late; or there would be
    /// too many members.
    Member,
    /// There is no such packet, or the member is no addressee of it.
    Packet,
    /// The packet can't be a stranger's.
    Premise,
}
