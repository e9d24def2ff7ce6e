//! Laws of the definitions: functions that do nothing, whose contracts are proved.

ghost use Rattle.mu_model_refusals.specs.Refusals.{SpellOrAreRefused, ValueIsOfItsField, BeginningsAreShort, LongIsPastTheEnd, MessagesEnd, ShortsLack, OpcodesAreTold, IsListOrFaulty};

use mu_model_wire::laws::{is_one_or_the_other, reads_what_is_spelled};
use mu_model_wire::patterns::number_patterns;

/// Octets spell one message that is in its ranges, or are refused at one place for one reason.
pub fn spell_or_are_refused()
    ensures { SpellOrAreRefused }
{
    is_one_or_the_other();
    reads_what_is_spelled();
}

/// A value that is out of its range is refused by the octets of its field and those before it.
pub fn value_is_of_its_field()
    ensures { ValueIsOfItsField }
{}

/// A beginning of a message is refused as too short or not at all; what is too long begins with a message that ends at the place, and octets behind a
/// message whose fields have their places are too many. What is too short lacks octets from a place on that is there, with fewer than 255 behind it.
pub fn lengths_are_told()
    ensures beginnings { BeginningsAreShort }
    ensures long { LongIsPastTheEnd }
    ensures end { MessagesEnd }
    ensures short { ShortsLack }
{}

/// An opcode is refused, at the first octet, exactly where it is whole and no row's, and the octets are 380 at most.
pub fn opcodes_are_told()
    ensures { OpcodesAreTold }
{}

/// Every list of octets is the patterns of one list of numbers, or has a first bad one.
pub fn lists_are_told()
    ensures { IsListOrFaulty }
{
    number_patterns();
}
