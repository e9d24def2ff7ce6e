//! Laws of the definitions: functions that do nothing, whose contracts are proved.

ghost use Rattle.mu_model_script.specs.Laws.{PrintedNumberIsRead, NumberHasOneText, PiecesAreTheOctets, NoPieceHasTheSeparator, PrintedAddressIsRead, PrintedOctetsAreRead, EventIsInRange, ScriptEventIsInRange, NodeLinesAreTheSame};

/// A number is read from the text that is printed of it, and from no other.
pub fn number_has_one_text()
    ensures read { PrintedNumberIsRead }
    ensures only { NumberHasOneText }
{}

/// What stands between the separators, joined by them, is the whole, and none of it has a separator in it.
pub fn pieces_are_the_octets()
    ensures joined { PiecesAreTheOctets }
    ensures without { NoPieceHasTheSeparator }
{}

/// An address is read from the text that is printed of it.
pub fn printed_address_is_read()
    ensures { PrintedAddressIsRead }
{}

/// Octets are read from the text that is printed of them.
pub fn printed_octets_are_read()
    ensures { PrintedOctetsAreRead }
{}

/// An event that is read from a line has its fields in their ranges.
pub fn event_is_in_range()
    ensures { EventIsInRange }
{}

/// The same of a script with updaters and distributors, in which the lines of nodes say what they say by themselves.
pub fn script_event_is_in_range()
    ensures range { ScriptEventIsInRange }
    ensures same { NodeLinesAreTheSame }
{}
