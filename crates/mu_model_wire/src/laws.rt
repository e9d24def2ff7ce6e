//! What holds of the grammar and of every table like it: functions that do nothing, whose contracts are laws.
ghost use Rattle.mu_model_wire.specs.Entries.{EntriesBegin, EntryIsRead, EntryIsRefused, EntriesEnd};
ghost use Rattle.mu_model_wire.specs.Found.{NumbersAreFound, OctetsAreFound, OptionalNumberIsFound, OptionalNumberHasOneName};
ghost use Rattle.mu_model_wire.specs.Opcodes.{OneOctetIsKept, TwoOctetsAreKept};
ghost use Rattle.mu_model_wire.specs.Laws.{GrammarHolds, ReadsWhatIsSpelled, CanonicalSpells, CanonicalIsRead, IsOneOrTheOther};

/// The grammar's rows can each be read back, and no two have one opcode.
pub fn grammar_holds()
    ensures { GrammarHolds }
{}

/// Octets are read as a message exactly where they spell it, whatever their unused bits are.
pub fn reads_what_is_spelled()
    ensures { ReadsWhatIsSpelled }
{}

/// The canonical octets of a message spell it.
pub fn canonical_spells()
    ensures { CanonicalSpells }
{}

/// The canonical octets of a message are read as it.
pub fn canonical_is_read()
    ensures { CanonicalIsRead }
{}

/// All octets are exactly one message or exactly one refusal.
pub fn is_one_or_the_other()
    ensures { IsOneOrTheOther }
{}

/// A list of entries is read entry by entry.
pub fn entries_are_read_in_turn()
    ensures begin { EntriesBegin }
    ensures read { EntryIsRead }
    ensures refused { EntryIsRefused }
    ensures end { EntriesEnd }
{}

/// What a message shows under a name is found again.
pub fn what_is_shown_is_found()
    ensures numbers { NumbersAreFound }
    ensures octets { OctetsAreFound }
    ensures own { OptionalNumberIsFound }
    ensures other { OptionalNumberHasOneName }
{}

/// Octets that begin with an opcode of one octet or of two are read as a message of it, or as none, by any table.
pub fn opcodes_are_kept()
    ensures one { OneOctetIsKept }
    ensures two { TwoOctetsAreKept }
{}
