//! What names a set of missing blocks or chunks on the wire.

ghost use Rattle.mu_model_wire.specs.Reports.{MembersAreThose, MembersRise, ComplementHasTheOthers, ComplementHasTheRest, UnionHasBoth, ReportsNameOneSet, ReportsOfASetAreInOrder, ReportOfASetNamesIt, BitFieldIsOfItsSet, BitFieldsAreOctets, SpellingsAreLists, ListsAreRead, ListsHaveNoFault, ListFaultsAreOne, GrammarReadsLists, GrammarRefusesLists, NumbersFitTheGrammar, GrammarSpellsLists, NumbersHaveOctets};

use arrayvec::ArrayVec;

/// A report of missing numbers (MshMBT: the formats of Block Status).
#[derive(Debug, Drop, PartialEq, Eq)]
pub enum Report {
    /// Every number is missing.
    All,
    /// No number is missing.
    Nothing,
    /// The bit field of the missing numbers: number `i` is bit `i % 8` of octet `i / 8`.
    Bits(ArrayVec<u8, 374>),
    /// The missing numbers.
    List(ArrayVec<u16, 374>),
}

/// What is in a set, in its complement and in a union.
pub fn sets()
    ensures members { MembersAreThose }
    ensures rising { MembersRise }
    ensures complement { ComplementHasTheOthers }
    ensures partition { ComplementHasTheRest }
    ensures both { UnionHasBoth }
{}

/// A report names one set, and the report of a set names it.
pub fn reports()
    ensures one_set { ReportsNameOneSet }
    ensures in_order { ReportsOfASetAreInOrder }
    ensures of_a_set { ReportOfASetNamesIt }
{}

/// The bit field of a set is one of that set, and of octets.
pub fn bit_fields()
    ensures of_a_set { BitFieldIsOfItsSet }
    ensures octets { BitFieldsAreOctets }
{}

/// Octets are one list of patterns or have one fault, as the grammar reads them, and numbers are spelled by the grammar as
/// their list.
pub fn lists()
    ensures spelled { SpellingsAreLists }
    ensures one_list { ListsAreRead }
    ensures no_fault { ListsHaveNoFault }
    ensures one_fault { ListFaultsAreOne }
    ensures read { GrammarReadsLists }
    ensures refused { GrammarRefusesLists }
    ensures fits { NumbersFitTheGrammar }
    ensures spells { GrammarSpellsLists }
    ensures count { NumbersHaveOctets }
{}
