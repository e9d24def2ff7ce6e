//! Laws of code words and control pages: functions that do nothing, whose contracts are proved.
ghost use Rattle.mu_model_record.specs.Laws.{CodedIsReadBack, CodeWordsAreCoded, CodedHasItsLength, OneOctetIsOnePair, PairsMakeACodeWord, ContentIsEveryFirst, PairOfOnesIsNoCodeWord, TornEraseFades, FadedHasNoNewWord, FadedIsSafe, WrittenPageHasItsWord, TornPageIsWholeOrDead, WrittenSlotHasItsWord, WrittenSlotIsSafe, TurnsOfAPage, TurnsOfASlot, SlotsOfAPage};
ghost use Rattle.mu_model_record.specs.TurnLaws.{EraseLaws, WholePageLaws, SlotLaws, MarkLaw};
ghost use Rattle.mu_model_record.specs.ChangeLaws.{NextRecordLaws, NextStateLaws, PlaceLaws, BlockLaws};
ghost use Rattle.mu_model_record.specs.NextLaws.{NextOnOtherPage, NextInNextSlot, FirstRecordLaws};
ghost use Rattle.mu_model_record.specs.StoreLaws.{OctetsSpellOneRecord, WordIsOfOneRecord, PresentRecordIsOne, RepresentedStateIsOne, RepresentedIsPresent, OneThingIsFound, RepresentedIsFound, FreeRangeMayChange};

use mu_model_flash::laws::ranges_of_octets;

/// Code words and their contents are one to one, and a pair of ones is in none.
pub fn code_words()
    ensures read_back { CodedIsReadBack }
    ensures coded { CodeWordsAreCoded }
    ensures length { CodedHasItsLength }
    ensures one_more { OneOctetIsOnePair }
    ensures pairs { PairsMakeACodeWord }
    ensures content { ContentIsEveryFirst }
    ensures no_pair { PairOfOnesIsNoCodeWord }
{}

/// A torn erase of a control page gives it no word that it hadn't.
pub fn torn_erase()
    ensures fades { TornEraseFades }
    ensures no_new_word { FadedHasNoNewWord }
    ensures safe { FadedIsSafe }
{
    ranges_of_octets();
}

/// A control page that is written whole has that word alone, and no word before it has all of it.
pub fn written_page()
    ensures its_word { WrittenPageHasItsWord }
    ensures torn { TornPageIsWholeOrDead }
{
    ranges_of_octets();
}

/// A slot that is written gives its page that word alone.
pub fn written_slot()
    ensures its_word { WrittenSlotHasItsWord }
    ensures safe { WrittenSlotIsSafe }
{
    ranges_of_octets();
}

/// What an operation leaves of a flash is what it leaves of the page.
pub fn pages_of_a_flash()
    ensures page { TurnsOfAPage }
    ensures slot { TurnsOfASlot }
    ensures slots { SlotsOfAPage }
{
    ranges_of_octets();
}

/// What an operation on a control page, a slot or a mark leaves of the octets of a flash, whole or cut short.
pub fn turns()
    ensures erase { EraseLaws }
    ensures page { WholePageLaws }
    ensures slot { SlotLaws }
    ensures mark { MarkLaw }
{
    ranges_of_octets();
}

/// Octets are those of one record.
pub fn records()
    ensures octets { OctetsSpellOneRecord }
    ensures word { WordIsOfOneRecord }
{}

/// Octets of a flash have one present record, represent one state of a store, and are one of blank, foreign, damaged and a store, at most.
pub fn stores()
    ensures present { PresentRecordIsOne }
    ensures state { RepresentedStateIsOne }
    ensures represented { RepresentedIsPresent }
    ensures found { OneThingIsFound }
    ensures is_found { RepresentedIsFound }
    ensures free { FreeRangeMayChange }
{
    ranges_of_octets();
}

/// Whatever the operations of a record leave of the control pages, whole or cut short, has the state before it or the state after it.
pub fn next_records()
    ensures other_page { NextOnOtherPage }
    ensures next_slot { NextInNextSlot }
    ensures first { FirstRecordLaws }
{
    ranges_of_octets();
}

/// The states that the calls on a store give are next ones, and what lies outside a change stays.
pub fn changes()
    ensures records { NextRecordLaws }
    ensures states { NextStateLaws }
    ensures places { PlaceLaws }
    ensures blocks { BlockLaws }
{
    ranges_of_octets();
}
