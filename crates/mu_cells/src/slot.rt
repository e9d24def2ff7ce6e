// Slots of control pages.
ghost use Rattle.std.specs.Prelude.{◌≡◌, ◌+◌, ◌*◌, ◌<◌, ◌≤◌, ◌^◌, [], ◌∷◌, length, IsTrue, IfOk, MatchOption, Result};
ghost use Rattle.mu_model_flash.specs.Bits.{blank, written};
ghost use Rattle.mu_model_flash.specs.Cause.{HasCause};
ghost use Rattle.mu_model_flash.specs.Flash.{Unchanged};
ghost use Rattle.mu_model_flash.specs.Run.{exact, either, Runs};
ghost use Rattle.mu_model_record.specs.Code.{coded, IsCodeWord, content_of};
ghost use Rattle.mu_model_record.specs.Page.{page_of, slot_of, slot_place, CanWriteSlot, slot_word};
ghost use Rattle.mu_model_record.specs.Turns.{before, after, SlotTurns, NoOtherWord};

use crate::code::{decode, encode};
use crate::page::PAGE;
use crate::ways::Ways;
use mu_model_flash::laws::{ranges_of_octets, runs};
use mu_model_record::laws::{code_words, turns};
use mu_outside::{Failed, Flash};

const SLOT: u32 = 1024;

/// Writes a slot that reads FF: one program of the coded octets. The page is below 1,048,576, the slot below 4.
pub fn write_slot<F: Flash>(
    flash: &mut F,
    page: u32,
    slot: u8,
    octets: &[u8; 512],
) -> Result<(), Failed>
    requires within { page < (F.seen flash.old).pages }
    requires few { page < 2 ^ 20 }
    requires one_of_four { slot < 4 }
    requires is_blank { IsTrue (F.seen flash.old).told → slot_of (F.seen flash.old).octets page slot ≡ blank 1024 }
    ensures operations { Runs exact (F.seen flash.old).octets (written (F.seen flash.old).octets (slot_place page slot) (coded octets.now) ∷ []) (F.seen flash.old) (F.seen flash.new) result }

    // In every image the slot is no code word, or holds the new octets.
    ensures cuts { Runs (either (SlotTurns (F.seen flash.old).octets page slot octets.now)) before (after ∷ []) (F.seen flash.old) (F.seen flash.new) result }

    // So there is no word that wasn't there but the new one.
    ensures words { (IsTrue (F.seen flash.old).told → CanWriteSlot (page_of (F.seen flash.old).octets page) slot)
        → Runs (either (NoOtherWord (F.seen flash.old).octets page (slot_word slot octets.now))) tt (tt ∷ []) (F.seen flash.old) (F.seen flash.new) result }
    ensures cause { HasCause (F.seen flash.old).faults (F.seen flash.new).faults result }
{
    ranges_of_octets();
    runs::<Ways<F>>();
    code_words();
    turns();
    let mut word = [0; 1024];
    encode(octets, &mut word);
    flash.program(PAGE * page + SLOT * slot as u32, &word)
}

/// The content of a slot that is a code word, or none. It begins no operation. The page is below 1,048,576, the slot below 4.
pub fn read_slot<F: Flash>(flash: &mut F, page: u32, slot: u8) -> Result<Option<[u8; 512]>, Failed>
    requires within { page < (F.seen flash.old).pages }
    requires few { page < 2 ^ 20 }
    requires one_of_four { slot < 4 }
    ensures content { IsTrue (F.seen flash.old).told → IfOk result (λ found. MatchOption found
        (¬ IsCodeWord (slot_of (F.seen flash.old).octets page slot))
        (λ octets. IsCodeWord (slot_of (F.seen flash.old).octets page slot) × (octets ≡ content_of (slot_of (F.seen flash.old).octets page slot)))) }
    ensures same { Unchanged (F.seen flash.old) (F.seen flash.new) }
    ensures operations { Runs exact (F.seen flash.old).octets [] (F.seen flash.old) (F.seen flash.new) result }
    ensures cause { HasCause (F.seen flash.old).faults (F.seen flash.new).faults result }
{
    ranges_of_octets();
    let mut word = [0; 1024];
    flash.read(PAGE * page + SLOT * slot as u32, &mut word)?;
    let mut octets = [0; 512];
    if decode(&word, &mut octets) {
        Ok(Some(octets))
    } else {
        Ok(None)
    }
}
