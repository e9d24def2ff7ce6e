// Control pages that are written and read whole.
ghost use Rattle.std.specs.Prelude.{◌≡◌, ◌+◌, ◌*◌, ◌<◌, ◌≤◌, ◌^◌, [], ◌∷◌, length, slice_index, IsTrue, IfOk, MatchOption, Result};
ghost use Rattle.mu_model_flash.specs.Bits.{blank, written};
ghost use Rattle.mu_model_flash.specs.Cause.{HasCause};
ghost use Rattle.mu_model_flash.specs.Flash.{Unchanged};
ghost use Rattle.mu_model_flash.specs.Run.{exact, either, Runs};
ghost use Rattle.mu_model_record.specs.Code.{coded, IsCodeWord, content_of};
ghost use Rattle.mu_model_record.specs.Page.{page_of, format_of, page_word, IsSafePage};
ghost use Rattle.mu_model_record.specs.Turns.{before, after, PageErases, PageTurns, StaysOutside, NoNewWord, NoOtherWord};

use crate::code::{decode, encode};
use crate::ways::Ways;
use mu_model_flash::laws::{ranges_of_octets, runs};
use mu_model_record::laws::{code_words, turns};
use mu_outside::{Failed, Flash};

pub(crate) const PAGE: u32 = 4096;

/// Erases a control page: one operation. The page is below 1,048,576.
pub fn erase_page<F: Flash>(flash: &mut F, page: u32) -> Result<(), Failed>
    requires within { page < (F.seen flash.old).pages }
    requires few { page < 2 ^ 20 }
    ensures operations { Runs exact (F.seen flash.old).octets (written (F.seen flash.old).octets (4096 * page) (blank 4096) ∷ []) (F.seen flash.old) (F.seen flash.new) result }

    // In every image all octets outside the page are as before.
    ensures outside { Runs (either (StaysOutside (4096 * page) 4096 (F.seen flash.old).octets)) tt (tt ∷ []) (F.seen flash.old) (F.seen flash.new) result }

    // In every image each word of the page is as it was or gone; so there is no word that wasn't there.
    ensures cuts { (IsTrue (F.seen flash.old).told → IsSafePage (page_of (F.seen flash.old).octets page))
        → Runs (either (PageErases (F.seen flash.old).octets page)) before (after ∷ []) (F.seen flash.old) (F.seen flash.new) result }
    ensures words { (IsTrue (F.seen flash.old).told → IsSafePage (page_of (F.seen flash.old).octets page))
        → Runs (either (NoNewWord (F.seen flash.old).octets page)) tt (tt ∷ []) (F.seen flash.old) (F.seen flash.new) result }
    ensures cause { HasCause (F.seen flash.old).faults (F.seen flash.new).faults result }
{
    runs::<Ways<F>>();
    turns();
    flash.erase(page)
}

/// Writes a control page whole: one erase, and then one program of the coded octets. The page is below 1,048,576.
pub fn write_page<F: Flash>(flash: &mut F, page: u32, octets: &[u8; 2048]) -> Result<(), Failed>
    requires within { page < (F.seen flash.old).pages }
    requires few { page < 2 ^ 20 }

    // The two operations in order, and no others.
    ensures operations { Runs exact (F.seen flash.old).octets
        (written (F.seen flash.old).octets (4096 * page) (blank 4096) ∷ written (F.seen flash.old).octets (4096 * page) (coded octets.now) ∷ [])
        (F.seen flash.old) (F.seen flash.new) result }

    // In every image all octets outside the page are as before.
    ensures outside { Runs (either (StaysOutside (4096 * page) 4096 (F.seen flash.old).octets)) tt (tt ∷ tt ∷ []) (F.seen flash.old) (F.seen flash.new) result }

    // In every image each word of the page is as it was or gone, or there is none, or the page holds the new octets; so there is no word
    // that wasn't there but the new one. The octets are those of a long record.
    ensures cuts { (IsTrue (F.seen flash.old).told → IsSafePage (page_of (F.seen flash.old).octets page)) → format_of octets.now ≡ 1
        → Runs (either (PageTurns (F.seen flash.old).octets page octets.now)) before (before ∷ after ∷ []) (F.seen flash.old) (F.seen flash.new) result }
    ensures words { (IsTrue (F.seen flash.old).told → IsSafePage (page_of (F.seen flash.old).octets page)) → format_of octets.now ≡ 1
        → Runs (either (NoOtherWord (F.seen flash.old).octets page (page_word octets.now))) tt (tt ∷ tt ∷ []) (F.seen flash.old) (F.seen flash.new) result }
    ensures cause { HasCause (F.seen flash.old).faults (F.seen flash.new).faults result }
{
    ranges_of_octets();
    runs::<Ways<F>>();
    code_words();
    turns();
    let mut word = [0; 4096];
    encode(octets, &mut word);
    flash.erase(page)?;
    flash.program(PAGE * page, &word)
}

/// The content of a control page that is a code word, or none. It begins no operation. The page is below 1,048,576.
pub fn read_page<F: Flash>(flash: &mut F, page: u32) -> Result<Option<[u8; 2048]>, Failed>
    requires within { page < (F.seen flash.old).pages }
    requires few { page < 2 ^ 20 }
    ensures content { IsTrue (F.seen flash.old).told → IfOk result (λ found. MatchOption found
        (¬ IsCodeWord (page_of (F.seen flash.old).octets page))
        (λ octets. IsCodeWord (page_of (F.seen flash.old).octets page) × (octets ≡ content_of (page_of (F.seen flash.old).octets page)))) }
    ensures same { Unchanged (F.seen flash.old) (F.seen flash.new) }
    ensures operations { Runs exact (F.seen flash.old).octets [] (F.seen flash.old) (F.seen flash.new) result }
    ensures cause { HasCause (F.seen flash.old).faults (F.seen flash.new).faults result }
{
    ranges_of_octets();
    let mut word = [0; 4096];
    flash.read(PAGE * page, &mut word)?;
    let mut octets = [0; 2048];
    if decode(&word, &mut octets) {
        Ok(Some(octets))
    } else {
        Ok(None)
    }
}
