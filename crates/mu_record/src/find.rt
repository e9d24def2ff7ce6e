// The present record of a store, found on the control pages.
ghost use Rattle.std.specs.Prelude.{◌≡◌, ◌≢◌, ◌+◌, ◌*◌, ◌<◌, ◌≤◌, ◌++◌, ◌^◌, false, IsTrue, IfOk, OnOk, Option, Result, length};
ghost use Rattle.mu_model_flash.specs.Flash.{Unchanged};
ghost use Rattle.mu_model_record.specs.Code.{IsCodeWord, content_of};
ghost use Rattle.mu_model_record.specs.Page.{page_of, slot_of, slot_in, IsLong};
ghost use Rattle.mu_model_record.specs.Record.{zeros};
ghost use Rattle.mu_record.specs.Found.{found_with, FoundBefore, IsFound, IsSoundFound};
ghost use Rattle.mu_record.specs.Reads.{ReadsOnly};

use crate::entry::put;
use crate::octets::{no_octets, record_from};
use mu_cells::{Ways, read_page, read_slot};
use mu_model_flash::laws::runs;
use mu_model_record::Record;
use mu_model_record::laws::pages_of_a_flash;
use mu_outside::{Failed, Flash};

const LONG: u8 = 1;

const SHORT: u8 = 2;

/// What the control pages have: no word, a word that is no record of its place, or the present record with its page.
#[derive(Clone, Copy, Debug, PartialEq, Eq)]
pub enum Found {
    Blank,
    Foreign,
    Present { page: u32, fields: Record },
}

impl Found {
    // With a word that was read next, which is this record or none.
    fn with(self, page: u32, fields: Option<Record>) -> Found
        ensures { result ≡ found_with self page fields }
    {
        let Some(next) = fields else {
            return Found::Foreign;
        };
        match self {
            Found::Blank => Found::Present { page, fields: next },
            Found::Foreign => Found::Foreign,
            Found::Present {
                page: before,
                fields: best,
            } => {
                if best.count < next.count {
                    Found::Present { page, fields: next }
                } else {
                    Found::Present {
                        page: before,
                        fields: best,
                    }
                }
            }
        }
    }
}

// The octets of a short record, as those of a record.
fn widened(slot: &[u8; 512]) -> [u8; 2048]
    ensures { result ≡ slot.now ++ zeros 1536 }
{
    let mut octets = no_octets();
    put(&mut octets, 0, slot);
    octets
}

// Goes through the slots of a control page whose first word is short, and is read already.
fn scan_slots<F: Flash>(
    flash: &mut F,
    page: u32,
    first: &[u8; 512],
    before: Found,
) -> Result<Found, Failed>
    requires within { page < (F.seen flash.old).pages }
    requires control { page < 2 }
    requires short { IsTrue (F.seen flash.old).told → IsCodeWord (slot_in (page_of (F.seen flash.old).octets page) 0) × ¬ IsLong (page_of (F.seen flash.old).octets page) }
    requires first { IsTrue (F.seen flash.old).told → first.now ≡ content_of (slot_of (F.seen flash.old).octets page 0) }
    requires found { IsTrue (F.seen flash.old).told → FoundBefore (F.seen flash.old).octets page 0 before }
    requires sound { IsSoundFound before }
    ensures found { IsTrue (F.seen flash.old).told → IfOk result (FoundBefore (F.seen flash.old).octets page 4) }
    ensures sound { IfOk result IsSoundFound }
    ensures reads { ReadsOnly (F.seen flash.old) (F.seen flash.new) result }
{
    runs::<Ways<F>>();
    pages_of_a_flash();
    let mut found = before.with(page, record_from(&widened(first), SHORT));
    for slot in 1..4u8 {
        if let Some(octets) = read_slot(flash, page, slot)? {
            found = found.with(page, record_from(&widened(&octets), SHORT));
        }
    }
    Ok(found)
}

// Goes through the words of a control page.
fn scan_page<F: Flash>(flash: &mut F, page: u32, before: Found) -> Result<Found, Failed>
    requires within { page < (F.seen flash.old).pages }
    requires control { page < 2 }
    requires found { IsTrue (F.seen flash.old).told → FoundBefore (F.seen flash.old).octets page 0 before }
    requires sound { IsSoundFound before }
    ensures found { IsTrue (F.seen flash.old).told → IfOk result (FoundBefore (F.seen flash.old).octets page 4) }
    ensures sound { IfOk result IsSoundFound }
    ensures on { OnOk result ((F.seen flash.old).off ≡ false) }
    ensures reads { ReadsOnly (F.seen flash.old) (F.seen flash.new) result }
{
    pages_of_a_flash();
    let Some(first) = read_slot(flash, page, 0)? else {
        return Ok(before);
    };
    if first[4] != LONG {
        return scan_slots(flash, page, &first, before);
    }
    match read_page(flash, page)? {
        Some(octets) => Ok(before.with(page, record_from(&octets, LONG))),
        None => Ok(before),
    }
}

/// Finds the present record: of the words of the control pages the one with the greatest count, of equal ones the one that comes first.
/// It begins no operation.
pub fn find_present<F: Flash>(flash: &mut F) -> Result<Found, Failed>
    ensures found { IsTrue (F.seen flash.old).told → IfOk result (IsFound (F.seen flash.old).octets) }
    ensures sound { IfOk result IsSoundFound }
    ensures on { 0 < (F.seen flash.old).pages → OnOk result ((F.seen flash.old).off ≡ false) }
    ensures reads { ReadsOnly (F.seen flash.old) (F.seen flash.new) result }
{
    runs::<Ways<F>>();
    let mut found = Found::Blank;
    let pages = flash.pages().min(2);
    for page in 0..pages {
        found = scan_page(flash, page, found)?;
    }
    Ok(found)
}
