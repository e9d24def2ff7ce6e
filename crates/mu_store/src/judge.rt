// What a flash holds, read as a whole.
ghost use Rattle.std.specs.Prelude.{◌≡◌, ◌+◌, ◌*◌, ◌<◌, ◌≤◌, IsTrue, IfOk, MatchOption, Result, length, false, ℕ};
ghost use Rattle.mu_model_record.specs.Page.{Word};
ghost use Rattle.mu_model_record.specs.Record.{IsRecord};
ghost use Rattle.mu_model_record.specs.Store.{pages_of};
ghost use Rattle.mu_model_record.specs.Kinds.{IsPresent, AreMarks};
ghost use Rattle.mu_record.specs.Reads.{ReadsOnly};
ghost use Rattle.mu_store.specs.Judged.{IsJudged, IsSoundJudged, IsSoundMarks, AreMarksOf};

use crate::digest::{Damage, find_damage};
use crate::marks::{filling_of, read_marks};
use mu_arith::block_count;
use mu_outside::{Failed, Flash};
use mu_record::{Found, Record, find_present};

// The blocks that are held of the bank that is being filled.
#[derive(Clone, Copy)]
pub(crate) struct Marks {
    pub(crate) bank: u8,
    pub(crate) size: u32,
    pub(crate) log: u8,
    pub(crate) held: [bool; 256],
}

// What a boot finds.
#[derive(Clone, Copy)]
pub(crate) enum Judged {
    Blank,
    Foreign,
    Damaged(Damage),
    Whole {
        page: u32,
        fields: Record,
        marks: Option<Marks>,
    },
}

// The pages of a flash with this record.
pub(crate) fn pages_of(fields: &Record) -> u32
    requires { IsRecord fields.now }
    ensures { result ≡ pages_of fields.now }
{
    2 + fields.number as u32 * (1 + fields.pages as u32)
}

// The blocks that are held of the bank that is being filled, if one is; none where a mark is neither FF nor FE.
fn find_marks<F: Flash>(flash: &mut F, fields: &Record) -> Result<Option<Option<Marks>>, Failed>
    requires in_range { IsRecord fields.now }
    requires pages { (F.seen flash.old).pages ≡ pages_of fields.now }
    ensures marks { IsTrue (F.seen flash.old).told → IfOk result (λ found. MatchOption found (¬ AreMarks fields.now (F.seen flash.old).octets)
        (λ marks. AreMarks fields.now (F.seen flash.old).octets × AreMarksOf marks (F.seen flash.old).octets)) }
    ensures sound { IfOk result (λ found. MatchOption found (Unit {0}) (IsSoundMarks fields.now)) }
    ensures reads { ReadsOnly (F.seen flash.old) (F.seen flash.new) result }
{
    let Some((bank, size, log)) = filling_of(fields) else {
        return Ok(Some(None));
    };
    match read_marks(flash, bank, block_count(size, log))? {
        None => Ok(None),
        Some(held) => Ok(Some(Some(Marks {
            bank,
            size,
            log,
            held,
        }))),
    }
}

// Looks at the pages, the marks and the banks by the present record.
fn judge_banks<F: Flash>(flash: &mut F, page: u32, fields: Record) -> Result<Judged, Failed>
    requires control { page < 2 }
    requires in_range { IsRecord fields }
    requires present { IsTrue (F.seen flash.old).told → (word : Word) × IsPresent (F.seen flash.old).octets page word fields }
    requires on { 0 < (F.seen flash.old).pages → (F.seen flash.old).off ≡ false }
    ensures judged { IsTrue (F.seen flash.old).told → IfOk result (IsJudged (F.seen flash.old).octets) }
    ensures sound { IfOk result (IsSoundJudged (F.seen flash.old)) }
    ensures reads { ReadsOnly (F.seen flash.old) (F.seen flash.new) result }
{
    if flash.pages() != pages_of(&fields) {
        return Ok(Judged::Foreign);
    }
    let Some(marks) = find_marks(flash, &fields)? else {
        return Ok(Judged::Foreign);
    };
    match find_damage(flash, &fields)? {
        Some(damage) => Ok(Judged::Damaged(damage)),
        None => Ok(Judged::Whole {
            page,
            fields,
            marks,
        }),
    }
}

// Judges what a flash holds. It begins no operation.
pub(crate) fn judge<F: Flash>(flash: &mut F) -> Result<Judged, Failed>
    ensures judged { IsTrue (F.seen flash.old).told → IfOk result (IsJudged (F.seen flash.old).octets) }
    ensures sound { IfOk result (IsSoundJudged (F.seen flash.old)) }
    ensures reads { ReadsOnly (F.seen flash.old) (F.seen flash.new) result }
{
    match find_present(flash)? {
        Found::Blank => Ok(Judged::Blank),
        Found::Foreign => Ok(Judged::Foreign),
        Found::Present { page, fields } => judge_banks(flash, page, fields),
    }
}
