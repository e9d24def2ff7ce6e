// Pages that are erased or programmed in rising order.
ghost use Rattle.std.specs.Prelude.{◌≡◌, ◌+◌, ◌-◌, ◌*◌, ◌<◌, ◌≤◌, ◌^◌, false, IsTrue, OnOk, Result, length, replicate};
ghost use Rattle.mu_model_flash.specs.Bits.{blank, part_of, SameOutside};
ghost use Rattle.mu_model_flash.specs.Cause.{HasCause};
ghost use Rattle.mu_model_flash.specs.Run.{either, Keeps, Runs};
ghost use Rattle.mu_model_image.specs.Pieces.{piece_count};
ghost use Rattle.mu_model_record.specs.Turns.{StaysOutside};

use crate::laws::known;
use mu_cells::Ways;
use mu_model_flash::laws::runs;
use mu_outside::{Failed, Flash};

pub(crate) const PAGE: u32 = 4096;

// Erases so many pages: as many operations, and all outside them stays.
pub(crate) fn erase_pages<F: Flash>(flash: &mut F, first: u32, pages: u32) -> Result<(), Failed>
    requires { first + pages ≤ (F.seen flash.old).pages }
    ensures runs { (F.seen flash.old).off ≡ false
        → Runs (either (StaysOutside (4096 * first) (4096 * pages) (F.seen flash.old).octets)) tt (replicate pages tt) (F.seen flash.old) (F.seen flash.new) result }
    ensures outside { IsTrue (F.seen flash.old).told → OnOk result (SameOutside (4096 * first) (4096 * pages) (F.seen flash.old).octets (F.seen flash.new).octets) }
    ensures blank { IsTrue (F.seen flash.old).told → OnOk result (part_of (F.seen flash.new).octets (4096 * first) (4096 * pages) ≡ blank (4096 * pages)) }
    ensures keeps { Keeps (F.seen flash.old) (F.seen flash.new) }
    ensures cause { HasCause (F.seen flash.old).faults (F.seen flash.new).faults result }
{
    known();
    runs::<Ways<F>>();
    for page in 0..pages {
        flash.erase(first + page)?;
    }
    Ok(())
}

// Programs these octets from a page on, a page at a time: as many operations as they take pages, and all outside them stays.
pub(crate) fn program_pages<F: Flash>(
    flash: &mut F,
    first: u32,
    octets: &[u8],
) -> Result<(), Failed>
    requires few { length octets.now ≤ 16384 }
    requires within { 4096 * first + length octets.now ≤ 4096 * (F.seen flash.old).pages }
    requires low { first < 2 ^ 18 }
    requires is_blank { IsTrue (F.seen flash.old).told → part_of (F.seen flash.old).octets (4096 * first) (length octets.now) ≡ blank (length octets.now) }
    ensures runs { (F.seen flash.old).off ≡ false
        → Runs (either (StaysOutside (4096 * first) (length octets.now) (F.seen flash.old).octets)) tt (replicate (piece_count (length octets.now) 4096) tt) (F.seen flash.old) (F.seen flash.new) result }
    ensures outside { IsTrue (F.seen flash.old).told → OnOk result (SameOutside (4096 * first) (length octets.now) (F.seen flash.old).octets (F.seen flash.new).octets) }
    ensures put { IsTrue (F.seen flash.old).told → OnOk result (part_of (F.seen flash.new).octets (4096 * first) (length octets.now) ≡ octets.now) }
    ensures keeps { Keeps (F.seen flash.old) (F.seen flash.new) }
    ensures cause { HasCause (F.seen flash.old).faults (F.seen flash.new).faults result }
{
    known();
    runs::<Ways<F>>();
    let count = octets.len() as u32;
    for page in 0..count.div_ceil(PAGE) {
        let from = PAGE * page;
        let to = (from + PAGE).min(count);
        flash.program(PAGE * first + from, &octets[from as usize..to as usize])?;
    }
    Ok(())
}
