// Marks: one octet of a page, FF or FE.
ghost use Rattle.std.specs.Prelude.{◌≡◌, ◌+◌, ◌*◌, ◌<◌, ◌≤◌, ◌^◌, [], ◌∷◌, length, slice_index, IsTrue, IfOk, Result};
ghost use Rattle.mu_model_flash.specs.Bits.{written};
ghost use Rattle.mu_model_flash.specs.Cause.{HasCause};
ghost use Rattle.mu_model_flash.specs.Flash.{Unchanged};
ghost use Rattle.mu_model_flash.specs.Run.{exact, either, Runs};
ghost use Rattle.mu_model_record.specs.Turns.{before, after, MarkTurns};
ghost use Rattle.mu_cells.specs.Mark.{mark_of};

use crate::ways::Ways;
use mu_model_flash::laws::{ranges_of_octets, runs};
use mu_model_record::laws::turns;
use mu_outside::{Failed, Flash};

/// What an octet is as a mark: `Unset` is FF, `Set` is FE.
#[derive(Clone, Copy, Debug, PartialEq, Eq)]
pub enum Mark {
    Unset,
    Set,
    Other,
}

impl Mark {
    /// What an octet is as a mark.
    pub fn of(octet: u8) -> Mark
        ensures { result ≡ mark_of octet }
    {
        match octet {
            0xFF => Mark::Unset,
            0xFE => Mark::Set,
            _ => Mark::Other,
        }
    }
}

/// Sets the mark at a place that reads FF: one program of the octet FE. The page of the place is below 1,048,576.
pub fn write_mark<F: Flash>(flash: &mut F, at: u32) -> Result<(), Failed>
    requires within { at < 4096 * (F.seen flash.old).pages }
    requires is_unset { IsTrue (F.seen flash.old).told → slice_index (F.seen flash.old).octets at ≡ 255 }
    ensures operations { Runs exact (F.seen flash.old).octets (written (F.seen flash.old).octets at (254 ∷ []) ∷ []) (F.seen flash.old) (F.seen flash.new) result }

    // In every image the mark is as it was or set, and all else is as it was.
    ensures cuts { Runs (either (MarkTurns (F.seen flash.old).octets at)) before (after ∷ []) (F.seen flash.old) (F.seen flash.new) result }
    ensures cause { HasCause (F.seen flash.old).faults (F.seen flash.new).faults result }
{
    ranges_of_octets();
    runs::<Ways<F>>();
    turns();
    flash.program(at, &[0xFE])
}

/// The mark at a place. It begins no operation. The page of the place is below 1,048,576.
pub fn read_mark<F: Flash>(flash: &mut F, at: u32) -> Result<Mark, Failed>
    requires within { at < 4096 * (F.seen flash.old).pages }
    ensures mark { IsTrue (F.seen flash.old).told → IfOk result (λ mark. mark ≡ mark_of (slice_index (F.seen flash.old).octets at)) }
    ensures same { Unchanged (F.seen flash.old) (F.seen flash.new) }
    ensures operations { Runs exact (F.seen flash.old).octets [] (F.seen flash.old) (F.seen flash.new) result }
    ensures cause { HasCause (F.seen flash.old).faults (F.seen flash.new).faults result }
{
    let mut octet = [0];
    flash.read(at, &mut octet)?;
    Ok(Mark::of(octet[0]))
}
