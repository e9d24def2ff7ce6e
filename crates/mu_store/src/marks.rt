// The marks of the bank that is being filled.
ghost use Rattle.std.specs.Prelude.{◌≡◌, ℕ, ◌+◌, ◌*◌, ◌<◌, ◌≤◌, ◌↔◌, IsTrue, IfOk, MatchOption, Result, length, take};
ghost use Rattle.std.specs.List.{All, count_by};
ghost use Rattle.mu_model_record.specs.declared.BankState.TheVariants.{Filling};
ghost use Rattle.mu_model_record.specs.Record.{IsRecord, IsFilling, entry_of};
ghost use Rattle.mu_record.specs.Reads.{ReadsOnly};
ghost use Rattle.mu_store.specs.Marks.{no_flags, AreFlags, HasOther, AreHeld, HasOtherMark};

use mu_cells::{Mark, Ways};
use mu_model_flash::laws::{ranges_of_octets, runs};
use mu_outside::{Failed, Flash};
use mu_record::{BankState, Record};

const PAGE: u32 = 4096;

// The bank that is Filling, with its size and log.
pub(crate) fn filling_of(fields: &Record) -> Option<(u8, u32, u8)>
    requires { IsRecord fields.now }
    ensures { MatchOption result ((b : ℕ) → ¬ IsFilling (entry_of fields.now b)) (λ found. (found.0 < fields.now.number) × (entry_of fields.now found.0 ≡ Filling found.1 found.2)) }
{
    for b in 0..4u8 {
        if let BankState::Filling { size, log } = fields.banks[b as usize] {
            return Some((b, size, log));
        }
    }
    None
}

// No block is held.
pub(crate) fn no_flags() -> [bool; 256]
    ensures { result ≡ no_flags }
{
    [false; 256]
}

// Which marks are set; none where one is neither FF nor FE.
fn flags_of(marks: &[u8]) -> Option<[bool; 256]>
    requires { length marks.now ≤ 256 }
    ensures { MatchOption result (HasOther marks.now) (AreFlags marks.now) }
{
    let mut held = no_flags();
    for (i, octet) in marks.iter().enumerate() {
        match Mark::of(*octet) {
            Mark::Unset => {}
            Mark::Set => held[i] = true,
            Mark::Other => return None,
        }
    }
    Some(held)
}

// Reads the first marks of a bank.
fn read_flags<F: Flash>(
    flash: &mut F,
    bank: u8,
    marks: &mut [u8],
) -> Result<Option<[bool; 256]>, Failed>
    requires few { length marks.old ≤ 256 }
    requires there { bank < 4 }
    requires within { 2 + bank < (F.seen flash.old).pages }
    ensures marks { IsTrue (F.seen flash.old).told → IfOk result (λ found. MatchOption found (HasOtherMark bank (length marks.old) (F.seen flash.old).octets) (λ held. AreHeld bank (length marks.old) held (F.seen flash.old).octets)) }
    ensures reads { ReadsOnly (F.seen flash.old) (F.seen flash.new) result }
{
    ranges_of_octets();
    runs::<Ways<F>>();
    flash.read(PAGE * (2 + bank as u32), marks)?;
    Ok(flags_of(marks))
}

// Which blocks of a bank are held, by so many marks, which are read at once; none where a mark is neither FF nor FE.
pub(crate) fn read_marks<F: Flash>(
    flash: &mut F,
    bank: u8,
    count: u16,
) -> Result<Option<[bool; 256]>, Failed>
    requires few { count ≤ 256 }
    requires there { bank < 4 }
    requires within { 2 + bank < (F.seen flash.old).pages }
    ensures marks { IsTrue (F.seen flash.old).told → IfOk result (λ found. MatchOption found (HasOtherMark bank count (F.seen flash.old).octets) (λ held. AreHeld bank count held (F.seen flash.old).octets)) }
    ensures reads { ReadsOnly (F.seen flash.old) (F.seen flash.new) result }
{
    let mut octets = [0; 256];
    read_flags(flash, bank, &mut octets[..count as usize])
}

// How many of the first flags are set.
pub(crate) fn count_flags(held: &[bool; 256], count: u16) -> u16
    requires { count ≤ 256 }
    ensures { result ≡ count_by (λ held. held) (take count held.now) }
{
    let first = &held[..count as usize];
    first.iter().filter(|held| **held).count() as u16
}

// Whether the first flags are all set.
pub(crate) fn all_flags(held: &[bool; 256], count: u16) -> bool
    requires { count ≤ 256 }
    ensures { IsTrue result ↔ All IsTrue (take count held.now) }
{
    let first = &held[..count as usize];
    first.iter().all(|held| *held)
}
