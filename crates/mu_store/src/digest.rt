// Digests of what banks hold.
ghost use Rattle.std.specs.Prelude.{◌≡◌, ◌≢◌, ℕ, ◌+◌, ◌*◌, ◌<◌, ◌≤◌, ◌^◌, IsTrue, IfOk, MatchOption, Result, OnOk, List, ◌++◌, length};
ghost use Rattle.sha2.specs.Sha256.{sha256};
ghost use Rattle.mu_model_flash.specs.Bits.{part_of};
ghost use Rattle.mu_model_record.specs.Record.{IsRecord};
ghost use Rattle.mu_model_record.specs.Store.{pages_of, bank_place};
ghost use Rattle.mu_model_record.specs.Kinds.{AreFitBelow};
ghost use Rattle.mu_record.specs.Reads.{ReadsOnly};
ghost use Rattle.mu_image.specs.Digests.{HasTaken};
ghost use Rattle.mu_store.specs.Damage.{IsDamage};

use mu_cells::Ways;
use mu_image::Digesting;
use mu_model_flash::laws::runs;
use mu_outside::{Failed, Flash};
use mu_record::{BankState, Record};

const PAGE: u32 = 4096;

// A Sealed bank whose octets haven't the digest of its metadata.
#[derive(Clone, Copy, Debug, PartialEq, Eq)]
pub(crate) struct Damage {
    pub(crate) bank: u8,
    pub(crate) want: [u8; 32],
    pub(crate) found: [u8; 32],
}

// Takes the octets of a piece of the flash into a digest.
fn take_piece<F: Flash>(
    flash: &mut F,
    at: u32,
    piece: &mut [u8],
    digesting: &mut Digesting,
) -> Result<(), Failed>
    requires within { at + length piece.old ≤ 4096 * (F.seen flash.old).pages }
    ensures taken { IsTrue (F.seen flash.old).told → OnOk result ((octets : List ℕ) → HasTaken digesting.old octets → HasTaken digesting.new (octets ++ part_of (F.seen flash.old).octets at (length piece.old))) }
    ensures reads { ReadsOnly (F.seen flash.old) (F.seen flash.new) result }
{
    flash.read(at, piece)?;
    digesting.take(piece);
    Ok(())
}

// The SHA-256 of so many octets from a place on, read page by page.
pub(crate) fn digest_of<F: Flash>(flash: &mut F, at: u32, size: u32) -> Result<[u8; 32], Failed>
    requires few { size ≤ 2 ^ 20 }
    requires within { at + size ≤ 4096 * (F.seen flash.old).pages }
    requires low { at < 2 ^ 30 }
    ensures digest { IsTrue (F.seen flash.old).told → IfOk result (λ digest. digest ≡ sha256 (part_of (F.seen flash.old).octets at size)) }
    ensures reads { ReadsOnly (F.seen flash.old) (F.seen flash.new) result }
{
    runs::<Ways<F>>();
    let mut digesting = Digesting::new();
    let mut piece = [0; PAGE as usize];
    for page in 0..size.div_ceil(PAGE) {
        let from = PAGE * page;
        let count = (size - from).min(PAGE);
        take_piece(
            flash,
            at + from,
            &mut piece[..count as usize],
            &mut digesting,
        )?;
    }
    Ok(digesting.done())
}

// Where a bank begins.
pub(crate) fn bank_place(fields: &Record, bank: u8) -> u32
    requires in_range { IsRecord fields.now }
    requires there { bank < 4 }
    ensures { result ≡ bank_place fields.now bank }
{
    PAGE * (2 + fields.number as u32 + bank as u32 * fields.pages as u32)
}

// The lowest bank that is damaged, if any.
pub(crate) fn find_damage<F: Flash>(
    flash: &mut F,
    fields: &Record,
) -> Result<Option<Damage>, Failed>
    requires in_range { IsRecord fields.now }
    requires pages { (F.seen flash.old).pages ≡ pages_of fields.now }
    ensures found { IsTrue (F.seen flash.old).told → IfOk result (λ found. MatchOption found (AreFitBelow fields.now.number fields.now (F.seen flash.old).octets) (λ damage. IsDamage fields.now damage (F.seen flash.old).octets)) }
    ensures reads { ReadsOnly (F.seen flash.old) (F.seen flash.new) result }
{
    for bank in 0..fields.number {
        if let BankState::Sealed(meta) = fields.banks[bank as usize] {
            let found = digest_of(flash, bank_place(fields, bank), meta.size)?;
            if found != meta.digest {
                return Ok(Some(Damage {
                    bank,
                    want: meta.digest,
                    found,
                }));
            }
        }
    }
    Ok(None)
}
