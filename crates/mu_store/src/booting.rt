// The store that a flash holds.
ghost use Rattle.std.specs.Prelude.{◌≡◌, ◌+◌, ◌<◌, ◌≤◌, IsTrue, IfOk, MatchResult, Result, false};
ghost use Rattle.mu_model_flash.specs.Flash.{Unchanged};
ghost use Rattle.mu_model_record.specs.Record.{IsRecord};
ghost use Rattle.mu_model_record.specs.Store.{StoreState, pages_of};
ghost use Rattle.mu_model_record.specs.Represents.{RepresentsStore};
ghost use Rattle.mu_model_record.specs.Kinds.{IsStore};
ghost use Rattle.mu_store.specs.Judged.{IsSoundMarks, AreMarksOf};
ghost use Rattle.mu_store.specs.Booted.{booted_flash, booted_record, booted_fresh, BootedHolds, IsMade, IsKind, BootFaults};

use crate::base::Base;
use crate::filling::Filling;
use crate::judge::{Judged, Marks, judge};
use crate::laws::known;
use crate::store::Store;
use mu_outside::Flash;
use mu_record::{Place, Record};

/// The store that a boot finds: at rest, or with a bank that is being filled.
#[derive(Drop)]
pub enum Booted<F: Flash> {
    Rest(Store<F>),
    Fill(Filling<F>),
}

/// A boot that found no store, with the flash.
#[derive(Drop)]
pub struct BootFail<F> {
    pub why: BootWhy,
    pub flash: F,
}

/// Why a boot found no store: a read failed, the flash is blank or holds something else, or a Sealed bank hasn't the digest of its metadata.
/// `bank` is the lowest such bank, `want` the digest of its metadata, `found` that of its octets.
#[derive(Clone, Copy, Debug, PartialEq, Eq)]
pub enum BootWhy {
    Flash,
    Blank,
    Foreign,
    Damaged {
        bank: u8,
        want: [u8; 32],
        found: [u8; 32],
    },
}

fn make<F: Flash>(flash: F, page: u32, fields: Record, marks: Option<Marks>) -> Booted<F>
    requires control { page < 2 }
    requires in_range { IsRecord fields }
    requires pages { (F.seen flash).pages ≡ pages_of fields }
    requires sound { IsSoundMarks fields marks }
    requires marks { IsTrue (F.seen flash).told → AreMarksOf marks (F.seen flash).octets }
    ensures { IsMade flash page fields marks result }
{
    known();
    let base = Base {
        flash,
        place: Place { page, fresh: 0 },
        fields,
    };
    match marks {
        None => Booted::Rest(Store { base }),
        Some(marks) => {
            let held = marks.held;
            Booted::Fill(Filling {
                base,
                bank: marks.bank,
                size: marks.size,
                log: marks.log,
                held,
            })
        }
    }
}

/// Finds the store that a flash holds. It begins no operation. It looks at the control pages, then the pages, then the marks, then the banks
/// in rising order. Of a flash that represents a state it gives that state, or answers `Flash`.
pub fn boot<F: Flash>(flash: F) -> Result<Booted<F>, BootFail<F>>
    ensures kinds { IsTrue (F.seen flash).told → MatchResult result (λ booted. IsStore (F.seen flash).octets (booted_record booted)) (λ fail. IsKind (F.seen flash).octets fail.why) }
    ensures state { IsTrue (F.seen flash).told → (d : StoreState) → RepresentsStore d (F.seen flash).octets → MatchResult result (λ booted. BootedHolds F.seen booted d) (λ fail. fail.why ≡ BootWhy.Flash) }
    ensures fresh { IfOk result (λ booted. booted_fresh booted ≡ 0) }
    ensures same { MatchResult result (λ booted. Unchanged (F.seen flash) (F.seen (booted_flash booted))) (λ fail. Unchanged (F.seen flash) (F.seen fail.flash)) }
    ensures cause { BootFaults (F.seen flash) F.seen result }
{
    known();
    let mut flash = flash;
    match judge(&mut flash) {
        Err(_) => Err(BootFail {
            why: BootWhy::Flash,
            flash,
        }),
        Ok(Judged::Blank) => Err(BootFail {
            why: BootWhy::Blank,
            flash,
        }),
        Ok(Judged::Foreign) => Err(BootFail {
            why: BootWhy::Foreign,
            flash,
        }),
        Ok(Judged::Damaged(damage)) => {
            let want = damage.want;
            let found = damage.found;
            Err(BootFail {
                why: BootWhy::Damaged {
                    bank: damage.bank,
                    want,
                    found,
                },
                flash,
            })
        }
        Ok(
            Judged::Whole {
                page,
                fields,
                marks,
            },
        ) => Ok(make(flash, page, fields, marks)),
    }
}
