// A new store on a flash.
ghost use Rattle.std.specs.Prelude.{◌≡◌, ◌+◌, ◌*◌, ◌<◌, ◌≤◌, [], ◌∷◌, IsTrue, IfOk, IfErr, MatchResult, Result};
ghost use Rattle.mu_model_flash.specs.Run.{either, Ran, Broke};
ghost use Rattle.mu_model_record.specs.Next.{fresh_after};
ghost use Rattle.mu_model_record.specs.Changes.{first_record, first_state};
ghost use Rattle.mu_model_record.specs.Turns.{Anything};
ghost use Rattle.mu_store.specs.View.{store_flash, store_record, store_fresh, StoreHolds, StoreFaults};

use crate::base::Base;
use crate::faults::{Stopped, StoreFault};
use crate::store::Store;
use mu_outside::Flash;
use mu_record::{BankState, Record, Tag, write_anew};

/// Makes a store with 2..4 banks of 1..256 pages, all Empty: erases both control pages and writes record 1, three operations. The flash has
/// `2 + banks * (1 + pages)` pages. Of a cut within it nothing is promised.
pub fn format<F: Flash>(flash: F, banks: u8, pages: u16, tag: &Tag) -> Result<Store<F>, Stopped<F>>
    requires banks_least { 2 ≤ banks }
    requires banks_most { banks ≤ 4 }
    requires pages_least { 1 ≤ pages }
    requires pages_most { pages ≤ 256 }
    requires flash { (F.seen flash).pages ≡ 2 + banks * (1 + pages) }
    ensures fields { IfOk result (λ store. store_record store ≡ first_record banks pages tag.now) }
    ensures fresh { IfOk result (λ store. store_fresh store ≡ fresh_after 0 (store_record store)) }
    ensures state { IsTrue (F.seen flash).told → IfOk result (λ store. StoreHolds F.seen store (first_state banks pages tag.now)) }
    ensures why { IfErr result (λ stopped. stopped.why ≡ StoreFault.Flash) }
    ensures runs { MatchResult result
        (λ store. Ran (either Anything) tt (tt ∷ tt ∷ tt ∷ []) (F.seen flash) (F.seen (store_flash store)))
        (λ stopped. Broke (either Anything) tt (tt ∷ tt ∷ tt ∷ []) (F.seen flash) (F.seen stopped.flash)) }
    ensures cause { StoreFaults (F.seen flash) F.seen result }
{
    let mut flash = flash;
    let fields = Record {
        count: 1,
        pages,
        number: banks,
        banks: [BankState::Empty; 4],
        tag: *tag,
    };
    match write_anew(&mut flash, &fields) {
        Ok(place) => Ok(Store {
            base: Base {
                flash,
                place,
                fields,
            },
        }),
        Err(_) => Err(Stopped {
            why: StoreFault::Flash,
            flash,
        }),
    }
}
