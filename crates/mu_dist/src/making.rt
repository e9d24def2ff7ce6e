// New distributors on flashes.
ghost use Rattle.std.specs.Prelude.{◌≡◌, ◌+◌, ◌*◌, ◌≤◌, [], ◌∷◌, IsTrue, IfOk, IfErr, MatchResult};
ghost use Rattle.mu_model_flash.specs.Run.{either, Ran, Broke};
ghost use Rattle.mu_model_record.specs.Turns.{Anything};
ghost use Rattle.mu_model_distributor.specs.DistEvents.{new_distributor};
ghost use Rattle.mu_dist.specs.Made.{new_tag, MakesDistributor};
ghost use Rattle.mu_store.specs.View.{FaultOf};

use arrayvec::ArrayVec;
use mu_distributor_note::{NoteHead, UploadPhase, distributor_note_octets};
use mu_image::Meta;
use mu_model_distributor::{DistPhase, Settings};
use mu_model_distributor_laws::laws::states_are_sound;
use mu_model_represents::laws::represented_is_sound;
use mu_model_represents_distributor::laws::written_distributor;
use mu_note::{Tag, tag_of};
use mu_outside::Flash;
use mu_store::{Stopped, StoreFault, format};

// The tag of a distributor without images, receivers and upload, before its first distribution.
fn new_tag() -> Tag
    ensures { result ≡ new_tag }
{
    let head = NoteHead {
        phase: DistPhase::Idle,
        upload: UploadPhase::Idle,
        banks: ArrayVec::new(),
        counter: 0,
        settings: Settings {
            appkey: 0,
            ttl: 0,
            base: 0,
            mode: 0,
            policy: 0,
            image: 0,
            group: 0,
        },
        upload_ttl: 0,
        upload_meta: Meta {
            size: 0,
            version: 0,
            digest: [0; 32],
        },
    };
    tag_of(&None, &distributor_note_octets(&head, &[]))
}

/// Makes a distributor without images, receivers and upload, with four banks of 1..256 pages that are Empty: erases both control pages
/// and writes record 1, three operations. The flash has `2 + 4 * (1 + pages)` pages. Of a cut within it nothing is promised.
pub fn make_distributor<F: Flash>(flash: F, pages: u16) -> Result<F, Stopped<F>>
    requires pages_least { 1 ≤ pages }
    requires pages_most { pages ≤ 256 }
    requires flash { (F.seen flash).pages ≡ 2 + 4 * (1 + pages) }
    ensures makes { IfOk result (λ made. MakesDistributor pages (F.seen flash) (F.seen made)) }
    ensures why { IfErr result (λ stopped. stopped.why ≡ StoreFault.Flash) }
    ensures broke { IfErr result (λ stopped. Broke (either Anything) tt (tt ∷ tt ∷ tt ∷ []) (F.seen flash) (F.seen stopped.flash)) }
    ensures cause { MatchResult result (λ made. (F.seen flash).faults ≤ (F.seen made).faults) (FaultOf (F.seen flash) F.seen) }
{
    states_are_sound();
    represented_is_sound();
    written_distributor();
    match format(flash, 4, pages, &new_tag()) {
        Ok(store) => Ok(store.into_flash()),
        Err(stopped) => Err(stopped),
    }
}
