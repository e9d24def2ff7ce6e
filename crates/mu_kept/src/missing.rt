// The blocks that a job lacks.
ghost use Rattle.std.specs.Prelude.{◌≡◌, ◌<◌, None, false, length, slice_index_or, slice_set};
ghost use Rattle.mu_model_wire.specs.Reports.{complement};
ghost use Rattle.mu_model_node.specs.Slots.{Slots, missing};
ghost use Rattle.mu_place.specs.Place.{place_fault};
ghost use Rattle.mu_kept.specs.Views.{place_in, flags_in};
ghost use Rattle.mu_kept.specs.Shows.{Shows};

use crate::store::JobStore;
use mu_outside::Flash;
use mu_report::NumberSet;

impl<F: Flash> JobStore<F> {
    // Adds a block to those that are held, where it is one. No fault is kept.
    fn add_held(&self, blocks: &mut NumberSet, block: u16)
        requires fault { place_fault (place_in self.now) ≡ None }
        requires there { block < length blocks.old }
        requires new { slice_index_or blocks.old block false ≡ false }
        ensures { blocks.new ≡ slice_set blocks.old block (slice_index_or (flags_in self.now) block false) }
    {
        if self.held(block) {
            blocks.insert(block);
        }
    }

    /// The blocks of the job that are held. The empty set below 0 without parameters. No fault is kept.
    pub fn blocks_held(&self) -> NumberSet
        requires { place_fault (place_in self.now) ≡ None }
        ensures { result ≡ flags_in self.now }
    {
        let count = self.block_total();
        let mut blocks = NumberSet::new(count);
        for block in 0..count {
            self.add_held(&mut blocks, block);
        }
        blocks
    }

    /// The blocks of the job that are missing: the others below their count. The empty set below 0 without parameters. No fault is kept.
    pub fn blocks_missing(&self) -> NumberSet
        requires { place_fault (place_in self.now) ≡ None }
        ensures missing { result ≡ complement (flags_in self.now) }
        ensures shows { (held : Slots) → Shows self.now held → result ≡ missing held }
    {
        self.blocks_held().missing()
    }
}
