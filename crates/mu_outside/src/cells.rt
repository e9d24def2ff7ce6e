// The octets of a flash in memory, with what every such flash counts.
ghost use Rattle.std.specs.Prelude.{◌≡◌, ◌+◌, ◌-◌, ◌*◌, ◌%◌, ◌^◌, ◌<◌, ◌≤◌, min, length, slice_range, IfOk};
ghost use Rattle.mu_model_flash.specs.Bits.{blank, written, Between};
ghost use Rattle.mu_model_flash.specs.Flash.{ticks, IsImage};
ghost use Rattle.mu_model_flash.specs.Patterns.{IsLeftBy};

use crate::memory::{PAGE, overwrite, tear};
use mu_model_flash::laws::ranges_of_octets;
use mu_model_flash::{Failed, Pattern};
use std::alloc::{AllocError, Global};

// Operations and faults are counted, and each count stays at its last value.
#[derive(Drop)]
pub(crate) struct Cells {
    pub(crate) pages: u32,
    pub(crate) clock: u64,
    pub(crate) faults: u64,
    pub(crate) octets: Vec<u8>,
    ghost few_pages: { pages < 2 ^ 32 },
    ghost clock_counted: { clock < 2 ^ 64 },
    ghost faults_counted: { faults < 2 ^ 64 },
    ghost is_image: { IsImage pages octets.items },
}

impl Cells {
    // So many erased pages.
    pub(crate) fn erased(alloc: Global, pages: u32) -> Result<Self, AllocError>
        ensures pages { IfOk result (λ cells. cells.pages ≡ pages) }
        ensures octets { IfOk result (λ cells. cells.octets.items ≡ blank (4096 * pages)) }
        ensures clock { IfOk result (λ cells. cells.clock ≡ 0) }
        ensures faults { IfOk result (λ cells. cells.faults ≡ 0) }
    {
        Ok(Cells {
            pages,
            clock: 0,
            faults: 0,
            octets: vec![in alloc; 255; PAGE * pages as usize]?,
        })
    }

    // These octets, which are whole pages.
    pub(crate) fn holding(alloc: Global, octets: &[u8]) -> Result<Self, AllocError>
        requires whole { length octets.now % 4096 ≡ 0 }
        requires few { length octets.now ≤ 4096 * 2 ^ 20 }
        ensures pages { IfOk result (λ cells. 4096 * cells.pages ≡ length octets.now) }
        ensures octets { IfOk result (λ cells. cells.octets.items ≡ octets.now) }
        ensures clock { IfOk result (λ cells. cells.clock ≡ 0) }
        ensures faults { IfOk result (λ cells. cells.faults ≡ 0) }
    {
        Ok(Cells {
            pages: (octets.len() / PAGE) as u32,
            clock: 0,
            faults: 0,
            octets: Vec::from_slice(alloc, octets)?,
        })
    }

    // The octets from a place on.
    pub(crate) fn read(&self, at: u32, out: &mut [u8])
        requires { at + length out.old ≤ 4096 * self.now.pages }
        ensures { out.new ≡ slice_range self.now.octets.items at (at + length out.old) }
    {
        let at = at as usize;
        out.copy_from_slice(&self.octets[at..at + out.len()]);
    }

    // An operation that is done.
    pub(crate) fn write(&mut self, at: usize, bytes: &[u8])
        requires { at + length bytes.now ≤ 4096 * self.old.pages }
        ensures octets { self.new.octets.items ≡ written self.old.octets.items at bytes.now }
        ensures clock { self.new.clock ≡ ticks self.old.clock 1 }
        ensures pages { self.new.pages ≡ self.old.pages }
        ensures faults { self.new.faults ≡ self.old.faults }
    {
        ranges_of_octets();
        self.clock = self.clock.saturating_add(1);
        overwrite(&mut self.octets, at, bytes);
    }

    // An operation that fails and leaves its range by a pattern.
    pub(crate) fn leave(&mut self, at: usize, bytes: &[u8], pattern: Pattern) -> Failed
        requires { at + length bytes.now ≤ 4096 * self.old.pages }
        ensures left { IsLeftBy pattern self.old.octets.items at bytes.now self.new.octets.items }
        ensures between { Between self.old.octets.items (written self.old.octets.items at bytes.now) self.new.octets.items }
        ensures clock { self.new.clock ≡ ticks self.old.clock 1 }
        ensures pages { self.new.pages ≡ self.old.pages }
        ensures faults { self.new.faults ≡ min (self.old.faults + 1) (2 ^ 64 - 1) }
    {
        ranges_of_octets();
        self.clock = self.clock.saturating_add(1);
        tear(&mut self.octets, at, bytes, pattern);
        self.fail()
    }

    // A call that fails and begins nothing.
    pub(crate) fn fail(&mut self) -> Failed
        ensures octets { self.new.octets ≡ self.old.octets }
        ensures clock { self.new.clock ≡ self.old.clock }
        ensures pages { self.new.pages ≡ self.old.pages }
        ensures faults { self.new.faults ≡ min (self.old.faults + 1) (2 ^ 64 - 1) }
    {
        self.faults = self.faults.saturating_add(1);
        Failed
    }
}
