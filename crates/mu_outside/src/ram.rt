// A flash in memory that never fails.
ghost use Rattle.std.specs.Prelude.{◌≡◌, false, true, None, IfOk};
ghost use Rattle.mu_outside.specs.Memory.{memory, memory_is_sound, never_off, IsNew};

use crate::Flash;
use crate::cells::Cells;
use crate::memory::{PAGE, blank_page};
use mu_model_flash::Failed;
use std::alloc::{AllocError, Global};

/// A flash in memory that never fails. It tells its octets, and has no armed operation.
#[derive(Drop)]
pub struct RamFlash {
    cells: Cells,
}

impl RamFlash {
    /// A flash of so many erased pages.
    pub fn new(alloc: Global, pages: u32) -> Result<Self, AllocError>
        ensures { IfOk result (λ flash. IsNew pages (⟦<RamFlash as Flash>⟧.seen flash)) }
    {
        Ok(RamFlash {
            cells: Cells::erased(alloc, pages)?,
        })
    }

    /// The octets that it holds.
    pub fn octets(&self) -> &[u8]
        ensures { result.now ≡ (⟦<RamFlash as Flash>⟧.seen self.now).octets }
    {
        &self.cells.octets
    }
}

impl Flash for RamFlash {
    ghost seen = { λ flash. memory flash.cells None false true };

    ghost sound = { λ flash. memory_is_sound flash.cells None false true tt (never_off None) };

    fn pages(&self) -> u32 {
        self.cells.pages
    }

    fn read(&mut self, at: u32, out: &mut [u8]) -> Result<(), Failed> {
        self.cells.read(at, out);
        Ok(())
    }

    fn program(&mut self, at: u32, bytes: &[u8]) -> Result<(), Failed> {
        self.cells.write(at as usize, bytes);
        Ok(())
    }

    fn erase(&mut self, page: u32) -> Result<(), Failed> {
        self.cells.write(PAGE * page as usize, &blank_page());
        Ok(())
    }
}
