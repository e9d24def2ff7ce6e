// A flash in memory whose power can go at an operation.
ghost use Rattle.std.specs.Prelude.{◌≡◌, ◌+◌, ◌-◌, ◌*◌, ◌<◌, ◌≤◌, [], ◌∷◌, true, false, None, length, IfOk, Result};
ghost use Rattle.std.specs.Option.{ForSome};
ghost use Rattle.mu_model_flash.specs.Bits.{written};
ghost use Rattle.mu_model_flash.specs.Flash.{LeftByPattern, PoweredOn, fallen, IsBefore};
ghost use Rattle.mu_model_flash.specs.Run.{exact, Runs};
ghost use Rattle.mu_outside.specs.Memory.{memory, memory_is_sound, before_some, IsNew};

use crate::cells::Cells;
use crate::memory::{PAGE, blank_page};
use crate::{Flash, Plug};
use mu_model_flash::{Armed, Failed, Pattern};
use std::alloc::{AllocError, Global};

/// A flash in memory whose power can be cut. It tells its octets, and its calls fail by an armed operation alone:
/// that one leaves its range by its pattern and fails, and so does every later call until the power is on again.
#[derive(Drop)]
pub struct CutFlash {
    cells: Cells,
    armed: Option<Armed>,
    off: bool,
    ghost not_past: { ForSome armed (λ a. 0 < a.number) },
    ghost none_off: { off ≡ true → armed ≡ None },
}

impl CutFlash {
    /// A flash of so many erased pages, with the power on and no operation armed.
    pub fn new(alloc: Global, pages: u32) -> Result<Self, AllocError>
        ensures { IfOk result (λ flash. IsNew pages (⟦<CutFlash as Flash>⟧.seen flash)) }
    {
        Ok(CutFlash {
            cells: Cells::erased(alloc, pages)?,
            armed: None,
            off: false,
        })
    }

    /// Turns the power on, with no operation armed. Nothing else changes.
    pub fn power_on(&mut self)
        ensures { PoweredOn (⟦<CutFlash as Flash>⟧.seen self.old) (⟦<CutFlash as Flash>⟧.seen self.new) }
    {
        self.off = false;
        self.disarm();
    }

    // Begins an operation: the armed one leaves its range by its pattern.
    fn operate(&mut self, at: usize, bytes: &[u8]) -> Result<(), Failed>
        requires { at + length bytes.now ≤ 4096 * (⟦<CutFlash as Flash>⟧.seen self.old).pages }
        ensures runs { Runs exact (⟦<CutFlash as Flash>⟧.seen self.old).octets (written (⟦<CutFlash as Flash>⟧.seen self.old).octets at bytes.now ∷ [])
            (⟦<CutFlash as Flash>⟧.seen self.old) (⟦<CutFlash as Flash>⟧.seen self.new) result }
        ensures torn { LeftByPattern (⟦<CutFlash as Flash>⟧.seen self.old) (⟦<CutFlash as Flash>⟧.seen self.new) at bytes.now }
    {
        if self.off {
            return Err(self.cells.fail());
        }
        match self.armed.take() {
            None => {
                self.cells.write(at, bytes);
                Ok(())
            }
            Some(armed) => {
                if armed.number > 1 {
                    self.armed = Some(Armed {
                        number: armed.number - 1,
                        pattern: armed.pattern,
                    });
                    self.cells.write(at, bytes);
                    Ok(())
                } else {
                    self.off = true;
                    Err(self.cells.leave(at, bytes, armed.pattern))
                }
            }
        }
    }
}

impl Flash for CutFlash {
    ghost seen = { λ flash. memory flash.cells flash.armed flash.off true };

    ghost sound = { λ flash. memory_is_sound flash.cells flash.armed flash.off true (before_some flash.armed flash.not_past) flash.none_off };

    fn pages(&self) -> u32 {
        self.cells.pages
    }

    fn read(&mut self, at: u32, out: &mut [u8]) -> Result<(), Failed> {
        if self.off {
            return Err(self.cells.fail());
        }
        self.cells.read(at, out);
        Ok(())
    }

    fn program(&mut self, at: u32, bytes: &[u8]) -> Result<(), Failed> {
        self.operate(at as usize, bytes)
    }

    fn erase(&mut self, page: u32) -> Result<(), Failed> {
        self.operate(PAGE * page as usize, &blank_page())
    }
}

impl Plug for CutFlash {
    fn arm(&mut self, n: u32, pattern: Pattern) {
        self.armed = Some(Armed { number: n, pattern });
    }

    fn disarm(&mut self) {
        self.armed = None;
    }
}
