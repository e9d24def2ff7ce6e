// What stands for a flash, a link and a clock where a command has none.
ghost use Rattle.std.specs.Prelude.{◌≡◌, ◌^◌, ◌<◌};

use mu_outside::{Clock, Failed, Flash, Incoming, Link};

/// A flash without pages, whose calls all fail.
#[derive(Drop)]
pub struct NoFlash {
    /// None, as `new` makes it.
    pages: u32,
    ghost few_pages: { pages < 2 ^ 32 },
    /// How many calls have failed, which stays at 2^64 - 1.
    faults: u64,
    ghost counted: { faults < 2 ^ 64 },
}

impl NoFlash {
    /// No call has failed.
    pub fn new() -> NoFlash
        ensures pages { result.pages ≡ 0 }
        ensures faults { result.faults ≡ 0 }
    {
        NoFlash {
            pages: 0,
            faults: 0,
        }
    }
}

impl Flash for NoFlash {
    ghost use Rattle.mu_model_flash.specs.Flash.{untold, untold_is_sound};

    ghost seen = { λ flash. untold flash.pages flash.faults };

    ghost sound = { λ flash. untold_is_sound flash.pages flash.faults flash.few_pages flash.counted };

    fn pages(&self) -> u32 {
        self.pages
    }

    fn read(&mut self, _at: u32, _out: &mut [u8]) -> Result<(), Failed> {
        self.faults = self.faults.saturating_add(1);
        Err(Failed)
    }

    fn program(&mut self, _at: u32, _bytes: &[u8]) -> Result<(), Failed> {
        self.faults = self.faults.saturating_add(1);
        Err(Failed)
    }

    fn erase(&mut self, _page: u32) -> Result<(), Failed> {
        self.faults = self.faults.saturating_add(1);
        Err(Failed)
    }
}

/// A link that reaches nobody, whose calls all fail.
#[derive(Drop)]
pub struct NoLink {
    /// How many calls have failed, which stays at 2^64 - 1.
    faults: u64,
    ghost counted: { faults < 2 ^ 64 },
}

impl NoLink {
    /// No call has failed.
    pub fn new() -> NoLink
        ensures { result.faults ≡ 0 }
    {
        NoLink { faults: 0 }
    }
}

impl Link for NoLink {
    ghost use Rattle.mu_outside.specs.Link.{untold_link};

    ghost seen = { λ link. untold_link link.faults };

    ghost bounded = { λ link. link.counted };

    fn bind(&mut self, _addr: u16) -> Result<(), Failed> {
        self.faults = self.faults.saturating_add(1);
        Err(Failed)
    }

    fn send(&mut self, _from: u16, _to: u16, _bytes: &[u8]) -> Result<(), Failed> {
        self.faults = self.faults.saturating_add(1);
        Err(Failed)
    }

    fn receive(&mut self, _at: u16) -> Result<Incoming, Failed> {
        self.faults = self.faults.saturating_add(1);
        Err(Failed)
    }
}

/// A clock that stands at 0.
#[derive(Clone, Copy, Debug)]
pub struct NoClock;

impl Clock for NoClock {
    ghost use Rattle.std.specs.Prelude.{None};

    ghost answered = { λ _. None };

    fn now(&mut self) -> u64
        ensures { result ≡ 0 }
    {
        0
    }
}
