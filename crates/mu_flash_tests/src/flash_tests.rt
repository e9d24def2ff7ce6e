// Flashes in memory.
ghost use Rattle.std.specs.Prelude.{◌^◌, ◌<◌};

use mu_outside::{Failed, Flash};

// A flash that tells nothing of its content and whose calls all fail, as one without pages.
#[derive(Drop)]
struct NoFlash {
    pages: u32,
    faults: u64,
    ghost few_pages: { pages < 2 ^ 32 },
    ghost counted: { faults < 2 ^ 64 },
}

impl Flash for NoFlash {
    ghost use Rattle.mu_model_flash.specs.Flash.{untold, untold_is_sound};

    ghost seen = { λ flash. untold flash.pages flash.faults };

    ghost sound = { λ flash. untold_is_sound flash.pages flash.faults flash.few_pages flash.counted };

    fn pages(&self) -> u32 {
        self.pages
    }

    fn read(&mut self, _at: u32, _out: &mut [u8]) -> Result<(), Failed> {
        self.faults = self.faults.saturating_add(1);
        Err(Failed)
    }

    fn program(&mut self, _at: u32, _bytes: &[u8]) -> Result<(), Failed> {
        self.faults = self.faults.saturating_add(1);
        Err(Failed)
    }

    fn erase(&mut self, _page: u32) -> Result<(), Failed> {
        self.faults = self.faults.saturating_add(1);
        Err(Failed)
    }
}

#[test]
fn a_flash_without_pages_fails_each_call(rt: HostRuntime) {
    let mut flash = NoFlash {
        pages: 0,
        faults: 0,
    };
    assert_eq!(rt; flash.pages(), 0);
    assert_eq!(rt; flash.read(0, &mut []), Err(Failed));
    assert_eq!(rt; flash.faults, 1);
}
