use mu_dist::make_distributor;
use mu_outside::RamFlash;
use mu_store::{BankState, Booted, boot};
use std::process::Abort;
use std::test::Fail;

// What a boot shows: the count, the banks that are Empty, the job, the kind of the note, and the distribution's phase.
fn shown(rt: &impl Abort, flash: RamFlash) -> Option<(u32, usize, u8, u8, u8)> {
    match boot(flash) {
        Ok(Booted::Rest(store)) => {
            assert!(rt; store.banks() == 4);
            let mut empty = 0;
            for bank in 0..4 {
                if matches!(store.bank_state(bank), BankState::Empty) && empty < 4 {
                    empty += 1;
                }
            }
            let tag = store.tag();
            Some((store.count(), empty, tag[0], tag[64], tag[65]))
        }
        _ => None,
    }
}

#[test]
fn a_new_distributor_has_four_empty_banks(rt: HostRuntime) -> Result<(), Fail> {
    match make_distributor(RamFlash::new(rt.alloc(), 10)?, 1) {
        Ok(flash) => assert_eq!(rt; shown(&rt, flash), Some((1, 4, 0, 2, 0))),
        Err(_) => assert!(rt; false),
    }
    Ok(())
}
