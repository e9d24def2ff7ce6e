// A bank that is filled whole.
use mu_image::Meta;
use mu_outside::{BytesSource, FaultyFlash, Flash, Pattern, RamFlash};
use mu_store::{BankState, Booted, FillFail, FillWhy, Store, Tag, boot, format};
use std::alloc::Global;
use std::process::Abort;
use std::test::Fail;

const TAG: Tag = [0; 1792];

const OTHER_TAG: Tag = [8; 1792];

// SHA-256 of 61 62 63.
const OF_THREE: [u8; 32] = [
    0xBA, 0x78, 0x16, 0xBF, 0x8F, 0x01, 0xCF, 0xEA, 0x41, 0x41, 0x40, 0xDE, 0x5D, 0xAE, 0x22, 0x23,
    0xB0, 0x03, 0x61, 0xA3, 0x96, 0x17, 0x7A, 0x9C, 0xB4, 0x10, 0xFF, 0x61, 0xF2, 0x00, 0x15, 0xAD,
];

// SHA-256 of 4,096 octets 5.
const OF_A_PAGE: [u8; 32] = [
    0xFB, 0x73, 0x63, 0xF1, 0xF0, 0x2C, 0x2F, 0x24, 0x4C, 0x32, 0xAA, 0x80, 0x76, 0xEF, 0x7E, 0xDB,
    0xC2, 0xE6, 0x21, 0x13, 0x75, 0x42, 0x83, 0x6A, 0xDC, 0x1E, 0x31, 0x21, 0x43, 0x96, 0x8D, 0x75,
];

// What a boot shows: the count, and bank 1.
fn shown<F: Flash + Drop>(rt: &impl Abort, flash: F) -> Option<(u32, BankState)> {
    match boot(flash) {
        Ok(Booted::Rest(store)) => {
            assert!(rt; store.banks() > 1);
            Some((store.count(), store.bank_state(1)))
        }
        _ => None,
    }
}

fn fill<F: Flash + Drop>(
    rt: &impl Abort,
    alloc: Global,
    store: Store<F>,
    octets: &[u8],
    fails: &[u32],
) -> Result<Result<Store<F>, FillFail<F>>, Fail> {
    assert!(rt; store.banks() > 1);
    assert!(rt; matches!(store.bank_state(1), BankState::Empty));
    let mut source = BytesSource::new(alloc, octets, fails)?;
    Ok(store.fill_whole(1, &mut source, 2, &OTHER_TAG))
}

// What the filling of bank 1, of one page, comes to. A boot shows it, or what was before.
fn filled(
    rt: &impl Abort,
    alloc: Global,
    octets: &[u8],
    fails: &[u32],
) -> Result<Result<BankState, FillWhy>, Fail> {
    match format(RamFlash::new(alloc, 6)?, 2, 1, &TAG) {
        Ok(store) => match fill(rt, alloc, store, octets, fails)? {
            Ok(store) => {
                assert!(rt; store.banks() > 1);
                let state = store.bank_state(1);
                assert!(rt; shown(rt, store.into_flash()) == Some((2, state)));
                Ok(Ok(state))
            }
            Err(fail) => {
                assert!(rt; shown(rt, fail.flash) == Some((1, BankState::Empty)));
                Ok(Err(fail.why))
            }
        },
        Err(_) => {
            assert!(rt; false);
            Ok(Err(FillWhy::Flash))
        }
    }
}

fn sealed(size: u32, digest: [u8; 32]) -> BankState {
    BankState::Sealed(Meta {
        size,
        version: 2,
        digest,
    })
}

#[test]
fn a_bank_takes_all_that_a_source_has(rt: HostRuntime) -> Result<(), Fail> {
    let three = filled(&rt, rt.alloc(), b"abc", &[])?;
    assert_eq!(rt; three, Ok(sealed(3, OF_THREE)));
    let page = filled(&rt, rt.alloc(), &[5; 4096], &[])?;
    assert_eq!(rt; page, Ok(sealed(4096, OF_A_PAGE)));
    Ok(())
}

#[test]
fn a_source_has_something_and_no_more_than_the_bank(rt: HostRuntime) -> Result<(), Fail> {
    assert_eq!(rt; filled(&rt, rt.alloc(), b"", &[])?, Err(FillWhy::Empty));
    assert_eq!(rt;
        filled(&rt, rt.alloc(), &[5; 4097], &[])?,
        Err(FillWhy::TooBig)
    );
    Ok(())
}

#[test]
fn a_read_that_fails_ends_the_filling(rt: HostRuntime) -> Result<(), Fail> {
    assert_eq!(rt; filled(&rt, rt.alloc(), b"", &[1])?, Err(FillWhy::Read));
    for call in [1, 2] {
        assert_eq!(rt;
            filled(&rt, rt.alloc(), b"abc", &[call])?,
            Err(FillWhy::Read)
        );
        assert_eq!(rt;
            filled(&rt, rt.alloc(), &[5; 4096], &[call])?,
            Err(FillWhy::Read)
        );
        assert_eq!(rt;
            filled(&rt, rt.alloc(), &[5; 4097], &[call])?,
            Err(FillWhy::Read)
        );
    }
    Ok(())
}

// Fills bank 1 of a formatted flash whose operation of this number fails, and answers whether that was the cause.
fn failed(rt: &impl Abort, alloc: Global, octets: &[u8], number: u32) -> Result<bool, Fail> {
    let writes = [(number, Pattern::Made(3))];
    assert!(rt; octets.len() == 24576);
    match boot(FaultyFlash::new(alloc, octets, &writes, &[])?) {
        Ok(Booted::Rest(store)) => match fill(rt, alloc, store, b"abc", &[])? {
            Ok(_) => Ok(false),
            Err(fail) => {
                assert_eq!(rt; fail.why, FillWhy::Flash);
                assert!(rt; shown(rt, fail.flash) == Some((1, BankState::Empty)));
                Ok(true)
            }
        },
        _ => {
            assert!(rt; false);
            Ok(false)
        }
    }
}

#[test]
fn a_flash_that_fails_ends_the_filling(rt: HostRuntime) -> Result<(), Fail> {
    match format(RamFlash::new(rt.alloc(), 6)?, 2, 1, &TAG) {
        Ok(store) => {
            let flash = store.into_flash();
            for number in 1..=4 {
                assert!(rt;
                    failed(&rt, rt.alloc(), flash.octets(), number)?,
                    "{number}"
                );
            }
            assert!(rt; !failed(&rt, rt.alloc(), flash.octets(), 5)?);
        }
        Err(_) => assert!(rt; false),
    }
    Ok(())
}

#[test]
fn a_bank_is_read_at_any_place(rt: HostRuntime) -> Result<(), Fail> {
    match format(RamFlash::new(rt.alloc(), 6)?, 2, 1, &TAG) {
        Ok(store) => match fill(&rt, rt.alloc(), store, b"abc", &[])? {
            Ok(mut store) => {
                let mut octets = [0; 3];
                assert!(rt; store.banks() > 1);
                assert!(rt; store.capacity() == 4096);
                assert!(rt; store.read_bank(1, 1, &mut octets).is_ok());
                assert_eq!(rt; octets, [0x62, 0x63, 0xFF]);
            }
            Err(_) => assert!(rt; false),
        },
        Err(_) => assert!(rt; false),
    }
    Ok(())
}
