// What a boot says of made flashes.
use crate::made::{Change, PAGE, blank, code, flash, record};
use mu_outside::{FaultyFlash, RamFlash};
use mu_store::{BootFail, BootWhy, Booted, Store, Tag, boot};
use std::alloc::Global;
use std::process::Abort;
use std::test::Fail;

// Nothing is changed: the tag is 0.
const NO: Change = (300, 0);

// A record of 2 banks of 1 page, of which the first is Empty, Filling or Sealed. Each of these changes makes it something else.
const FOREIGN: [[Change; 6]; 38] = [
    // the name
    [(0, 0x4E), NO, NO, NO, NO, NO],
    [(3, 0x30), NO, NO, NO, NO, NO],
    // the format
    [(4, 0), NO, NO, NO, NO, NO],
    [(4, 2), NO, NO, NO, NO, NO],
    [(4, 3), NO, NO, NO, NO, NO],
    // the number of banks
    [(5, 1), NO, NO, NO, NO, NO],
    [(5, 3), NO, NO, NO, NO, NO],
    [(5, 5), NO, NO, NO, NO, NO],
    // the pages of a bank
    [(6, 0), NO, NO, NO, NO, NO],
    [(6, 2), NO, NO, NO, NO, NO],
    [(7, 1), NO, NO, NO, NO, NO],
    // the count
    [(8, 0), NO, NO, NO, NO, NO],
    // octets 0 after the count
    [(12, 1), NO, NO, NO, NO, NO],
    [(15, 1), NO, NO, NO, NO, NO],
    // the state of a bank
    [(16, 3), NO, NO, NO, NO, NO],
    // a bank that is Empty
    [(17, 1), NO, NO, NO, NO, NO],
    [(63, 1), NO, NO, NO, NO, NO],
    // a bank that is Filling: log, octets 0, size, no metadata
    [(16, 1), (17, 11), (20, 1), NO, NO, NO],
    [(16, 1), (17, 15), (20, 1), NO, NO, NO],
    [(16, 1), (17, 12), (18, 1), (20, 1), NO, NO],
    [(16, 1), (17, 12), (19, 1), (20, 1), NO, NO],
    [(16, 1), (17, 12), (20, 0), NO, NO, NO],
    [(16, 1), (17, 12), (20, 1), (21, 16), NO, NO],
    [(16, 1), (17, 12), (20, 1), (24, 1), NO, NO],
    [(16, 1), (17, 12), (20, 1), (63, 1), NO, NO],
    // two banks that are Filling
    [(16, 1), (17, 12), (20, 1), (64, 1), (65, 12), (68, 1)],
    // a bank that is Sealed: no log, octets 0, no size, a size in the metadata
    [(16, 2), (17, 12), (24, 1), NO, NO, NO],
    [(16, 2), (18, 1), (24, 1), NO, NO, NO],
    [(16, 2), (19, 1), (24, 1), NO, NO, NO],
    [(16, 2), (20, 1), (24, 1), NO, NO, NO],
    [(16, 2), (23, 1), (24, 1), NO, NO, NO],
    [(16, 2), (24, 0), NO, NO, NO, NO],
    [(16, 2), (24, 1), (25, 16), NO, NO, NO],
    [(16, 2), (24, 1), (27, 1), NO, NO, NO],
    // a bank that isn't there
    [(112, 1), (113, 12), (116, 1), NO, NO, NO],
    [(112, 2), (120, 1), NO, NO, NO, NO],
    // octets 0 before the tag
    [(208, 1), NO, NO, NO, NO, NO],
    [(255, 1), NO, NO, NO, NO, NO],
];

// What a boot says of a flash of so many pages with this record.
fn said(
    rt: &impl Abort,
    alloc: Global,
    changes: &[Change],
    pages: usize,
) -> Result<Result<u32, BootWhy>, Fail> {
    let mut octets = Vec::new(alloc);
    code(&mut octets, &record(rt, 1, changes))?;
    Ok(count_of(boot(flash(rt, alloc, &octets, pages)?)))
}

fn count_of(booted: Result<Booted<FaultyFlash>, BootFail<FaultyFlash>>) -> Result<u32, BootWhy> {
    match booted {
        Ok(Booted::Rest(store)) => Ok(store.count()),
        Ok(Booted::Fill(filling)) => Ok(filling.count()),
        Err(fail) => Err(fail.why),
    }
}

fn is_foreign(rt: &impl Abort, alloc: Global, changes: &[Change; 6]) -> Result<bool, Fail> {
    Ok(said(rt, alloc, changes, 6)? == Err(BootWhy::Foreign))
}

#[test]
fn a_record_out_of_range_is_foreign(rt: HostRuntime) -> Result<(), Fail> {
    assert_eq!(rt; said(&rt, rt.alloc(), &[], 6)?, Ok(1));
    assert_eq!(rt;
        said(&rt, rt.alloc(), &[(16, 1), (17, 12), (20, 1)], 6)?,
        Ok(1)
    );
    for changes in &FOREIGN {
        assert!(rt; is_foreign(&rt, rt.alloc(), changes)?, "{changes:?}");
    }
    Ok(())
}

#[test]
fn a_flash_of_other_pages_is_foreign(rt: HostRuntime) -> Result<(), Fail> {
    for pages in [1, 2, 5, 7] {
        assert_eq!(rt;
            said(&rt, rt.alloc(), &[], pages)?,
            Err(BootWhy::Foreign),
            "{pages}"
        );
    }
    Ok(())
}

// What a boot says of a flash whose bank 0 is Filling, with this mark of its one block.
fn said_of_mark(rt: &impl Abort, alloc: Global, mark: u8) -> Result<Option<bool>, Fail> {
    let mut octets = Vec::new(alloc);
    code(&mut octets, &record(rt, 1, &[(16, 1), (17, 12), (20, 1)]))?;
    blank(&mut octets, PAGE)?;
    octets.push(mark)?;
    match boot(flash(rt, alloc, &octets, 6)?) {
        Ok(Booted::Fill(filling)) => Ok(Some(filling.held(0))),
        Ok(Booted::Rest(_)) => Ok(None),
        Err(fail) => {
            assert_eq!(rt; fail.why, BootWhy::Foreign);
            Ok(None)
        }
    }
}

#[test]
fn a_mark_is_set_or_unset(rt: HostRuntime) -> Result<(), Fail> {
    assert_eq!(rt; said_of_mark(&rt, rt.alloc(), 0xFF)?, Some(false));
    assert_eq!(rt; said_of_mark(&rt, rt.alloc(), 0xFE)?, Some(true));
    for mark in [0, 0x7F, 0xFC, 0xFD] {
        assert_eq!(rt; said_of_mark(&rt, rt.alloc(), mark)?, None, "{mark}");
    }
    Ok(())
}

fn is_blank(rt: &impl Abort, alloc: Global, pages: u32) -> Result<bool, Fail> {
    match boot(RamFlash::new(alloc, pages)?) {
        Ok(_) => Ok(false),
        Err(fail) => {
            assert_eq!(rt; fail.why, BootWhy::Blank);
            Ok(true)
        }
    }
}

#[test]
fn a_flash_without_a_word_is_blank(rt: HostRuntime) -> Result<(), Fail> {
    for pages in [0, 1, 2, 6] {
        assert!(rt; is_blank(&rt, rt.alloc(), pages)?, "{pages}");
    }
    Ok(())
}

// What a boot says of a flash with two records: the one of page 0 has a bank that is Filling.
fn said_of_two(rt: &impl Abort, alloc: Global, first: u8, second: u8) -> Result<bool, Fail> {
    let mut octets = Vec::new(alloc);
    code(
        &mut octets,
        &record(rt, first, &[(16, 1), (17, 12), (20, 1)]),
    )?;
    code(&mut octets, &record(rt, second, &[]))?;
    match boot(flash(rt, alloc, &octets, 6)?) {
        Ok(Booted::Fill(_)) => Ok(true),
        Ok(Booted::Rest(_)) => Ok(false),
        Err(_) => {
            assert!(rt; false);
            Ok(false)
        }
    }
}

#[test]
fn the_greatest_count_is_present_and_of_equal_ones_the_lower_page(
    rt: HostRuntime,
) -> Result<(), Fail> {
    assert!(rt; said_of_two(&rt, rt.alloc(), 2, 1)?);
    assert!(rt; !said_of_two(&rt, rt.alloc(), 1, 2)?);
    assert!(rt; said_of_two(&rt, rt.alloc(), 2, 2)?);
    Ok(())
}

const SHORT: Tag = [0; 1792];

// Writes a short record over a store with the count 2 whose record is long.
fn write_short(rt: &impl Abort, store: Store<FaultyFlash>) {
    assert_eq!(rt; store.count(), 2);
    assert_eq!(rt; store.fresh(), 0);
    assert_eq!(rt; store.tag()[1791], 9);
    match store.commit(&SHORT) {
        Ok(store) => {
            assert_eq!(rt; store.fresh(), 3);
            let flash = store.into_flash();
            assert!(rt; is_first_slot_of_three(rt, flash.octets()));
            assert_eq!(rt; count_of(boot(flash)), Ok(3));
        }
        Err(_) => assert!(rt; false),
    }
}

#[test]
fn a_short_record_is_written_after_two_long_ones(rt: HostRuntime) -> Result<(), Fail> {
    let mut octets = Vec::new(rt.alloc());
    code(&mut octets, &record(&rt, 1, &[(300, 7)]))?;
    code(&mut octets, &record(&rt, 2, &[(2047, 9)]))?;
    match boot(flash(&rt, rt.alloc(), &octets, 6)?) {
        Ok(Booted::Rest(store)) => write_short(&rt, store),
        Ok(Booted::Fill(_filling)) => assert!(rt; false),
        Err(_fail) => assert!(rt; false),
    }
    Ok(())
}

// The first octets of a short record of count 3, and FF in the slot after it.
fn is_first_slot_of_three(rt: &impl Abort, octets: &[u8]) -> bool {
    assert!(rt; octets.len() >= 2048);
    &octets[..18]
        == [
            0x4D, 0xB2, 0x55, 0xAA, 0x46, 0xB9, 0x31, 0xCE, 2, 0xFD, 2, 0xFD, 1, 0xFE, 0, 0xFF, 3,
            0xFC,
        ]
        .as_slice()
        && octets[1023] == 0xFF
        && octets[1024] == 0xFF
        && octets[1025] == 0xFF
}

// SHA-256 of 61 62 63.
const FIT: [u8; 32] = [
    0xBA, 0x78, 0x16, 0xBF, 0x8F, 0x01, 0xCF, 0xEA, 0x41, 0x41, 0x40, 0xDE, 0x5D, 0xAE, 0x22, 0x23,
    0xB0, 0x03, 0x61, 0xA3, 0x96, 0x17, 0x7A, 0x9C, 0xB4, 0x10, 0xFF, 0x61, 0xF2, 0x00, 0x15, 0xAD,
];

// SHA-256 of 61 62 64.
const OTHER: [u8; 32] = [
    0xA5, 0x2D, 0x15, 0x9F, 0x26, 0x2B, 0x2C, 0x6D, 0xDB, 0x72, 0x4A, 0x61, 0x84, 0x0B, 0xEF, 0xC3,
    0x6E, 0xB3, 0x0C, 0x88, 0x87, 0x7A, 0x40, 0x30, 0xB6, 0x5C, 0xBE, 0x86, 0x29, 0x84, 0x49, 0xC9,
];

// What a boot says of a flash whose two banks are Sealed with 61 62 63 and hold these octets.
fn said_of_banks(
    rt: &impl Abort,
    alloc: Global,
    first: &[u8; 3],
    second: &[u8; 3],
) -> Result<Result<u32, BootWhy>, Fail> {
    let mut octets = Vec::new(alloc);
    let mut changes = Vec::from_slice(alloc, &[(16, 2), (24, 3), (64, 2), (72, 3)])?;
    for k in 0..32u16 {
        changes.push((32 + k, FIT[k as usize]))?;
        changes.push((80 + k, FIT[k as usize]))?;
    }
    code(&mut octets, &record(rt, 1, &changes))?;
    blank(&mut octets, 3 * PAGE)?;
    octets.extend_from_slice(first)?;
    blank(&mut octets, PAGE - 3)?;
    octets.extend_from_slice(second)?;
    Ok(count_of(boot(flash(rt, alloc, &octets, 6)?)))
}

#[test]
fn the_lowest_bank_without_its_digest_is_damaged(rt: HostRuntime) -> Result<(), Fail> {
    let damaged = |bank: u8| BootWhy::Damaged {
        bank,
        want: FIT,
        found: OTHER,
    };
    assert_eq!(rt; said_of_banks(&rt, rt.alloc(), b"abc", b"abc")?, Ok(1));
    assert_eq!(rt;
        said_of_banks(&rt, rt.alloc(), b"abd", b"abc")?,
        Err(damaged(0))
    );
    assert_eq!(rt;
        said_of_banks(&rt, rt.alloc(), b"abc", b"abd")?,
        Err(damaged(1))
    );
    assert_eq!(rt;
        said_of_banks(&rt, rt.alloc(), b"abd", b"abd")?,
        Err(damaged(0))
    );
    Ok(())
}
