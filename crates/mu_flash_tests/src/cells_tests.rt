// Control pages, slots and marks over flashes in memory.
ghost use Rattle.std.specs.Prelude.{◌<◌, ◌^◌};

use mu_cells::{
    Mark, erase_page, read_mark, read_page, read_slot, write_mark, write_page, write_slot,
};
use mu_model_record::laws::turns;
use mu_outside::{CutFlash, Failed, FaultyFlash, Flash, Pattern, Plug, RamFlash};
use std::alloc::Global;
use std::process::Abort;
use std::test::Fail;

// A long record: format 1 at place 4.
fn long_record(first: u8) -> [u8; 2048] {
    let mut octets = [0; 2048];
    octets[0] = first;
    octets[1] = 0x55;
    octets[2] = 0x46;
    octets[3] = 0x31;
    octets[4] = 1;
    octets[2047] = first;
    octets
}

// A short record: format 2 at place 4.
fn short_record(first: u8) -> [u8; 512] {
    let mut octets = [0; 512];
    octets[0] = first;
    octets[4] = 2;
    octets
}

fn put_page<F: Flash>(rt: &impl Abort, flash: &mut F, octets: &[u8; 2048]) -> Result<(), Failed> {
    assert!(rt; flash.pages() > 0);
    write_page(flash, 0, octets)
}

fn page<F: Flash>(rt: &impl Abort, flash: &mut F) -> Result<Option<[u8; 2048]>, Failed> {
    assert!(rt; flash.pages() > 0);
    read_page(flash, 0)
}

fn slot<F: Flash>(rt: &impl Abort, flash: &mut F, number: u8) -> Result<Option<[u8; 512]>, Failed> {
    assert!(rt; flash.pages() > 0 && number < 4);
    read_slot(flash, 0, number)
}

// Erases the page, and writes one slot of it.
fn put_slot<F: Flash>(flash: &mut F, number: u8, octets: &[u8; 512]) -> Result<(), Failed>
    requires one { 0 < (F.seen flash.old).pages }
    requires few { number < 4 }
{
    turns();
    erase_page(flash, 0)?;
    write_slot(flash, 0, number, octets)
}

// Sets the mark at a place that is unset.
fn set_mark<F: Flash>(rt: &impl Abort, flash: &mut F, at: u32) -> Result<(), Failed> {
    assert!(rt; at < 4096 && flash.pages() > 0);
    match read_mark(flash, at)? {
        Mark::Unset => write_mark(flash, at),
        _ => Ok(()),
    }
}

fn mark<F: Flash>(rt: &impl Abort, flash: &mut F, at: u32) -> Result<Mark, Failed> {
    assert!(rt; at < 4096 && flash.pages() > 0);
    read_mark(flash, at)
}

#[test]
fn a_record_page_is_coded(rt: HostRuntime) -> Result<(), Fail> {
    let mut flash = RamFlash::new(rt.alloc(), 1)?;
    let octets = long_record(0x4D);
    assert_eq!(rt; put_page(&rt, &mut flash, &octets), Ok(()));
    assert_eq!(rt; flash.octets().len(), 4096);
    assert_eq!(rt;
        &flash.octets()[..8],
        [0x4D, 0xB2, 0x55, 0xAA, 0x46, 0xB9, 0x31, 0xCE].as_slice()
    );
    assert_eq!(rt; page(&rt, &mut flash), Ok(Some(octets)));
    Ok(())
}

// The page that an operation of a write of a page leaves, cut by its pattern, over an older page.
fn page_left(
    rt: &impl Abort,
    alloc: Global,
    number: u32,
    pattern: Pattern,
) -> Result<Option<[u8; 2048]>, Fail> {
    let mut flash = CutFlash::new(alloc, 1)?;
    assert_eq!(rt; put_page(rt, &mut flash, &long_record(0x4D)), Ok(()));
    flash.power_on();
    assert!(rt; number > 0);
    flash.arm(number, pattern);
    assert_eq!(rt; put_page(rt, &mut flash, &long_record(0x7E)), Err(Failed));
    assert_eq!(rt; page(rt, &mut flash), Err(Failed));
    flash.power_on();
    Ok(page(rt, &mut flash)?)
}

#[test]
fn a_torn_page_is_the_old_word_the_new_one_or_none(rt: HostRuntime) -> Result<(), Fail> {
    for (number, pattern, left) in [
        (1, Pattern::Old, Some(0x4D)),
        (1, Pattern::New, None),
        (1, Pattern::Made(6), None),
        (1, Pattern::Made(7), None),
        (2, Pattern::Old, None),
        (2, Pattern::New, Some(0x7E)),
        (2, Pattern::Made(6), None),
        (2, Pattern::Made(7), None),
    ] {
        let found = page_left(&rt, rt.alloc(), number, pattern)?;
        assert_eq!(rt; found.map(|octets| octets[0]), left, "{number} {pattern:?}");
    }
    Ok(())
}

#[test]
fn an_erase_that_sets_one_bit_leaves_no_word(rt: HostRuntime) -> Result<(), Fail> {
    let mut word = [0; 4096];
    for i in 0..2048usize {
        word[2 * i] = 0x4D;
        word[2 * i + 1] = 0xB2;
    }
    let mut whole = FaultyFlash::new(rt.alloc(), &word, &[], &[])?;
    assert_eq!(rt; page(&rt, &mut whole), Ok(Some([0x4D; 2048])));
    assert_eq!(rt; slot(&rt, &mut whole, 3), Ok(Some([0x4D; 512])));
    word[4001] |= 1;
    let mut torn = FaultyFlash::new(rt.alloc(), &word, &[], &[2])?;
    assert_eq!(rt; page(&rt, &mut torn), Ok(None));
    assert_eq!(rt; page(&rt, &mut torn), Err(Failed));
    assert_eq!(rt; slot(&rt, &mut torn, 3), Ok(None));
    assert_eq!(rt; slot(&rt, &mut torn, 2), Ok(Some([0x4D; 512])));
    Ok(())
}

// What is found in the written slot and in slot 0 after a write of a slot of an erased page, cut by a pattern or not.
fn slot_left(
    rt: &impl Abort,
    alloc: Global,
    number: u8,
    cut: Option<Pattern>,
) -> Result<[Option<u8>; 2], Fail> {
    let mut flash = CutFlash::new(alloc, 1)?;
    assert!(rt; number < 4);
    if let Some(pattern) = cut {
        flash.arm(2, pattern);
    }
    let done = put_slot(&mut flash, number, &short_record(0x4D));
    assert_eq!(rt; done.is_ok(), cut.is_none());
    flash.power_on();
    let written = slot(rt, &mut flash, number)?.map(|octets| octets[0]);
    let first = slot(rt, &mut flash, 0)?.map(|octets| octets[0]);
    Ok([written, first])
}

#[test]
fn a_torn_slot_is_the_new_word_or_none(rt: HostRuntime) -> Result<(), Fail> {
    for (number, cut, left) in [
        (0, None, [Some(0x4D), Some(0x4D)]),
        (2, None, [Some(0x4D), None]),
        (2, Some(Pattern::Old), [None, None]),
        (2, Some(Pattern::New), [Some(0x4D), None]),
        (2, Some(Pattern::Made(6)), [None, None]),
        (3, Some(Pattern::Made(7)), [None, None]),
    ] {
        assert_eq!(rt;
            slot_left(&rt, rt.alloc(), number, cut)?,
            left,
            "{number} {cut:?}"
        );
    }
    Ok(())
}

// The mark that a write of it leaves, cut by its pattern.
fn mark_left(rt: &impl Abort, alloc: Global, pattern: Pattern) -> Result<Mark, Fail> {
    let mut flash = CutFlash::new(alloc, 1)?;
    flash.arm(1, pattern);
    assert_eq!(rt; set_mark(rt, &mut flash, 7), Err(Failed));
    flash.power_on();
    Ok(mark(rt, &mut flash, 7)?)
}

#[test]
fn a_mark_is_set_or_unset(rt: HostRuntime) -> Result<(), Fail> {
    for (pattern, left) in [
        (Pattern::Old, Mark::Unset),
        (Pattern::New, Mark::Set),
        (Pattern::Made(6), Mark::Unset),
        (Pattern::Made(7), Mark::Set),
    ] {
        assert_eq!(rt; mark_left(&rt, rt.alloc(), pattern)?, left, "{pattern:?}");
    }
    let mut flash = RamFlash::new(rt.alloc(), 1)?;
    assert_eq!(rt; set_mark(&rt, &mut flash, 7), Ok(()));
    assert_eq!(rt; mark(&rt, &mut flash, 7), Ok(Mark::Set));
    assert_eq!(rt; mark(&rt, &mut flash, 8), Ok(Mark::Unset));
    let mut other = FaultyFlash::new(rt.alloc(), &[0xFC; 4096], &[], &[])?;
    assert_eq!(rt; mark(&rt, &mut other, 0), Ok(Mark::Other));
    Ok(())
}
