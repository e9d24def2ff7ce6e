use mu_outside::{BytesSource, RamFlash};
use mu_store::{BankState, Booted, boot};
use mu_updsrv::{FillWhy, make_node, make_old_node, make_pair};
use std::alloc::Global;
use std::process::Abort;
use std::test::Fail;

// What a boot shows: the count, the first octet of the note, and the sizes of the images in banks 0 and 1.
type Shown = Option<(u32, u8, u32, u32)>;

fn size_of(state: BankState) -> u32 {
    match state {
        BankState::Sealed(meta) => meta.size,
        _ => 0,
    }
}

fn shown(rt: &impl Abort, flash: RamFlash) -> Shown {
    match boot(flash) {
        Ok(Booted::Rest(store)) => {
            assert!(rt; store.banks() > 1);
            let kind = store.tag()[64];
            Some((
                store.count(),
                kind,
                size_of(store.bank_state(0)),
                size_of(store.bank_state(1)),
            ))
        }
        _ => None,
    }
}

// A node of one image of banks of a page.
fn one(
    rt: &impl Abort,
    alloc: Global,
    octets: &[u8],
    fails: &[u32],
) -> Result<Result<Shown, FillWhy>, Fail> {
    let mut source = BytesSource::new(alloc, octets, fails)?;
    match make_node(RamFlash::new(alloc, 6)?, 1, &mut source, 7) {
        Ok(flash) => Ok(Ok(shown(rt, flash))),
        Err(fail) => Ok(Err(fail.why)),
    }
}

// One of two images, of which the first has so many octets.
fn two(
    rt: &impl Abort,
    alloc: Global,
    octets: &[u8],
    fails: &[u32],
    first: u32,
) -> Result<Result<Shown, FillWhy>, Fail> {
    assert!(rt; first > 0);
    let mut source = BytesSource::new(alloc, octets, fails)?;
    match make_pair(RamFlash::new(alloc, 8)?, 1, &mut source, first, 7, 8) {
        Ok(flash) => Ok(Ok(shown(rt, flash))),
        Err(fail) => Ok(Err(fail.why)),
    }
}

#[test]
fn a_node_has_its_image(rt: HostRuntime) -> Result<(), Fail> {
    let alloc = rt.alloc();
    assert!(rt; one(&rt, alloc, b"abc", &[])? == Ok(Some((2, 3, 3, 0))));
    assert!(rt; one(&rt, alloc, &[5; 4096], &[])? == Ok(Some((2, 3, 4096, 0))));
    assert!(rt; one(&rt, alloc, b"", &[])? == Err(FillWhy::Empty));
    assert!(rt; one(&rt, alloc, &[5; 4097], &[])? == Err(FillWhy::TooBig));
    assert!(rt; one(&rt, alloc, b"abc", &[2])? == Err(FillWhy::Read));
    Ok(())
}

#[test]
fn an_old_node_has_the_old_note(rt: HostRuntime) -> Result<(), Fail> {
    let alloc = rt.alloc();
    let mut source = BytesSource::new(alloc, b"abc", &[])?;
    match make_old_node(RamFlash::new(alloc, 6)?, 1, &mut source, 7) {
        Ok(flash) => assert!(rt; shown(&rt, flash) == Some((2, 1, 3, 0))),
        Err(_) => assert!(rt; false),
    }
    Ok(())
}

#[test]
fn a_pair_has_both_images(rt: HostRuntime) -> Result<(), Fail> {
    let alloc = rt.alloc();
    assert!(rt; two(&rt, alloc, b"abc", &[], 1)? == Ok(Some((3, 3, 1, 2))));
    assert!(rt; two(&rt, alloc, b"abc", &[], 2)? == Ok(Some((3, 3, 2, 1))));
    assert!(rt; two(&rt, alloc, &[5; 8192], &[], 4096)? == Ok(Some((3, 3, 4096, 4096))));
    Ok(())
}

#[test]
fn a_pair_that_lacks_an_image_or_has_too_much_is_not_made(rt: HostRuntime) -> Result<(), Fail> {
    let alloc = rt.alloc();
    assert!(rt; two(&rt, alloc, b"", &[], 1)? == Err(FillWhy::Empty));
    assert!(rt; two(&rt, alloc, b"abc", &[], 3)? == Err(FillWhy::Empty));
    assert!(rt; two(&rt, alloc, b"abc", &[], 4)? == Err(FillWhy::Empty));
    assert!(rt; two(&rt, alloc, &[5; 4098], &[], 4097)? == Err(FillWhy::TooBig));
    assert!(rt; two(&rt, alloc, &[5; 4098], &[], 1)? == Err(FillWhy::TooBig));
    assert!(rt; two(&rt, alloc, b"abc", &[1], 1)? == Err(FillWhy::Read));
    assert!(rt; two(&rt, alloc, b"abc", &[2], 1)? == Err(FillWhy::Read));
    Ok(())
}
