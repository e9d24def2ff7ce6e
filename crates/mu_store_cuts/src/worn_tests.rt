// Calls at the last count.
use crate::made::{Change, PAGE, blank, code, flash, record};
use mu_image::Meta;
use mu_outside::{BytesSource, FaultyFlash, Source};
use mu_store::{
    BankState, Booted, FillWhy, Filling, Sealing, Stopped, Store, StoreFault, Tag, boot,
};
use std::alloc::Global;
use std::process::Abort;
use std::test::Fail;

const TAG: Tag = [0; 1792];

#[derive(Clone, Copy, Debug, PartialEq, Eq)]
enum Call {
    Commit,
    Release,
    Begin,
    Seal,
    GiveUp,
}

// Why a call stopped, and the flash.
fn ended(stopped: Stopped<FaultyFlash>) -> (Option<StoreFault>, FaultyFlash) {
    (Some(stopped.why), stopped.flash)
}

fn of_store(
    called: Result<Store<FaultyFlash>, Stopped<FaultyFlash>>,
) -> (Option<StoreFault>, FaultyFlash) {
    match called {
        Ok(store) => (None, store.into_flash()),
        Err(stopped) => ended(stopped),
    }
}

fn of_filling(
    called: Result<Filling<FaultyFlash>, Stopped<FaultyFlash>>,
) -> (Option<StoreFault>, FaultyFlash) {
    match called {
        Ok(filling) => (None, filling.into_flash()),
        Err(stopped) => ended(stopped),
    }
}

fn call_store(
    rt: &impl Abort,
    store: Store<FaultyFlash>,
    call: Call,
) -> (Option<StoreFault>, FaultyFlash) {
    match call {
        Call::Commit => of_store(store.commit(&TAG)),
        Call::Release => of_store(store.release([true; 4], &TAG)),
        Call::Begin => {
            assert!(rt; store.banks() > 0);
            assert!(rt; store.capacity() >= 4096);
            of_filling(store.begin(0, 4096, 12, &TAG))
        }
        _ => (None, store.into_flash()),
    }
}

fn seal(rt: &impl Abort, filling: Filling<FaultyFlash>) -> (Option<StoreFault>, FaultyFlash) {
    assert_eq!(rt; filling.size(), 4096);
    assert_eq!(rt; filling.log(), 12);
    assert!(rt; filling.all_held());
    let meta = Meta {
        size: 4096,
        version: 1,
        digest: [0; 32],
    };
    match filling.seal(&meta, &TAG, &TAG) {
        Ok(Sealing::Fit(store)) => (None, store.into_flash()),
        Ok(Sealing::Unfit(store)) => (None, store.into_flash()),
        Err(stopped) => ended(stopped),
    }
}

fn call_filling(
    rt: &impl Abort,
    filling: Filling<FaultyFlash>,
    call: Call,
) -> (Option<StoreFault>, FaultyFlash) {
    match call {
        Call::Commit => of_filling(filling.commit(&TAG)),
        Call::Seal => seal(rt, filling),
        Call::GiveUp => of_store(filling.give_up(&TAG)),
        _ => (None, filling.into_flash()),
    }
}

// The last count.
const LAST: [Change; 4] = [(8, 255), (9, 255), (10, 255), (11, 255)];

// The same, with a bank that is Filling.
const LAST_FILLING: [Change; 7] = [
    (8, 255),
    (9, 255),
    (10, 255),
    (11, 255),
    (16, 1),
    (17, 12),
    (21, 16),
];

// A flash at the last count, whose block is held where a bank is Filling.
fn last(rt: &impl Abort, alloc: Global, changes: &[Change]) -> Result<FaultyFlash, Fail> {
    let mut octets = Vec::new(alloc);
    code(&mut octets, &record(rt, 0, changes))?;
    blank(&mut octets, PAGE)?;
    octets.push(0xFE)?;
    flash(rt, alloc, &octets, 6)
}

// What a call answers at the last count, with nothing written.
fn answer(
    rt: &impl Abort,
    alloc: Global,
    changes: &[Change],
    call: Call,
) -> Result<Option<StoreFault>, Fail> {
    let flash = last(rt, alloc, changes)?;
    let before = Vec::from_slice(alloc, flash.octets())?;
    let (why, after) = match boot(flash) {
        Ok(Booted::Rest(store)) => call_store(rt, store, call),
        Ok(Booted::Fill(filling)) => call_filling(rt, filling, call),
        Err(fail) => (None, fail.flash),
    };
    assert!(rt; after.octets() == before.as_slice());
    Ok(why)
}

#[test]
fn each_record_is_refused_at_the_last_count(rt: HostRuntime) -> Result<(), Fail> {
    for call in [Call::Commit, Call::Release, Call::Begin] {
        let why = answer(&rt, rt.alloc(), &LAST, call)?;
        assert_eq!(rt; why, Some(StoreFault::Worn), "{call:?}");
    }
    for call in [Call::Commit, Call::Seal, Call::GiveUp] {
        let why = answer(&rt, rt.alloc(), &LAST_FILLING, call)?;
        assert_eq!(rt; why, Some(StoreFault::Worn), "{call:?}");
    }
    Ok(())
}

// Fills bank 0 at the last count: nothing is read and nothing is written.
fn fill_last(
    rt: &impl Abort,
    store: Store<FaultyFlash>,
    source: &mut BytesSource,
) -> Option<FaultyFlash> {
    assert!(rt; store.banks() > 0);
    assert!(rt; matches!(store.bank_state(0), BankState::Empty));
    match store.fill_whole(0, source, 2, &TAG) {
        Ok(_) => None,
        Err(fail) => {
            assert_eq!(rt; fail.why, FillWhy::Worn);
            Some(fail.flash)
        }
    }
}

#[test]
fn no_bank_is_filled_at_the_last_count(rt: HostRuntime) -> Result<(), Fail> {
    let flash = last(&rt, rt.alloc(), &LAST)?;
    let before = Vec::from_slice(rt.alloc(), flash.octets())?;
    let mut source = BytesSource::new(rt.alloc(), b"abc", &[])?;
    let after = match boot(flash) {
        Ok(Booted::Rest(store)) => fill_last(&rt, store, &mut source),
        Ok(Booted::Fill(_filling)) => None,
        Err(_fail) => None,
    };
    match after {
        Some(flash) => assert!(rt; flash.octets() == before.as_slice()),
        None => assert!(rt; false),
    }
    let mut left = [0; 4];
    assert!(rt; source.read(&mut left) == Ok(3));
    Ok(())
}
