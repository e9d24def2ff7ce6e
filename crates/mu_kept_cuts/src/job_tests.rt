// One job from its beginning to its end, and a fault that is kept.
use mu_blob_rows::Serving;
use mu_image::Meta;
use mu_kept::{BankState, Booted, Expect, JobStore, Note, StoreFault};
use mu_model_node::Parameters;
use mu_outside::{CutFlash, Pattern, Plug};
use mu_store::{boot, format};
use std::alloc::Global;
use std::process::Abort;
use std::test::Fail;

const NOTE: Note = [0; 1728];

const WHAT: Expect = Expect {
    id: 7,
    size: 3,
    base: 5,
    bank: 1,
};

const PARAMETERS: Parameters = Parameters {
    mode: 1,
    size: 3,
    log: 12,
    mtu: 380,
};

// SHA-256 of 61 62 63.
const DIGEST: [u8; 32] = [
    0xBA, 0x78, 0x16, 0xBF, 0x8F, 0x01, 0xCF, 0xEA, 0x41, 0x41, 0x40, 0xDE, 0x5D, 0xAE, 0x22, 0x23,
    0xB0, 0x03, 0x61, 0xA3, 0x96, 0x17, 0x7A, 0x9C, 0xB4, 0x10, 0xFF, 0x61, 0xF2, 0x00, 0x15, 0xAD,
];

// A store without a job.
fn made(alloc: Global) -> Result<Option<JobStore<CutFlash>>, Fail> {
    match format(CutFlash::new(alloc, 6)?, 2, 1, &[0; 1792]) {
        Ok(store) => match JobStore::new(Booted::Rest(store)) {
            Ok(store) => Ok(Some(store)),
            Err(_) => Ok(None),
        },
        Err(_) => Ok(None),
    }
}

// Booted again; with `cut`, over a flash whose first operation loses the power.
fn again(store: JobStore<CutFlash>, cut: bool) -> Option<JobStore<CutFlash>> {
    let mut flash = store.into_flash();
    flash.power_on();
    if cut {
        flash.arm(1, Pattern::New);
    }
    match boot(flash) {
        Ok(booted) => match JobStore::new(booted) {
            Ok(store) => Some(store),
            Err(_) => None,
        },
        Err(_) => None,
    }
}

fn expect(rt: &impl Abort, store: &mut JobStore<CutFlash>) -> Result<(), StoreFault> {
    if let Some(why) = store.fault() {
        return Err(why);
    }
    assert!(rt; store.capacity() >= 3);
    assert!(rt; store.banks() > 1);
    store.expect(WHAT, &NOTE)
}

fn begin(rt: &impl Abort, store: &mut JobStore<CutFlash>) -> Result<(), StoreFault> {
    if let Some(why) = store.fault() {
        return Err(why);
    }
    assert!(rt; store.capacity() >= 3);
    match store.kept().serving {
        Serving::Lacking(transfer) if transfer.size == 3 => match transfer.parameters {
            None => store.begin(PARAMETERS),
            Some(_) => Ok(()),
        },
        _ => Ok(()),
    }
}

#[test]
fn a_job_is_kept_from_its_beginning_to_its_end(rt: HostRuntime) -> Result<(), Fail> {
    if let Some(mut store) = made(rt.alloc())? {
        assert!(rt; store.job().is_none());
        assert!(rt; expect(&rt, &mut store).is_ok());
        assert_eq!(rt; store.job(), Some(WHAT));
        assert!(rt; !store.has_parameters());
        assert!(rt; begin(&rt, &mut store).is_ok());
        assert!(rt; store.has_parameters());
        if let Some(store) = again(store, false) {
            assert_eq!(rt; store.job(), Some(WHAT));
            assert!(rt; store.has_parameters());
            assert!(rt; store.fault().is_none());
            assert!(rt; store.fills());
            assert_eq!(rt; store.count(), 3);
            assert_eq!(rt; store.blocks(0).count, 1);
            assert_eq!(rt; store.blocks_missing().count(), 1);
        } else {
            assert!(rt; false);
        }
    } else {
        assert!(rt; false);
    }
    Ok(())
}

fn put(rt: &impl Abort, store: &mut JobStore<CutFlash>) -> Result<(), StoreFault> {
    if let Some(why) = store.fault() {
        return Err(why);
    }
    assert!(rt; !store.held(0));
    match store.kept().serving {
        Serving::Lacking(transfer) if transfer.parameters == Some(PARAMETERS) => {
            store.put_block(0, &[0x61, 0x62, 0x63])
        }
        _ => Ok(()),
    }
}

fn verify(rt: &impl Abort, store: &mut JobStore<CutFlash>) -> Result<bool, StoreFault> {
    if let Some(why) = store.fault() {
        return Err(why);
    }
    let meta = Meta {
        size: 3,
        version: 2,
        digest: DIGEST,
    };
    assert!(rt; store.fills());
    assert!(rt; store.is_whole());
    store.verify(&meta, true, &NOTE, &NOTE)
}

// The first operation fails, and from then on each call.
fn is_kept(rt: &impl Abort, store: Option<JobStore<CutFlash>>) {
    if let Some(mut store) = store {
        assert_eq!(rt; store.drop_job(&NOTE), Err(StoreFault::Flash));
        assert_eq!(rt; store.commit(&NOTE), Err(StoreFault::Flash));
        assert_eq!(rt; expect(rt, &mut store), Err(StoreFault::Flash));
        assert_eq!(rt; store.fault(), Some(StoreFault::Flash));
    } else {
        assert!(rt; false);
    }
}

#[test]
fn a_job_is_verified_and_a_fault_is_kept(rt: HostRuntime) -> Result<(), Fail> {
    if let Some(mut store) = made(rt.alloc())? {
        assert!(rt; expect(&rt, &mut store).is_ok());
        assert!(rt; begin(&rt, &mut store).is_ok());
        assert!(rt; put(&rt, &mut store).is_ok());
        assert_eq!(rt; store.held_count(), 1);
        assert_eq!(rt; verify(&rt, &mut store), Ok(true));
        assert!(rt; store.fault().is_none());
        assert!(rt; !store.fills());
        assert!(rt; store.is_whole());
        assert!(rt; store.held(0));
        assert!(rt; !store.held(1));
        assert!(rt; store.banks() > 1);
        assert!(rt; matches!(store.bank_state(1), BankState::Sealed(_)));
        is_kept(&rt, again(store, true));
    } else {
        assert!(rt; false);
    }
    Ok(())
}
