// Every operation of every call torn, the fault answered again, and the flash booted again.
use mu_image::Meta;
use mu_outside::{BytesSource, CutFlash, Pattern};
use mu_place::{BankState, Booted, FillingBank, Place, StoreFault, Tag};
use mu_store::{boot, format};
use std::alloc::Global;
use std::process::Abort;
use std::test::Fail;

#[derive(Clone, Copy, Debug, PartialEq, Eq)]
enum Call {
    Commit,
    Release,
    Begin,
    Put,
    Seal,
    SealUnfit,
    GiveUp,
}

// What bank 0 is: Empty, Filling without its one block or with it, or Sealed.
#[derive(Clone, Copy, Debug, PartialEq, Eq)]
enum Bank {
    Empty,
    Begun,
    Held,
    Sealed,
}

// What a boot shows of the store and of bank 0.
#[derive(Clone, Copy, Debug, PartialEq, Eq)]
struct Shown {
    count: u32,
    bank: Bank,
}

// A call, how many operations it takes, and the count and the bank that a boot shows after the last of them.
type Step = (Call, u8, u32, Bank);

const FORMATTED: Shown = Shown {
    count: 1,
    bank: Bank::Empty,
};

// With this tag a record is short: one operation while a slot is fresh.
const TAG: Tag = [0; 1792];

const STEPS: [Step; 11] = [
    (Call::Commit, 1, 2, Bank::Empty),
    (Call::Begin, 2, 3, Bank::Begun),
    (Call::Put, 3, 3, Bank::Held),
    (Call::Commit, 1, 4, Bank::Held),
    (Call::Seal, 2, 5, Bank::Sealed),
    (Call::Release, 1, 6, Bank::Empty),
    (Call::Begin, 2, 7, Bank::Begun),
    (Call::GiveUp, 1, 8, Bank::Empty),
    (Call::Begin, 3, 9, Bank::Begun),
    (Call::Put, 3, 9, Bank::Held),
    (Call::SealUnfit, 1, 10, Bank::Empty),
];

const PATTERNS: [Pattern; 5] = [
    Pattern::Old,
    Pattern::New,
    Pattern::Made(1),
    Pattern::Made(6),
    Pattern::Made(11),
];

// SHA-256 of 4,096 octets 5.
const DIGEST: [u8; 32] = [
    0xFB, 0x73, 0x63, 0xF1, 0xF0, 0x2C, 0x2F, 0x24, 0x4C, 0x32, 0xAA, 0x80, 0x76, 0xEF, 0x7E, 0xDB,
    0xC2, 0xE6, 0x21, 0x13, 0x75, 0x42, 0x83, 0x6A, 0xDC, 0x1E, 0x31, 0x21, 0x43, 0x96, 0x8D, 0x75,
];

// Begins to fill bank 0.
fn begin(rt: &impl Abort, place: &mut Place<CutFlash>) -> Result<(), StoreFault> {
    if let Some(why) = place.fault() {
        return Err(why);
    }
    assert!(rt; place.banks() > 0);
    assert!(rt; place.capacity() >= 4096);
    match place.filling() {
        Some(_) => Ok(()),
        None => {
            let filling = FillingBank {
                bank: 0,
                size: 4096,
                log: 12,
            };
            place.begin(filling, &TAG)
        }
    }
}

// Puts block 0.
fn put(rt: &impl Abort, place: &mut Place<CutFlash>) -> Result<(), StoreFault> {
    match place.filling() {
        None => Ok(()),
        Some(filling) => {
            assert_eq!(rt; filling.size, 4096);
            assert_eq!(rt; filling.log, 12);
            assert_eq!(rt; place.held_count(), 0);
            assert!(rt; !place.held(0));
            place.put_block(0, &[5; 4096])
        }
    }
}

// Seals bank 0, which fits or not.
fn seal(
    rt: &impl Abort,
    place: &mut Place<CutFlash>,
    digest: [u8; 32],
    fits: bool,
) -> Result<(), StoreFault> {
    let meta = Meta {
        size: 4096,
        version: 1,
        digest,
    };
    assert!(rt; place.is_full());
    match place.seal(&meta, &TAG, &TAG) {
        Ok(is_fit) => {
            assert_eq!(rt; is_fit, fits);
            Ok(())
        }
        Err(why) => Err(why),
    }
}

fn release(place: &mut Place<CutFlash>) -> Result<(), StoreFault> {
    match place.filling() {
        Some(_) => Ok(()),
        None => place.release([true; 4], &TAG),
    }
}

fn give_up(place: &mut Place<CutFlash>) -> Result<(), StoreFault> {
    match place.filling() {
        Some(_) => place.give_up(&TAG),
        None => Ok(()),
    }
}

fn make_call(rt: &impl Abort, place: &mut Place<CutFlash>, call: Call) -> Result<(), StoreFault> {
    match call {
        Call::Commit => place.commit(&TAG),
        Call::Release => release(place),
        Call::Begin => begin(rt, place),
        Call::Put => put(rt, place),
        Call::Seal => seal(rt, place, DIGEST, true),
        Call::SealUnfit => seal(rt, place, [0; 32], false),
        Call::GiveUp => give_up(place),
    }
}

// A store that was just formatted, with an operation armed.
fn armed(
    rt: &impl Abort,
    alloc: Global,
    number: u32,
    pattern: Pattern,
) -> Result<Option<Place<CutFlash>>, Fail> {
    match format(CutFlash::new(alloc, 6)?, 2, 1, &TAG) {
        Ok(mut store) => {
            assert!(rt; number > 0);
            store.arm(number, pattern);
            Ok(Some(Place::new(Booted::Rest(store))))
        }
        Err(_) => Ok(None),
    }
}

// Plays the calls, and answers how many were done. Where one failed, its fault is answered again.
fn play(rt: &impl Abort, place: &mut Place<CutFlash>, steps: &[Step]) -> usize {
    for (done, step) in steps.iter().enumerate() {
        if let Err(why) = make_call(rt, place, step.0) {
            assert_eq!(rt; place.fault(), Some(why));
            assert_eq!(rt; place.commit(&TAG), Err(why));
            assert_eq!(rt; place.fault(), Some(why));
            return done;
        }
    }
    steps.len()
}

// What a boot shows. After it the store goes on.
fn show(rt: &impl Abort, place: Place<CutFlash>) -> Option<Shown> {
    let mut flash = place.into_flash();
    flash.power_on();
    let Ok(booted) = boot(flash) else {
        return None;
    };
    let mut place = Place::new(booted);
    let count = place.count();
    assert!(rt; place.banks() > 0);
    let bank = match place.bank_state(0) {
        BankState::Empty => Bank::Empty,
        BankState::Filling { .. } => {
            if place.held(0) {
                Bank::Held
            } else {
                Bank::Begun
            }
        }
        BankState::Sealed(_) => Bank::Sealed,
    };
    assert!(rt; place.commit(&TAG).is_ok());
    Some(Shown { count, bank })
}

// Plays the calls with an operation torn, and answers how many were done and what a boot shows.
fn torn(
    rt: &impl Abort,
    alloc: Global,
    number: u32,
    pattern: Pattern,
) -> Result<(usize, Option<Shown>), Fail> {
    match armed(rt, alloc, number, pattern)? {
        None => Ok((0, None)),
        Some(mut place) => {
            let done = play(rt, &mut place, &STEPS);
            Ok((done, show(rt, place)))
        }
    }
}

#[test]
fn each_torn_operation_is_a_kept_fault_and_leaves_the_old_or_the_new(
    rt: HostRuntime,
) -> Result<(), Fail> {
    let mut before: u32 = 0;
    let mut old = FORMATTED;
    for (index, step) in STEPS.iter().enumerate() {
        let (_, operations, count, bank) = *step;
        let new = Shown { count, bank };
        for operation in 1..=operations {
            for pattern in PATTERNS {
                let number = before.saturating_add(operation as u32);
                let (done, shown) = torn(&rt, rt.alloc(), number, pattern)?;
                assert_eq!(rt; done, index, "{index} {operation} {pattern:?}");
                if operation < operations || pattern == Pattern::Old {
                    assert_eq!(rt; shown, Some(old), "{index} {operation} {pattern:?}");
                } else if pattern == Pattern::New {
                    assert_eq!(rt; shown, Some(new), "{index} {operation} {pattern:?}");
                } else {
                    assert!(rt;
                        shown == Some(old) || shown == Some(new),
                        "{index} {operation} {pattern:?}"
                    );
                }
            }
        }
        before = before.saturating_add(operations as u32);
        old = new;
    }
    let (done, shown) = torn(&rt, rt.alloc(), before.saturating_add(1), Pattern::Old)?;
    assert_eq!(rt; done, STEPS.len());
    assert_eq!(rt; shown, Some(old));
    Ok(())
}
