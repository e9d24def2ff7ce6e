// Every operation of every call cut, and the flash booted again.
use mu_image::Meta;
use mu_outside::{BytesSource, CutFlash, Pattern};
use mu_store::{BankState, Booted, Filling, Sealing, Stopped, Store, Tag, boot, format};
use std::alloc::Global;
use std::process::Abort;
use std::test::Fail;

#[derive(Clone, Copy, Debug, PartialEq, Eq)]
enum Call {
    Commit,
    Release,
    Begin,
    Put,
    Seal,
    SealUnfit,
    GiveUp,
    FillWhole,
}

// What bank 0 is: Empty, Filling without its one block or with it, or Sealed.
#[derive(Clone, Copy, Debug, PartialEq, Eq)]
enum Bank {
    Empty,
    Begun,
    Held,
    Sealed,
}

// What a boot shows of the store and of bank 0.
#[derive(Clone, Copy, Debug, PartialEq, Eq)]
struct Shown {
    count: u32,
    bank: Bank,
}

// A call, how many operations it takes, and the count and the bank that a boot shows after the last of them. Before that it shows what it did
// before the call.
type Step = (Call, u8, u32, Bank);

const FORMATTED: Shown = Shown {
    count: 1,
    bank: Bank::Empty,
};

// With a tag whose octets from 256 on are 0 a record is short: one operation while a slot is fresh.
const SHORT: Tag = [0; 1792];

const SHORT_STEPS: [Step; 12] = [
    (Call::Commit, 1, 2, Bank::Empty),
    (Call::Begin, 2, 3, Bank::Begun),
    (Call::Put, 3, 3, Bank::Held),
    (Call::Commit, 1, 4, Bank::Held),
    (Call::Seal, 2, 5, Bank::Sealed),
    (Call::Release, 1, 6, Bank::Empty),
    (Call::FillWhole, 3, 7, Bank::Sealed),
    (Call::Begin, 2, 8, Bank::Begun),
    (Call::GiveUp, 2, 9, Bank::Empty),
    (Call::Begin, 2, 10, Bank::Begun),
    (Call::Put, 3, 10, Bank::Held),
    (Call::SealUnfit, 1, 11, Bank::Empty),
];

// With another tag a record is long: an erase and a program.
const LONG: Tag = [9; 1792];

const LONG_STEPS: [Step; 12] = [
    (Call::Commit, 2, 2, Bank::Empty),
    (Call::Begin, 3, 3, Bank::Begun),
    (Call::Put, 3, 3, Bank::Held),
    (Call::Commit, 2, 4, Bank::Held),
    (Call::Seal, 2, 5, Bank::Sealed),
    (Call::Release, 2, 6, Bank::Empty),
    (Call::FillWhole, 4, 7, Bank::Sealed),
    (Call::Begin, 3, 8, Bank::Begun),
    (Call::GiveUp, 2, 9, Bank::Empty),
    (Call::Begin, 3, 10, Bank::Begun),
    (Call::Put, 3, 10, Bank::Held),
    (Call::SealUnfit, 2, 11, Bank::Empty),
];

const PATTERNS: [Pattern; 5] = [
    Pattern::Old,
    Pattern::New,
    Pattern::Made(1),
    Pattern::Made(6),
    Pattern::Made(11),
];

// SHA-256 of 4,096 octets 5.
const DIGEST: [u8; 32] = [
    0xFB, 0x73, 0x63, 0xF1, 0xF0, 0x2C, 0x2F, 0x24, 0x4C, 0x32, 0xAA, 0x80, 0x76, 0xEF, 0x7E, 0xDB,
    0xC2, 0xE6, 0x21, 0x13, 0x75, 0x42, 0x83, 0x6A, 0xDC, 0x1E, 0x31, 0x21, 0x43, 0x96, 0x8D, 0x75,
];

// A call that came to its end, or stopped.
#[derive(Drop)]
enum Played {
    Done(Booted<CutFlash>),
    Stopped(CutFlash),
}

fn rest(played: Result<Store<CutFlash>, Stopped<CutFlash>>) -> Played {
    match played {
        Ok(store) => Played::Done(Booted::Rest(store)),
        Err(stopped) => Played::Stopped(stopped.flash),
    }
}

fn fill(played: Result<Filling<CutFlash>, Stopped<CutFlash>>) -> Played {
    match played {
        Ok(filling) => Played::Done(Booted::Fill(filling)),
        Err(stopped) => Played::Stopped(stopped.flash),
    }
}

fn fill_whole(
    rt: &impl Abort,
    alloc: Global,
    store: Store<CutFlash>,
    tag: &Tag,
) -> Result<Played, Fail> {
    assert!(rt; store.banks() > 0);
    assert!(rt; matches!(store.bank_state(0), BankState::Empty));
    let mut source = BytesSource::new(alloc, b"abc", &[])?;
    match store.fill_whole(0, &mut source, 2, tag) {
        Ok(store) => Ok(Played::Done(Booted::Rest(store))),
        Err(fail) => Ok(Played::Stopped(fail.flash)),
    }
}

fn call_store(
    rt: &impl Abort,
    alloc: Global,
    store: Store<CutFlash>,
    call: Call,
    tag: &Tag,
) -> Result<Played, Fail> {
    match call {
        Call::Commit => Ok(rest(store.commit(tag))),
        Call::Release => Ok(rest(store.release([true; 4], tag))),
        Call::Begin => {
            assert!(rt; store.banks() > 0);
            assert!(rt; store.capacity() >= 4096);
            Ok(fill(store.begin(0, 4096, 12, tag)))
        }
        Call::FillWhole => fill_whole(rt, alloc, store, tag),
        _ => Ok(Played::Stopped(store.into_flash())),
    }
}

fn put_first(rt: &impl Abort, filling: Filling<CutFlash>) -> Played {
    assert_eq!(rt; filling.size(), 4096);
    assert_eq!(rt; filling.log(), 12);
    assert!(rt; !filling.held(0));
    assert!(rt; !filling.held(1));
    assert!(rt; !filling.all_held());
    assert_eq!(rt; filling.held_count(), 0);
    fill(filling.put_block(0, &[5; 4096]))
}

fn seal_first(
    rt: &impl Abort,
    filling: Filling<CutFlash>,
    digest: [u8; 32],
    tag: &Tag,
    fits: bool,
) -> Played {
    assert_eq!(rt; filling.size(), 4096);
    assert_eq!(rt; filling.log(), 12);
    assert!(rt; filling.all_held());
    assert_eq!(rt; filling.held_count(), 1);
    let meta = Meta {
        size: 4096,
        version: 1,
        digest,
    };
    match filling.seal(&meta, tag, tag) {
        Ok(Sealing::Fit(store)) => {
            assert!(rt; fits);
            Played::Done(Booted::Rest(store))
        }
        Ok(Sealing::Unfit(store)) => {
            assert!(rt; !fits);
            Played::Done(Booted::Rest(store))
        }
        Err(stopped) => Played::Stopped(stopped.flash),
    }
}

fn call_filling(
    rt: &impl Abort,
    filling: Filling<CutFlash>,
    call: Call,
    tag: &Tag,
) -> Result<Played, Fail> {
    match call {
        Call::Commit => Ok(fill(filling.commit(tag))),
        Call::Put => Ok(put_first(rt, filling)),
        Call::Seal => Ok(seal_first(rt, filling, DIGEST, tag, true)),
        Call::SealUnfit => Ok(seal_first(rt, filling, [0; 32], tag, false)),
        Call::GiveUp => Ok(rest(filling.give_up(tag))),
        _ => Ok(Played::Stopped(filling.into_flash())),
    }
}

fn call_any(
    rt: &impl Abort,
    alloc: Global,
    at: Booted<CutFlash>,
    call: Call,
    tag: &Tag,
) -> Result<Played, Fail> {
    match at {
        Booted::Rest(store) => call_store(rt, alloc, store, call, tag),
        Booted::Fill(filling) => call_filling(rt, filling, call, tag),
    }
}

// A store that was just formatted, with an operation armed.
fn armed(
    rt: &impl Abort,
    alloc: Global,
    tag: &Tag,
    number: u32,
    pattern: Pattern,
) -> Result<Played, Fail> {
    match format(CutFlash::new(alloc, 6)?, 2, 1, tag) {
        Ok(mut store) => {
            assert!(rt; number > 0);
            store.arm(number, pattern);
            Ok(Played::Done(Booted::Rest(store)))
        }
        Err(stopped) => Ok(Played::Stopped(stopped.flash)),
    }
}

// Plays the calls, and answers how many were done, with the flash.
fn play(
    rt: &impl Abort,
    alloc: Global,
    steps: &[Step],
    tag: &Tag,
    number: u32,
    pattern: Pattern,
) -> Result<(usize, CutFlash), Fail> {
    let mut played = armed(rt, alloc, tag, number, pattern)?;
    for (done, step) in steps.iter().enumerate() {
        match played {
            Played::Done(at) => played = call_any(rt, alloc, at, step.0, tag)?,
            Played::Stopped(flash) => return Ok((done, flash)),
        }
    }
    match played {
        Played::Done(Booted::Rest(store)) => Ok((steps.len() + 1, store.into_flash())),
        Played::Done(Booted::Fill(filling)) => Ok((steps.len() + 1, filling.into_flash())),
        Played::Stopped(flash) => Ok((steps.len(), flash)),
    }
}

// What a boot shows. After it the store goes on.
fn show(rt: &impl Abort, flash: CutFlash) -> Option<Shown> {
    let mut flash = flash;
    flash.power_on();
    match boot(flash) {
        Ok(Booted::Rest(store)) => {
            let count = store.count();
            assert!(rt; store.banks() > 0);
            let bank = match store.bank_state(0) {
                BankState::Empty => Bank::Empty,
                BankState::Filling { .. } => Bank::Begun,
                BankState::Sealed(_) => Bank::Sealed,
            };
            assert!(rt; store.commit(&SHORT).is_ok());
            Some(Shown { count, bank })
        }
        Ok(Booted::Fill(filling)) => {
            let count = filling.count();
            let bank = if filling.held(0) {
                Bank::Held
            } else {
                Bank::Begun
            };
            assert!(rt; filling.commit(&SHORT).is_ok());
            Some(Shown { count, bank })
        }
        Err(_) => None,
    }
}

// Cuts each operation of each call: until its last the state before stands, and after it the one after. The last leaves the one or the other,
// by its pattern.
fn cut_each(rt: &impl Abort, alloc: Global, steps: &[Step], tag: &Tag) -> Result<(), Fail> {
    let mut before: u32 = 0;
    let mut old = FORMATTED;
    for (index, step) in steps.iter().enumerate() {
        let (_, operations, count, bank) = *step;
        let new = Shown { count, bank };
        for operation in 1..=operations {
            for pattern in PATTERNS {
                let number = before.saturating_add(operation as u32);
                let (done, flash) = play(rt, alloc, steps, tag, number, pattern)?;
                let shown = show(rt, flash);
                assert_eq!(rt;
                    done,
                    index.saturating_add(1),
                    "{index} {operation} {pattern:?}"
                );
                if operation < operations || pattern == Pattern::Old {
                    assert_eq!(rt; shown, Some(old), "{index} {operation} {pattern:?}");
                } else if pattern == Pattern::New {
                    assert_eq!(rt; shown, Some(new), "{index} {operation} {pattern:?}");
                } else {
                    assert!(rt;
                        shown == Some(old) || shown == Some(new),
                        "{index} {operation} {pattern:?}"
                    );
                }
            }
        }
        before = before.saturating_add(operations as u32);
        old = new;
    }
    let (done, flash) = play(
        rt,
        alloc,
        steps,
        tag,
        before.saturating_add(1),
        Pattern::Old,
    )?;
    assert_eq!(rt; done, steps.len() + 1);
    assert_eq!(rt; show(rt, flash), Some(old));
    Ok(())
}

#[test]
fn each_cut_of_short_records_leaves_the_old_or_the_new(rt: HostRuntime) -> Result<(), Fail> {
    cut_each(&rt, rt.alloc(), &SHORT_STEPS, &SHORT)
}

#[test]
fn each_cut_of_long_records_leaves_the_old_or_the_new(rt: HostRuntime) -> Result<(), Fail> {
    cut_each(&rt, rt.alloc(), &LONG_STEPS, &LONG)
}

#[test]
fn a_flash_that_is_disarmed_isn_t_cut(rt: HostRuntime) -> Result<(), Fail> {
    match format(CutFlash::new(rt.alloc(), 6)?, 2, 1, &SHORT) {
        Ok(mut store) => {
            store.arm(1, Pattern::New);
            store.disarm();
            assert!(rt; store.commit(&LONG).is_ok());
        }
        Err(_) => assert!(rt; false),
    }
    Ok(())
}
