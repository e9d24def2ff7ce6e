// Each operation of a whole transfer torn, the fault answered by each call, and the transfer carried to its end after a boot.
use crate::made::{META, PULL, PUSH, SIZE, Sent, again, carry, image, keeps};
use mu_blobsrv::{BankState, BlobServer, Booted};
use mu_outside::{CutFlash, Pattern};
use mu_store::format;
use std::alloc::Global;
use std::process::Abort;
use std::test::Fail;

const MADE: [Pattern; 3] = [Pattern::Made(1), Pattern::Made(6), Pattern::Made(11)];

// The operations of a whole transfer: a record for the job, an erase of the bank's marks and a record for its parameters, three for each block, and a
// record for the seal.
const OPERATIONS: u32 = 13;

// Whether bank 1 has the image.
fn has(rt: &impl Abort, server: &mut BlobServer<CutFlash>, image: &[u8]) -> bool {
    if server.fault().is_some() {
        return false;
    }
    assert!(rt; server.banks() > 1);
    if !matches!(server.bank_state(1), BankState::Sealed(meta) if meta == META) {
        return false;
    }
    let mut octets = [0; 8292];
    assert!(rt; server.capacity() >= SIZE);
    server.read_bank(1, 0, &mut octets).is_ok() && octets.as_slice() == image
}

// A server without a job, over two banks of three pages, with an operation armed.
fn armed(
    rt: &impl Abort,
    alloc: Global,
    number: u32,
    pattern: Pattern,
) -> Result<Option<BlobServer<CutFlash>>, Fail> {
    match format(CutFlash::new(alloc, 10)?, 2, 3, &[0; 1792]) {
        Ok(mut store) => {
            assert!(rt; number > 0);
            store.arm(number, pattern);
            match BlobServer::from_boot(Booted::Rest(store)) {
                Ok(server) => Ok(Some(server)),
                Err(_) => Ok(None),
            }
        }
        Err(_) => Ok(None),
    }
}

// Whether a transfer has an operation of this number. It is torn, and the transfer is carried to its end after a boot.
fn torn(
    rt: &impl Abort,
    alloc: Global,
    image: &[u8],
    sent: Sent,
    number: u32,
    pattern: Pattern,
) -> Result<bool, Fail> {
    let Some(mut server) = armed(rt, alloc, number, pattern)? else {
        assert!(rt; false);
        return Ok(false);
    };
    match carry(rt, &mut server, image, sent) {
        Ok(()) => {
            assert!(rt; has(rt, &mut server, image));
            Ok(false)
        }
        Err(why) => {
            keeps(rt, &mut server, why);
            if let Some(mut server) = again(server) {
                assert!(rt; carry(rt, &mut server, image, sent).is_ok());
                assert!(rt; has(rt, &mut server, image));
            } else {
                assert!(rt; false);
            }
            Ok(true)
        }
    }
}

// Each operation from the first to the last number is torn in this pattern, and there is none after the last one.
fn all_torn(rt: &impl Abort, alloc: Global, sent: Sent, pattern: Pattern) -> Result<(), Fail> {
    let image = image(alloc)?;
    for number in 1..=OPERATIONS {
        assert!(rt;
            torn(rt, alloc, image.as_slice(), sent, number, pattern)?,
            "{number} {pattern:?}"
        );
    }
    assert!(rt; !torn(rt, alloc, image.as_slice(), sent, OPERATIONS + 1, pattern)?);
    Ok(())
}

#[test]
fn a_push_is_carried_to_its_end_after_each_operation_that_is_not_done(
    rt: HostRuntime,
) -> Result<(), Fail> {
    all_torn(&rt, rt.alloc(), PUSH, Pattern::Old)
}

#[test]
fn a_push_is_carried_to_its_end_after_each_operation_that_is_the_last(
    rt: HostRuntime,
) -> Result<(), Fail> {
    all_torn(&rt, rt.alloc(), PUSH, Pattern::New)
}

#[test]
fn a_push_is_carried_to_its_end_after_each_torn_operation(rt: HostRuntime) -> Result<(), Fail> {
    for pattern in MADE {
        all_torn(&rt, rt.alloc(), PUSH, pattern)?;
    }
    Ok(())
}

#[test]
fn a_pull_is_carried_to_its_end_after_each_operation_that_is_not_done(
    rt: HostRuntime,
) -> Result<(), Fail> {
    all_torn(&rt, rt.alloc(), PULL, Pattern::Old)
}

#[test]
fn a_pull_is_carried_to_its_end_after_each_operation_that_is_the_last(
    rt: HostRuntime,
) -> Result<(), Fail> {
    all_torn(&rt, rt.alloc(), PULL, Pattern::New)
}

#[test]
fn a_pull_is_carried_to_its_end_after_each_torn_operation(rt: HostRuntime) -> Result<(), Fail> {
    for pattern in MADE {
        all_torn(&rt, rt.alloc(), PULL, pattern)?;
    }
    Ok(())
}
