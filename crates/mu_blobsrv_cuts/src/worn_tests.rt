// A server whose record has the last count but one.
use crate::made::{PUSH, SIZE, expect, keeps, start, told};
use mu_blobmsg::BlobMsg;
use mu_blobsrv::{BlobServer, StoreFault};
use mu_outside::FaultyFlash;
use mu_store::boot;
use std::alloc::Global;
use std::process::Abort;
use std::test::Fail;

// The first octets of a record of the count 4,294,967,294, of two banks of three pages that are Empty. All its others are 0.
const RECORD: [u8; 12] = [0x4D, 0x55, 0x46, 0x31, 1, 2, 3, 0, 0xFE, 0xFF, 0xFF, 0xFF];

// An octet of the flash: those of the record, each followed by its complement, in its first page, and FF in the others.
fn octet(place: usize) -> u8 {
    if place >= 4096 {
        return 0xFF;
    }
    let octet = match RECORD.get(place / 2) {
        Some(octet) => *octet,
        None => 0,
    };
    if place % 2 == 0 { octet } else { 255 - octet }
}

fn server(rt: &impl Abort, alloc: Global) -> Result<Option<BlobServer<FaultyFlash>>, Fail> {
    let mut octets = Vec::new(alloc);
    for place in 0..40960 {
        octets.push(octet(place))?;
    }
    assert!(rt; octets.len() % 4096 == 0);
    assert!(rt; octets.len() <= 65536);
    match boot(FaultyFlash::new(alloc, &octets, &[], &[])?) {
        Ok(booted) => match BlobServer::from_boot(booted) {
            Ok(server) => Ok(Some(server)),
            Err(_) => Ok(None),
        },
        Err(_) => Ok(None),
    }
}

#[test]
fn a_transfer_that_needs_one_record_too_many_isnt_begun(rt: HostRuntime) -> Result<(), Fail> {
    let Some(mut server) = server(&rt, rt.alloc())? else {
        assert!(rt; false);
        return Ok(());
    };
    assert!(rt; expect(&rt, &mut server, 0).is_ok());
    assert!(rt; told(&rt, &mut server, &BlobMsg::TransferGet, 0).is_ok());
    assert!(rt; told(&rt, &mut server, &start(PUSH.mode, SIZE, 12, 380), 0).is_err());
    keeps(&rt, &mut server, StoreFault::Worn);
    Ok(())
}
