use arrayvec::ArrayVec;
use mu_codec::Outbox;
use mu_dist::make_distributor;
use mu_distributor_answers::request_at;
use mu_distributor_server::{DistRequest, Distributor};
use mu_outside::RamFlash;
use std::alloc::{AllocError, Global};
use std::test::Fail;

// A new distributor at 0001, with banks of one page.
fn new_distributor(alloc: Global) -> Result<Option<Distributor<RamFlash>>, AllocError> {
    match make_distributor(RamFlash::new(alloc, 10)?, 1) {
        Ok(flash) => Ok(booted(flash)),
        Err(_) => Ok(None),
    }
}

fn booted(flash: RamFlash) -> Option<Distributor<RamFlash>> {
    match Distributor::boot(flash, 1) {
        Ok(distributor) => Some(distributor),
        Err(_) => None,
    }
}

// The octets that answer a packet of 0010, where there is one packet, to its source.
fn answered(out: &Outbox) -> Option<&[u8]> {
    match out.as_slice() {
        [packet] if packet.from == 1 && packet.to == 16 => Some(packet.payload.as_slice()),
        _ => None,
    }
}

// The count of its present record, 0 where a fault is kept.
fn count_of(distributor: &Distributor<RamFlash>) -> u32 {
    if distributor.fault().is_none() {
        distributor.count()
    } else {
        0
    }
}

// Whether these octets answer a request to add so many receivers, from an address on.
fn adds(distributor: &mut Distributor<RamFlash>, first: u16, many: u16, octets: &[u8]) -> bool {
    let mut payload: ArrayVec<u8, 380> = ArrayVec::new();
    let _ = payload.try_extend_from_slice(&[0x83, 0x11]);
    for i in 0..many {
        let [low, high] = first.wrapping_add(i).to_le_bytes();
        let _ = payload.try_extend_from_slice(&[low, high, 0]);
    }
    match request_at(payload.as_slice()) {
        Some(DistRequest::ReceiversAdd { entries }) => {
            let mut out = ArrayVec::new();
            let request = DistRequest::ReceiversAdd { entries };
            distributor.on_request(16, &request, 0, &mut out).is_ok()
                && answered(&out) == Some(octets)
        }
        _ => false,
    }
}

// Whether these octets answer a Receivers Delete All, and so on below.
fn deletes(distributor: &mut Distributor<RamFlash>, octets: &[u8]) -> bool {
    let mut out = ArrayVec::new();
    distributor
        .on_request(16, &DistRequest::ReceiversDeleteAll, 0, &mut out)
        .is_ok()
        && answered(&out) == Some(octets)
}

fn lists(distributor: &mut Distributor<RamFlash>, first: u16, limit: u16, octets: &[u8]) -> bool {
    let mut out = ArrayVec::new();
    distributor
        .on_request(16, &DistRequest::ReceiversGet { first, limit }, 0, &mut out)
        .is_ok()
        && answered(&out) == Some(octets)
}

// How many octets a list has.
fn list_length(distributor: &mut Distributor<RamFlash>, first: u16, limit: u16) -> usize {
    let mut out = ArrayVec::new();
    let _ = distributor.on_request(16, &DistRequest::ReceiversGet { first, limit }, 0, &mut out);
    match answered(&out) {
        Some(octets) => octets.len(),
        None => 0,
    }
}

#[test]
fn receivers_are_added_once_and_stand_after_a_boot(rt: HostRuntime) -> Result<(), Fail> {
    let Some(mut distributor) = new_distributor(rt.alloc())? else {
        assert!(rt; false);
        return Ok(());
    };
    assert!(rt; adds(&mut distributor, 2, 2, &[0x83, 0x13, 0, 2, 0]));
    assert_eq!(rt; count_of(&distributor), 2);
    assert!(rt; adds(&mut distributor, 2, 2, &[0x83, 0x13, 0, 2, 0]));
    assert_eq!(rt; count_of(&distributor), 2);
    let Some(mut distributor) = booted(distributor.into_flash()) else {
        assert!(rt; false);
        return Ok(());
    };
    assert_eq!(rt; distributor.rows().len(), 2);
    assert!(rt; deletes(&mut distributor, &[0x83, 0x13, 0, 0, 0]));
    assert_eq!(rt; count_of(&distributor), 3);
    assert!(rt; deletes(&mut distributor, &[0x83, 0x13, 0, 0, 0]));
    assert_eq!(rt; count_of(&distributor), 3);
    Ok(())
}

#[test]
fn there_are_at_most_128_receivers(rt: HostRuntime) -> Result<(), Fail> {
    let Some(mut distributor) = new_distributor(rt.alloc())? else {
        assert!(rt; false);
        return Ok(());
    };
    assert!(rt; adds(&mut distributor, 2, 126, &[0x83, 0x13, 0, 126, 0]));
    assert!(rt; adds(&mut distributor, 200, 3, &[0x83, 0x13, 1, 126, 0]));
    assert_eq!(rt; count_of(&distributor), 2);
    assert!(rt; adds(&mut distributor, 200, 2, &[0x83, 0x13, 0, 128, 0]));
    assert_eq!(rt; count_of(&distributor), 3);
    assert!(rt; lists(&mut distributor, 128, 1, &[0x83, 0x15, 128, 0, 128, 0]));
    assert!(rt; lists(&mut distributor, 0, 0, &[0x83, 0x15, 128, 0, 0, 0]));
    assert_eq!(rt;
        list_length(&mut distributor, 0, 75),
        list_length(&mut distributor, 0, 74)
    );
    assert_eq!(rt;
        list_length(&mut distributor, 54, 74),
        list_length(&mut distributor, 0, 74)
    );
    assert!(rt; list_length(&mut distributor, 55, 74) < list_length(&mut distributor, 54, 74));
    Ok(())
}

#[test]
fn what_only_asks_writes_nothing(rt: HostRuntime) -> Result<(), Fail> {
    let Some(mut distributor) = new_distributor(rt.alloc())? else {
        assert!(rt; false);
        return Ok(());
    };
    let mut out = ArrayVec::new();
    assert!(rt;
        distributor
            .on_request(16, &DistRequest::CapabilitiesGet, 0, &mut out)
            .is_ok()
    );
    let shown: &[u8] = &[
        0x83, 0x17, 128, 0, 4, 0, 0, 16, 0, 0, 0, 64, 0, 0, 0, 64, 0, 0, 0,
    ];
    assert!(rt; answered(&out) == Some(shown));
    let mut out = ArrayVec::new();
    assert!(rt;
        distributor
            .on_request(16, &DistRequest::StartUploadOob, 0, &mut out)
            .is_ok()
    );
    let refused: &[u8] = &[0x83, 0x22, 9, 0];
    assert!(rt; answered(&out) == Some(refused));
    assert_eq!(rt; count_of(&distributor), 1);
    Ok(())
}
