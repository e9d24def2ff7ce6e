// Flashes that are made octet by octet.
use mu_outside::FaultyFlash;
use std::alloc::Global;
use std::process::Abort;
use std::test::Fail;

pub(crate) const PAGE: usize = 4096;

// A change of an octet of a record: its place and what is there.
pub(crate) type Change = (u16, u8);

// A long record of this count, of 2 banks of 1 page that are Empty, with these octets changed.
pub(crate) fn record(rt: &impl Abort, count: u8, changes: &[Change]) -> [u8; 2048] {
    let mut octets = [0; 2048];
    octets[0] = 0x4D;
    octets[1] = 0x55;
    octets[2] = 0x46;
    octets[3] = 0x31;
    octets[4] = 1;
    octets[5] = 2;
    octets[6] = 1;
    octets[8] = count;
    for (place, octet) in changes {
        assert!(rt; *place < 2048);
        octets[*place as usize] = *octet;
    }
    octets
}

// Octets, each followed by its complement.
pub(crate) fn code(into: &mut Vec<u8>, octets: &[u8]) -> Result<(), Fail> {
    for octet in octets {
        into.push(*octet)?;
        into.push(255 - *octet)?;
    }
    Ok(())
}

// A flash of so many pages whose first have these octets, and the others FF.
pub(crate) fn flash(
    rt: &impl Abort,
    alloc: Global,
    octets: &[u8],
    pages: usize,
) -> Result<FaultyFlash, Fail> {
    let mut all = Vec::from_slice(alloc, octets)?;
    assert!(rt; pages < 16);
    let rest = (PAGE * pages).saturating_sub(all.len());
    blank(&mut all, rest)?;
    assert!(rt; all.len() % PAGE == 0);
    assert!(rt; all.len() <= 65536);
    Ok(FaultyFlash::new(alloc, &all, &[], &[])?)
}

// So many octets FF.
pub(crate) fn blank(into: &mut Vec<u8>, count: usize) -> Result<(), Fail> {
    for _ in 0..count {
        into.push(255)?;
    }
    Ok(())
}
