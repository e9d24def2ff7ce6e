// The link and the clock in memory.
use mu_outside::{Clock, Failed, Incoming, Link, RamLink, SetClock};
use std::test::Fail;

// Whether the datagram has these octets.
fn holds(found: Result<Incoming, Failed>, octets: &[u8]) -> bool {
    match found {
        Ok(Incoming::Datagram(datagram)) => datagram.as_slice() == octets,
        _ => false,
    }
}

#[test]
fn a_datagram_waits_at_the_address_that_it_names(rt: HostRuntime) -> Result<(), Fail> {
    let mut link = RamLink::new(rt.alloc(), 8, 16, &[])?;
    assert_eq!(rt; link.send(1, 2, b"early"), Ok(()));
    assert_eq!(rt; link.bind(2), Ok(()));
    assert_eq!(rt; link.bind(2), Ok(()));
    assert_eq!(rt; link.receive(2), Ok(Incoming::Quiet));
    assert_eq!(rt; link.send(1, 2, b"first"), Ok(()));
    assert_eq!(rt; link.send(1, 3, b"other"), Ok(()));
    assert_eq!(rt; link.send(1, 2, b"second"), Ok(()));
    assert!(rt; holds(link.receive(2), b"first"));
    assert!(rt; holds(link.receive(2), b"second"));
    assert_eq!(rt; link.receive(2), Ok(Incoming::Quiet));
    assert_eq!(rt; link.receive(3), Ok(Incoming::Quiet));
    Ok(())
}

#[test]
fn what_goes_to_a_group_goes_to_all_but_the_sender(rt: HostRuntime) -> Result<(), Fail> {
    let mut link = RamLink::new(rt.alloc(), 8, 16, &[])?;
    for addr in 1..4u16 {
        assert_eq!(rt; link.bind(addr), Ok(()));
    }
    assert_eq!(rt; link.send(1, 0xc000, b"all"), Ok(()));
    assert_eq!(rt; link.receive(1), Ok(Incoming::Quiet));
    assert!(rt; holds(link.receive(2), b"all"));
    assert!(rt; holds(link.receive(3), b"all"));
    assert_eq!(rt; link.receive(3), Ok(Incoming::Quiet));
    Ok(())
}

#[test]
fn named_calls_fail_and_take_no_room(rt: HostRuntime) -> Result<(), Fail> {
    let mut link = RamLink::new(rt.alloc(), 1, 2, &[1, 3, 6])?;
    assert_eq!(rt; link.bind(2), Err(Failed));
    assert_eq!(rt; link.bind(2), Ok(()));
    assert_eq!(rt; link.send(1, 2, b"a"), Err(Failed));
    assert_eq!(rt; link.send(1, 2, b"b"), Ok(()));
    assert_eq!(rt; link.send(1, 2, b"c"), Err(Failed));
    assert_eq!(rt; link.receive(2), Err(Failed));
    assert!(rt; holds(link.receive(2), b"b"));
    assert_eq!(rt; link.receive(2), Ok(Incoming::Quiet));
    assert_eq!(rt; link.receive(2), Err(Failed));
    Ok(())
}

#[test]
fn there_is_room_for_32_addresses(rt: HostRuntime) -> Result<(), Fail> {
    let mut link = RamLink::new(rt.alloc(), 0, 0, &[])?;
    for addr in 1..33u16 {
        assert_eq!(rt; link.bind(addr), Ok(()));
    }
    assert_eq!(rt; link.bind(33), Err(Failed));
    assert_eq!(rt; link.bind(32), Ok(()));
    Ok(())
}

#[test]
fn a_set_clock_answers_its_times_and_then_the_last(rt: HostRuntime) -> Result<(), Fail> {
    let mut clock = SetClock::new(rt.alloc(), &[5, 3])?;
    assert_eq!(rt; clock.now(), 5);
    assert_eq!(rt; clock.now(), 3);
    assert_eq!(rt; clock.now(), 3);
    let mut none = SetClock::new(rt.alloc(), &[])?;
    assert_eq!(rt; none.now(), 0);
    Ok(())
}
