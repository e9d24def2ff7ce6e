use crate::pair::{Sender, node, turn};
use mu_codec::Outbox;
use std::process::Abort;

#[test]
fn an_updater_brings_its_image_to_a_node_in_eleven_turns(rt: HostRuntime) {
    let mut sender = Sender::new();
    assert_eq!(rt; sender.row(), Some((10, 0)));
    let booted = node(rt.alloc());
    assert!(rt; booted.is_ok());
    if let Ok(mut node) = booted {
        for k in 1..12u64 {
            assert!(rt; !sender.solo.ended());
            assert!(rt; turn(&mut sender, &mut node, rt.alloc(), k * 100).is_ok());
        }
        assert!(rt; sender.solo.ended());
        assert_eq!(rt; sender.row(), Some((8, 100)));
    }
}

// The octets of the first packet that is sent.
fn expect_first(rt: &impl Abort, out: &Outbox, want: &[u8]) {
    assert_eq!(rt; out.len(), 1);
    for packet in out.iter() {
        assert_eq!(rt; (packet.from, packet.to), (1, 2));
        assert!(rt; packet.payload.as_slice().starts_with(want));
    }
}

// The node's answers bring the updater to the chunks of its one block.
fn come_to_chunks(rt: &impl Abort, sender: &mut Sender) {
    for (asks, answers) in [
        (&[0x83, 0x0A], b"\x83\x0B\x00\x00".as_slice()),
        (
            &[0x83, 0x0D],
            b"\x83\x10\x40\x05\x00\x00\x00\x07\x00\x00\x00\x00\x00\x00\x00\x00",
        ),
        (
            &[0x83, 0x06],
            b"\x83\x07\x06\x0E\x00\x08\x78\x01\x00\x00\x10\x00\x7C\x01\x03",
        ),
        (
            &[0x83, 0x01],
            b"\x83\x03\x40\x02\x07\x00\x00\x00\x00\x00\x00\x00\x03\x00\x00\x00\x0C\x7C\x01\x01",
        ),
        (&[0x83, 0x04], b"\x67\x00\x00\x00\x08\x00"),
    ] {
        expect_first(rt, &sender.sent(0), asks);
        assert!(rt; sender.takes(1, answers, 0));
    }
}

#[test]
fn a_failed_read_leaves_the_updater_as_it_was(rt: HostRuntime) {
    let mut sender = Sender::new();
    come_to_chunks(&rt, &mut sender);
    let (failed, out) = sender.sent_over(&[1], 0);
    assert!(rt; failed);
    assert!(rt; out.is_empty());
    let (failed, out) = sender.sent_over(&[2], 0);
    assert!(rt; !failed);
    expect_first(&rt, &out, b"\x66\x00\x00abc");
}

#[test]
fn what_is_not_for_the_updater_is_not_handled(rt: HostRuntime) {
    let mut sender = Sender::new();
    expect_first(&rt, &sender.sent(0), &[0x83, 0x0A]);
    for (to, octets) in [
        // A Metadata Status for another, an Update Get, a Distribution Get, an unknown opcode, and nothing.
        (9, b"\x83\x0B\x00\x00".as_slice()),
        (1, b"\x83\x0C"),
        (1, b"\x83\x18"),
        (1, b"\x83\x3F"),
        (1, b""),
    ] {
        assert!(rt; !sender.takes(to, octets, 0));
    }
    assert!(rt; sender.sent(0).is_empty());
    assert!(rt; sender.takes(1, b"\x83\x0B\x00\x00", 0));
    expect_first(&rt, &sender.sent(0), &[0x83, 0x0D]);
}

#[test]
fn an_updater_that_nobody_answers_ends_with_its_fifth_round(rt: HostRuntime) {
    let mut sender = Sender::new();
    for round in 0..5u64 {
        expect_first(&rt, &sender.sent(round * 4100), &[0x83, 0x0A]);
        assert!(rt; sender.sent(round * 4100 + 4099).is_empty());
        assert!(rt; !sender.solo.ended());
    }
    assert!(rt; sender.sent(5 * 4100).is_empty());
    assert!(rt; sender.solo.ended());
    assert_eq!(rt; sender.row(), Some((10, 0)));
}
