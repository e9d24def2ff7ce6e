use crate::answers::{
    FIRST, GROUP, ROUND, SECOND, SENDING, block_status, information, listed, part, transfer_status,
};
use crate::sending::Push;
use mu_blobcli::{Dropped, Sending};
use mu_blobmsg::BlobMsg;
use mu_report::Report;
use std::process::Abort;

const OCTETS: [u8; 4096] = [5; 4096];

fn tell_both(rt: &impl Abort, push: &mut Push, message: &BlobMsg, now: u64) {
    push.tell(rt, FIRST, message, now);
    push.tell(rt, SECOND, message, now);
}

// Both are sent this message.
fn expect_both(rt: &impl Abort, push: &mut Push, low: u8, now: u64) {
    let all = push.sent(rt, now);
    assert_eq!(rt;
        all.as_slice(),
        [(FIRST, low, 0), (SECOND, low, 0)].as_slice()
    );
}

// Comes to the Block Start of both receivers, which was sent.
fn start(rt: &impl Abort, push: &mut Push) {
    expect_both(rt, push, 0x06, 0);
    tell_both(rt, push, &information(4096, 12, 21, 380, 1), 1);
    expect_both(rt, push, 0x01, 2);
    tell_both(rt, push, &transfer_status(0, 4096, 12), 3);
    expect_both(rt, push, 0x04, 4);
}

// Receivers that miss all of a block of 21 chunks are sent them once, and are asked then.
fn send_once(rt: &impl Abort, push: &mut Push, events: u64) {
    start(rt, push);
    tell_both(rt, push, &block_status(0, 200, Report::All), 5);
    for k in 0..events {
        let chunks = push.sent(rt, k.saturating_add(6));
        assert!(rt; !chunks.is_empty());
        for (_, low, _) in chunks {
            assert_eq!(rt; low, 0x66);
        }
    }
    expect_both(rt, push, 0x05, 10);
}

// The two miss these chunks.
fn miss(rt: &impl Abort, push: &mut Push, chunk: u16, first: &[u16], second: &[u16], now: u64) {
    push.tell(rt, FIRST, &block_status(0, chunk, listed(first)), now);
    push.tell(rt, SECOND, &block_status(0, chunk, listed(second)), now);
}

#[test]
fn the_union_of_missing_chunks_is_sent_once(rt: HostRuntime) {
    let octets = OCTETS;
    let to_each = [(FIRST, 0x66, 3), (SECOND, 0x66, 3), (SECOND, 0x66, 7)];
    let to_group = [(GROUP, 0x66, 3), (GROUP, 0x66, 7)];
    // The group, the time events of 42 or 21 chunks, and what repairs the two.
    let cases = [(0, 3, to_each.as_slice()), (GROUP, 2, to_group.as_slice())];
    for (group, events, want) in cases {
        let what = Sending {
            group,
            chunk: 200,
            ..SENDING
        };
        let mut push = Push::new(what, &[FIRST, SECOND], &octets);
        send_once(&rt, &mut push, events);
        miss(&rt, &mut push, 200, &[3], &[3, 7], 11);
        assert_eq!(rt; push.sent(&rt, 12).as_slice(), want);
        expect_both(&rt, &mut push, 0x05, 13);
    }
}

#[test]
fn one_that_misses_again_is_alone_in_the_next_round(rt: HostRuntime) {
    let octets = OCTETS;
    let mut push = Push::new(SENDING, &[FIRST, SECOND], &octets);
    start(&rt, &mut push);
    miss(&rt, &mut push, 256, &[3], &[3, 7], 5);
    assert_eq!(rt; push.sent(&rt, 6).len(), 3);
    expect_both(&rt, &mut push, 0x05, 7);
    miss(&rt, &mut push, 256, &[], &[7], 8);
    assert_eq!(rt;
        push.sent(&rt, 9).as_slice(),
        [(SECOND, 0x66, 7)].as_slice()
    );
    assert_eq!(rt;
        push.sent(&rt, 10).as_slice(),
        [(SECOND, 0x05, 0)].as_slice()
    );
    push.tell(&rt, SECOND, &block_status(0, 256, Report::Nothing), 11);
    assert!(rt; push.sent(&rt, 12).is_empty());
    assert!(rt; push.client.ended());
}

#[test]
fn in_pull_each_gets_the_chunks_that_it_wants(rt: HostRuntime) {
    let octets = OCTETS;
    let what = Sending { mode: 2, ..SENDING };
    let mut push = Push::new(what, &[FIRST, SECOND], &octets);
    start(&rt, &mut push);
    miss(&rt, &mut push, 256, &[1, 2, 5], &[1, 2, 5], 5);
    // Nothing is sent unasked.
    assert!(rt; push.sent(&rt, 6).is_empty());
    assert_eq!(rt; push.client.wanted().count(), 0);
    push.tell(&rt, FIRST, &part(&[1, 2]), 7);
    push.tell(&rt, SECOND, &part(&[2, 5]), 7);
    let want = [
        (FIRST, 0x66, 1),
        (FIRST, 0x66, 2),
        (SECOND, 0x66, 2),
        (SECOND, 0x66, 5),
    ];
    assert_eq!(rt; push.sent(&rt, 8).as_slice(), want.as_slice());
    // They aren't wanted any more.
    assert!(rt; push.sent(&rt, 9).is_empty());
    push.tell(&rt, FIRST, &part(&[]), 10);
    // Whoever wasn't heard in a round is asked.
    assert!(rt; push.sent(&rt, 6 + ROUND).is_empty());
    assert_eq!(rt;
        push.sent(&rt, 6 + 2 * ROUND).as_slice(),
        [(SECOND, 0x05, 0)].as_slice()
    );
}

#[test]
fn a_failed_read_leaves_the_client_as_it_was(rt: HostRuntime) {
    let octets = OCTETS;
    let want = [(FIRST, 0x66, 3), (SECOND, 0x66, 3), (SECOND, 0x66, 7)];
    for fails in 1..=4 {
        let mut push = Push::new(SENDING, &[FIRST, SECOND], &octets);
        start(&rt, &mut push);
        miss(&rt, &mut push, 256, &[3], &[3, 7], 5);
        let first = push.event(&[fails], 6);
        // Three chunks are read.
        assert_eq!(rt; first.is_none(), fails <= 3);
        if fails <= 3 {
            assert_eq!(rt; push.sent(&rt, 6).as_slice(), want.as_slice());
        }
        expect_both(&rt, &mut push, 0x05, 7);
    }
}

#[test]
fn what_is_still_to_be_sent_is_told(rt: HostRuntime) {
    let octets = OCTETS;
    let mut push = Push::new(SENDING, &[FIRST, SECOND], &octets);
    start(&rt, &mut push);
    assert_eq!(rt; push.client.wanted().count(), 0);
    push.tell(&rt, FIRST, &block_status(0, 256, Report::All), 5);
    push.tell(&rt, SECOND, &block_status(0, 256, listed(&[15])), 5);
    // Sixteen of seventeen chunks: the last of both receivers is left for the second.
    assert_eq!(rt; push.sent(&rt, 6).len(), 16);
    let left = push.client.wanted();
    assert_eq!(rt; (left.count(), left.contains(15)), (1, true));
    assert_eq!(rt;
        push.sent(&rt, 7).as_slice(),
        [(SECOND, 0x66, 15)].as_slice()
    );
    assert_eq!(rt; push.client.wanted().count(), 0);
}

// Why the first receiver was dropped, and its silent rounds.
fn first_of(rt: &impl Abort, push: &Push) -> (Option<Dropped>, u8) {
    assert!(rt; push.client.count() == 2);
    let row = push.client.receiver(0);
    (row.dropped, row.silent)
}

#[test]
fn five_silent_rounds_drop(rt: HostRuntime) {
    let octets = OCTETS;
    let mut push = Push::new(SENDING, &[FIRST, SECOND], &octets);
    for round in 0..5u8 {
        let begins = u64::from(round) * ROUND;
        expect_both(&rt, &mut push, 0x06, begins);
        assert!(rt; push.sent(&rt, begins + ROUND - 1).is_empty());
        assert_eq!(rt; first_of(&rt, &push), (None, round));
    }
    assert!(rt; push.sent(&rt, 5 * ROUND).is_empty());
    assert_eq!(rt; first_of(&rt, &push), (Some(Dropped::Silent(3)), 5));
    assert!(rt; push.client.ended());
}
