// 128 receivers and one block of 2,048 chunks.
use crate::answers::{GROUP, block_status, information, transfer_status};
use crate::sending::Push;
use arrayvec::ArrayVec;
use mu_blobcli::Sending;
use mu_blobmsg::BlobMsg;
use mu_report::Report;
use std::process::Abort;

const LOWEST: u16 = 0x0101;

const OCTETS: [u8; 16384] = [5; 16384];

const SENDING: Sending = Sending {
    from: 1,
    id: 7,
    size: 16384,
    log: 14,
    chunk: 8,
    mode: 1,
    group: 0,
    ttl: 5,
    base: 1,
};

fn addresses() -> [u16; 128] {
    let mut all = [LOWEST; 128];
    for i in 0..128 {
        all[i] = LOWEST + i as u16;
    }
    all
}

// A message goes to all receivers, 16 in a time event.
fn expect_all(rt: &impl Abort, push: &mut Push, low: u8) {
    for turn in 0..8u16 {
        let all = push.sent(rt, 1);
        assert_eq!(rt; all.len(), 16);
        let mut to = LOWEST + 16 * turn;
        for packet in all {
            assert_eq!(rt; packet, (to, low, 0));
            to = to.saturating_add(1);
        }
    }
}

fn tell_all(rt: &impl Abort, push: &mut Push, message: &BlobMsg) {
    for i in 0..128 {
        push.tell(rt, LOWEST + i, message, 1);
    }
}

// A report that every 128th chunk from `i` on is missing.
fn every_128th(i: u16) -> Report {
    let mut bits = ArrayVec::new();
    for octet in 0..256u16 {
        let bit = if octet % 16 == (i / 8) % 16 {
            1 << (i % 8)
        } else {
            0
        };
        if !bits.is_full() {
            bits.push(bit);
        }
    }
    Report::Bits(bits)
}

// Comes to the chunks of receivers of which each misses 16 that no other misses.
fn miss_others(rt: &impl Abort, push: &mut Push) {
    expect_all(rt, push, 0x06);
    tell_all(rt, push, &information(16384, 14, 2048, 380, 1));
    expect_all(rt, push, 0x01);
    tell_all(rt, push, &transfer_status(0, 16384, 14));
    expect_all(rt, push, 0x04);
    for i in 0..128 {
        let message = block_status(0, 8, every_128th(i));
        push.tell(rt, LOWEST + i, &message, 1);
    }
}

// Each chunk goes once, in rising order, to the group or to the one that misses it.
fn expect_chunks(rt: &impl Abort, push: &mut Push, group: u16) {
    for turn in 0..128u16 {
        let all = push.sent(rt, 1);
        assert_eq!(rt; all.len(), 16);
        let mut chunk = 16 * turn;
        for packet in all {
            let one = LOWEST + chunk % 128;
            let to = if group == 0 { one } else { group };
            assert_eq!(rt; packet, (to, 0x66, chunk));
            chunk = chunk.saturating_add(1);
        }
    }
}

#[test]
fn many_receivers_that_miss_others_get_each_chunk_once(rt: HostRuntime) {
    let octets = OCTETS;
    for group in [0, GROUP] {
        let what = Sending { group, ..SENDING };
        let mut push = Push::new(what, &addresses(), &octets);
        miss_others(&rt, &mut push);
        expect_chunks(&rt, &mut push, group);
        expect_all(&rt, &mut push, 0x05);
        tell_all(&rt, &mut push, &block_status(0, 8, Report::Nothing));
        assert!(rt; push.sent(&rt, 1).is_empty());
        assert!(rt; push.client.ended());
        assert!(rt; push.client.count() == 128);
        assert_eq!(rt; push.client.receiver(127).progress, 100);
    }
}
