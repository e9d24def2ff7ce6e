// An updater of one node, and that node.
ghost use Rattle.std.specs.Prelude.{◌≡◌};

use mu_codec::{Outbox, Packet, Payload};
use mu_image::{Digesting, Meta};
use mu_model_node::NodeConfig;
use mu_receivers::FaultyImage;
use mu_reference_node::{Event, Node, Stop};
use mu_solo::{Plan, Sending, Solo};
use std::alloc::{AllocError, Global};

pub(crate) const NEW: [u8; 3] = *b"abc";

const SENDING: Sending = Sending {
    from: 1,
    id: 7,
    size: 3,
    log: 12,
    chunk: 8,
    mode: 1,
    group: 0,
    ttl: 5,
    base: 0,
};

const CONFIG: NodeConfig = NodeConfig {
    address: 2,
    group: 0xC000,
};

/// An updater that sends three octets.
#[derive(Drop)]
pub(crate) struct Sender {
    pub(crate) solo: Solo,
    ghost sized: { solo.sending.size ≡ 3 },
}

impl Sender {
    /// To the node.
    pub(crate) fn new() -> Sender {
        let mut digesting = Digesting::new();
        digesting.take(&NEW);
        let plan = Plan {
            sending: SENDING,
            meta: Meta {
                size: 3,
                version: 2,
                digest: digesting.done(),
            },
            apply: true,
        };
        Sender {
            solo: Solo::start(plan, &[2]),
        }
    }

    /// What a time event sends.
    pub(crate) fn sent(&mut self, now: u64) -> Outbox {
        let octets = NEW;
        let mut out = Outbox::new();
        self.solo.on_time(&octets, now, &mut out);
        out
    }

    /// What a time event sends over an image whose reads with these numbers fail, and whether it does.
    pub(crate) fn sent_over(&mut self, fails: &[u32], now: u64) -> (bool, Outbox) {
        let octets = NEW;
        let mut out = Outbox::new();
        let result = self
            .solo
            .on_time_over(&mut FaultyImage::new(&octets, fails), now, &mut out);
        (result.is_err(), out)
    }

    /// Whether these octets from the node are handled.
    pub(crate) fn takes(&mut self, to: u16, octets: &[u8], now: u64) -> bool {
        let mut payload = Payload::new();
        if payload.try_extend_from_slice(octets).is_err() {
            return false;
        }
        let packet = Packet {
            from: 2,
            to,
            payload,
        };
        self.solo.on_packet(&packet, now)
    }

    /// The phase and the progress of the one row.
    pub(crate) fn row(&self) -> Option<(u8, u8)> {
        match self.solo.rows() {
            [row] => Some((row.phase, row.progress)),
            _ => None,
        }
    }
}

/// A node with one image.
pub(crate) fn node(alloc: Global) -> Result<Node, AllocError> {
    Node::with_image(alloc, 1, 1, vec![in alloc; b'a']?)
}

// A packet comes to the node, and each of its replies to the updater.
fn give(
    sender: &mut Sender,
    node: &mut Node,
    alloc: Global,
    packet: &Packet,
    now: u64,
) -> Result<(), Stop> {
    let mut replies = Outbox::new();
    node.step(alloc, &CONFIG, Event::Packet(packet), now, &mut replies)?;
    for reply in replies.iter() {
        let _handled = sender.solo.on_packet(reply, now);
    }
    Ok(())
}

/// Both get a time event, and what the updater sends comes to the node.
pub(crate) fn turn(
    sender: &mut Sender,
    node: &mut Node,
    alloc: Global,
    now: u64,
) -> Result<(), Stop> {
    let out = sender.sent(now);
    let mut own = Outbox::new();
    node.step(alloc, &CONFIG, Event::Time, now, &mut own)?;
    for packet in out.iter() {
        give(sender, node, alloc, packet, now)?;
    }
    Ok(())
}
