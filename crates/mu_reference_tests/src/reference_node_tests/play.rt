// Plays what comes to a node, and compares what it sends.
use mu_codec::{Outbox, Packet, Payload};
use mu_model_node::NodeConfig;
use mu_reference_node::{Event, Node, Stop};
use std::alloc::Global;

/// What comes to a node, and what it answers: nothing where there are no octets.
#[derive(Clone, Copy)]
pub(super) enum Move {
    /// A packet of 0001 at a moment.
    Say(u64, &'static [u8], &'static [u8]),
    /// A time event at a moment.
    Time(u64, &'static [u8]),
}

pub(super) const NODE: NodeConfig = NodeConfig {
    address: 2,
    group: 0,
};

/// A packet from 0001 to 0002.
pub(super) fn packet(octets: &[u8]) -> Packet {
    let mut payload = Payload::new();
    let _ = payload.try_extend_from_slice(octets);
    Packet {
        from: 1,
        to: 2,
        payload,
    }
}

/// Whether this alone was sent to 0001, or nothing where there are no octets.
pub(super) fn is_sent(out: &Outbox, octets: &[u8]) -> bool {
    match out.as_slice() {
        [] => octets.is_empty(),
        [one] => one.from == 2 && one.to == 1 && one.payload.as_slice() == octets,
        _ => false,
    }
}

/// Whether a node answers so.
pub(super) fn answers(
    node: &mut Node,
    alloc: Global,
    octets: &[u8],
    now: u64,
    reply: &[u8],
) -> Result<bool, Stop> {
    let packet = packet(octets);
    let mut out = Outbox::new();
    node.step(alloc, &NODE, Event::Packet(&packet), now, &mut out)?;
    Ok(is_sent(&out, reply))
}

/// Whether a node sends this as time passes.
pub(super) fn sends(node: &mut Node, alloc: Global, now: u64, reply: &[u8]) -> Result<bool, Stop> {
    let mut out = Outbox::new();
    node.step(alloc, &NODE, Event::Time, now, &mut out)?;
    Ok(is_sent(&out, reply))
}

/// Whether a node does each move so.
pub(super) fn plays(node: &mut Node, alloc: Global, moves: &[Move]) -> Result<bool, Stop> {
    for one in moves {
        let is_so = match one {
            Move::Say(now, octets, reply) => answers(node, alloc, octets, *now, reply)?,
            Move::Time(now, reply) => sends(node, alloc, *now, reply)?,
        };
        if !is_so {
            return Ok(false);
        }
    }
    Ok(true)
}

/// A node with banks of one page, whose image is the octet 61 at version 1.
pub(super) fn new_node(alloc: Global) -> Result<Node, Stop> {
    let Ok(octets) = Vec::from_slice(alloc, b"a") else {
        return Err(Stop::NoMemory);
    };
    let Ok(node) = Node::with_image(alloc, 1, 1, octets) else {
        return Err(Stop::NoMemory);
    };
    Ok(node)
}

/// Whether a new node does all this so.
pub(super) fn holds(alloc: Global, before: &[Move], then: &[Move]) -> Result<bool, Stop> {
    let mut node = new_node(alloc)?;
    Ok(plays(&mut node, alloc, before)? && plays(&mut node, alloc, then)?)
}
