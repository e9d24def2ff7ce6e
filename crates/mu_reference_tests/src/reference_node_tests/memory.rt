// Want of memory: the node is as it was, and goes on.
use super::play::{Move, NODE, new_node, packet};
use super::rows::Way;
use mu_codec::Outbox;
use mu_reference_node::{Event, Node, Stop};
use std::alloc::Global;

fn seen(node: &Node) -> (u32, u16, u8, u8) {
    (
        node.count(),
        node.held_count(),
        node.phase(),
        node.blob_phase(),
    )
}

// Whether an event is done, if need be a second time, and leaves the node as it was the first time.
fn is_done_in_the_end(node: &mut Node, alloc: Global, event: Event, now: u64) -> bool {
    let before = seen(node);
    let mut out = Outbox::new();
    match node.step(alloc, &NODE, event, now, &mut out) {
        Ok(_) => true,
        Err(Stop::Worn) => false,
        Err(Stop::NoMemory) => {
            seen(node) == before
                && out.is_empty()
                && node.step(alloc, &NODE, event, now, &mut out).is_ok()
        }
    }
}

fn all_are_done(node: &mut Node, alloc: Global, moves: &[Move]) -> bool {
    for one in moves {
        let is_done = match one {
            Move::Say(now, octets, _) => {
                let packet = packet(octets);
                is_done_in_the_end(node, alloc, Event::Packet(&packet), *now)
            }
            Move::Time(now, _) => is_done_in_the_end(node, alloc, Event::Time, *now),
        };
        if !is_done {
            return false;
        }
    }
    true
}

/// The record count and the phase after a whole update, of which one allocation may fail.
pub(super) fn updated(alloc: Global) -> Option<(u32, u8)> {
    // Its own allocations may fail too.
    let mut node = match new_node(alloc) {
        Ok(node) => node,
        Err(_) => new_node(alloc).ok()?,
    };
    if all_are_done(&mut node, alloc, Way::Updated.moves()) {
        Some((node.count(), node.phase()))
    } else {
        None
    }
}
