// Events that a power cut tears, and what is booted then.
use super::messages::*;
use super::play::{NODE, new_node, packet, plays};
use super::rows::Way;
use mu_reference_node::{Event, Node, Stop};
use std::alloc::Global;

/// What is seen of a node: its record count, the blocks held in filling, the update phase and the BLOB phase.
type Seen = (u32, u16, u8, u8);

/// The way to a phase, the moment, what comes then or nothing where time passes, how many operations the event has, how many of them
/// are done, and what is booted.
pub(super) const TORN: [(Way, u64, Option<&[u8]>, usize, usize, Seen); 25] = [
    // The first record after a boot erases.
    (Way::New, 0, Some(START), 2, 0, (2, 0, 0, 0)),
    (Way::New, 0, Some(START), 2, 1, (2, 0, 0, 0)),
    (Way::New, 0, Some(START), 2, 2, (3, 0, 1, 0)),
    // A bank is begun: its marks are erased, and a slot is fresh for the record.
    (Way::Ready, 0, Some(TRANSFER_START), 2, 1, (3, 0, 1, 0)),
    (Way::Ready, 0, Some(TRANSFER_START), 2, 2, (4, 0, 1, 5)),
    // A block is opened, and a chunk that isn't the last, in memory alone.
    (Way::Blocks, 0, Some(BLOCK_START), 0, 0, (4, 0, 1, 5)),
    (Way::Chunks, 0, Some(CHUNK_SHORT), 0, 0, (4, 0, 1, 5)),
    // A block of one page: erased, programmed, marked.
    (Way::Chunks, 0, Some(CHUNK), 3, 0, (4, 0, 1, 5)),
    (Way::Chunks, 0, Some(CHUNK), 3, 2, (4, 0, 1, 5)),
    (Way::Chunks, 0, Some(CHUNK), 3, 3, (4, 1, 3, 4)),
    // The bank is sealed by one record, and again after a cut before it.
    (Way::Full, 1, None, 1, 0, (4, 1, 3, 4)),
    (Way::Full, 1, None, 1, 1, (5, 0, 4, 4)),
    (Way::Whole, 1, Some(APPLY), 1, 0, (5, 0, 4, 4)),
    (Way::Whole, 1, Some(APPLY), 1, 1, (6, 0, 6, 4)),
    // No slot is fresh any more.
    (Way::Asked, 2, None, 2, 1, (6, 0, 6, 4)),
    (Way::Asked, 2, None, 2, 2, (7, 0, 0, 0)),
    (Way::Chunks, 0, Some(CANCEL), 1, 0, (4, 0, 1, 5)),
    (Way::Chunks, 0, Some(CANCEL), 1, 1, (5, 0, 0, 0)),
    (Way::Chunks, 0, Some(TRANSFER_CANCEL), 1, 1, (5, 0, 1, 0)),
    // Without parameters no record is written.
    (Way::Ready, 0, Some(TRANSFER_CANCEL), 0, 0, (3, 0, 1, 0)),
    (Way::New, 0, Some(CANCEL), 0, 0, (2, 0, 0, 0)),
    (Way::Late, 10000, Some(START), 0, 0, (3, 0, 1, 0)),
    (Way::Late, 10000, Some(START_ANEW), 1, 1, (4, 0, 1, 0)),
    (Way::Unfit, 1, Some(START), 1, 1, (6, 0, 1, 0)),
    (Way::Chunks, 10000, None, 0, 0, (4, 0, 1, 5)),
];

fn seen(node: &Node) -> Seen {
    (
        node.count(),
        node.held_count(),
        node.phase(),
        node.blob_phase(),
    )
}

fn torn(
    node: &mut Node,
    alloc: Global,
    event: Event,
    now: u64,
    operations: usize,
    done: usize,
) -> Result<Option<Seen>, Stop> {
    let Ok(counted) = node.operations(alloc, &NODE, event, now) else {
        return Err(Stop::NoMemory);
    };
    if counted != operations || done > counted {
        return Ok(None);
    }
    node.tear(alloc, &NODE, event, now, done)?;
    Ok(Some(seen(node)))
}

/// What is booted where an event is torn, if it has so many operations.
pub(super) fn booted(
    alloc: Global,
    way: Way,
    now: u64,
    octets: Option<&[u8]>,
    operations: usize,
    done: usize,
) -> Result<Option<Seen>, Stop> {
    let mut node = new_node(alloc)?;
    if !plays(&mut node, alloc, way.moves())? {
        return Ok(None);
    }
    match octets {
        None => torn(&mut node, alloc, Event::Time, now, operations, done),
        Some(octets) => {
            let packet = packet(octets);
            torn(
                &mut node,
                alloc,
                Event::Packet(&packet),
                now,
                operations,
                done,
            )
        }
    }
}
