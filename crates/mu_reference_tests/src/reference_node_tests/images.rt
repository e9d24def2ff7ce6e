// A node with two images, the last record, other addresses, and the log.
use super::messages::*;
use super::play::{NODE, answers, new_node, packet, plays, sends};
use super::rows::Way;
use mu_codec::{Outbox, Packet};
use mu_model_node::NodeConfig;
use mu_reference_node::{Event, Node, Stop, What};
use std::alloc::Global;

fn two_images(alloc: Global) -> Result<Node, Stop> {
    let Ok(octets) = Vec::from_slice(alloc, b"a") else {
        return Err(Stop::NoMemory);
    };
    let Ok(second) = Vec::from_slice(alloc, b"a") else {
        return Err(Stop::NoMemory);
    };
    let Ok(node) = Node::pair(alloc, 1, 1, octets, 1, second) else {
        return Err(Stop::NoMemory);
    };
    Ok(node)
}

const BOTH_IMAGES: &[u8] = b"\x83\x08\x00\x02";

const BOTH: &[u8] =
    b"\x83\x09\x02\x00\x26\xff\xff\x01\x00\x00\x00\xca\x97\x81\x12\xca\x1b\xbd\xca\xfa\xc2\x31\xb3\x9a\x23\xdc\x4d\xa7\x86\xef\xf8\x14\x7c\x4e\x72\xb9\x80\x77\x85\xaf\xee\x48\xbb\x00\x26\xff\xff\x01\x00\x00\x00\xca\x97\x81\x12\xca\x1b\xbd\xca\xfa\xc2\x31\xb3\x9a\x23\xdc\x4d\xa7\x86\xef\xf8\x14\x7c\x4e\x72\xb9\x80\x77\x85\xaf\xee\x48\xbb\x00";

const SECOND_IMAGE: &[u8] = b"\x83\x08\x01\xff";

const SECOND: &[u8] =
    b"\x83\x09\x02\x01\x26\xff\xff\x01\x00\x00\x00\xca\x97\x81\x12\xca\x1b\xbd\xca\xfa\xc2\x31\xb3\x9a\x23\xdc\x4d\xa7\x86\xef\xf8\x14\x7c\x4e\x72\xb9\x80\x77\x85\xaf\xee\x48\xbb\x00";

const START_SECOND: &[u8] =
    b"\x83\x0d\x05\x00\x00\x07\x00\x00\x00\x00\x00\x01\x00\x01\x03\x00\x00\x00\x02\x00\x00\x00\xba\x78\x16\xbf\x8f\x01\xcf\xea\x41\x41\x40\xde\x5d\xae\x22\x23\xb0\x03\x61\xa3\x96\x17\x7a\x9c\xb4\x10\xff\x61\xf2\x00\x15\xad";

const START_THIRD: &[u8] =
    b"\x83\x0d\x05\x00\x00\x07\x00\x00\x00\x00\x00\x01\x00\x02\x03\x00\x00\x00\x02\x00\x00\x00\xba\x78\x16\xbf\x8f\x01\xcf\xea\x41\x41\x40\xde\x5d\xae\x22\x23\xb0\x03\x61\xa3\x96\x17\x7a\x9c\xb4\x10\xff\x61\xf2\x00\x15\xad";

const ACTIVE_SECOND: &[u8] = b"\x83\x10\x40\x05\x00\x00\x00\x07\x00\x00\x00\x00\x00\x01\x00\x01";

const APPLYING_SECOND: &[u8] = b"\x83\x10\xc0\x05\x00\x00\x00\x07\x00\x00\x00\x00\x00\x01\x00\x01";

/// Whether a node with two images tells both, and updates the second alone.
pub(super) fn second_is_updated(alloc: Global) -> Result<bool, Stop> {
    let mut node = two_images(alloc)?;
    let told = answers(&mut node, alloc, BOTH_IMAGES, 0, BOTH)?
        && answers(&mut node, alloc, SECOND_IMAGE, 0, SECOND)?
        && answers(&mut node, alloc, START_THIRD, 0, IDLE_WRONG_INDEX)?;
    let updated = answers(&mut node, alloc, START_SECOND, 0, ACTIVE_SECOND)?
        && answers(&mut node, alloc, TRANSFER_START, 0, T_BLOCK)?
        && answers(&mut node, alloc, BLOCK_START, 0, B_ALL)?
        && answers(&mut node, alloc, CHUNK, 0, NOTHING)?
        && sends(&mut node, alloc, 1, NOTHING)?
        && answers(&mut node, alloc, APPLY, 1, APPLYING_SECOND)?
        && sends(&mut node, alloc, 2, NOTHING)?;
    if node.images() != 2 {
        return Ok(false);
    }
    let (first, second) = (node.active(0), node.active(1));
    Ok(
        told && updated
            && first.version == 1
            && first.size == 1
            && second.version == 2
            && second.size == 3,
    )
}

/// What a node that has written its last record does with an Update Start, whether it answers one that writes nothing, and its record
/// count and phase afterwards.
pub(super) fn worn(alloc: Global) -> Result<(Option<Stop>, bool, u32, u8), Stop> {
    let mut node = new_node(alloc)?.at_last_record();
    let stopped = match answers(&mut node, alloc, START, 7, NOTHING) {
        Ok(_) => None,
        Err(stop) => Some(stop),
    };
    let told = answers(&mut node, alloc, START_EQUAL_VERSION, 7, IDLE_CHECK_FAILED)?;
    Ok((stopped, told, node.count(), node.phase()))
}

/// Whether a node in a group handles a packet to this address with these octets.
pub(super) fn is_handled(alloc: Global, group: u16, to: u16, octets: &[u8]) -> Result<bool, Stop> {
    let mut node = new_node(alloc)?;
    let config = NodeConfig { address: 2, group };
    let packet = Packet {
        to,
        ..packet(octets)
    };
    let mut out = Outbox::new();
    let stepped = node.step(alloc, &config, Event::Packet(&packet), 0, &mut out)?;
    Ok(stepped.handled)
}

fn logs(
    node: &mut Node,
    alloc: Global,
    event: Event,
    now: u64,
    want: &[What],
) -> Result<bool, Stop> {
    let mut out = Outbox::new();
    let stepped = node.step(alloc, &NODE, event, now, &mut out)?;
    Ok(stepped.entries.as_slice() == want)
}

/// Whether an event after the way to a phase is logged so.
pub(super) fn is_logged(
    alloc: Global,
    way: Way,
    octets: Option<&[u8]>,
    now: u64,
    want: &[What],
) -> Result<bool, Stop> {
    let mut node = new_node(alloc)?;
    if !plays(&mut node, alloc, way.moves())? {
        return Ok(false);
    }
    match octets {
        None => logs(&mut node, alloc, Event::Time, now, want),
        Some(octets) => {
            let packet = packet(octets);
            logs(&mut node, alloc, Event::Packet(&packet), now, want)
        }
    }
}

/// Whether a power cut after the way to a phase is logged so.
pub(super) fn cut_is_logged(alloc: Global, way: Way, want: &[What]) -> Result<bool, Stop> {
    let mut node = new_node(alloc)?;
    if !plays(&mut node, alloc, way.moves())? {
        return Ok(false);
    }
    Ok(node.restart().as_slice() == want)
}
