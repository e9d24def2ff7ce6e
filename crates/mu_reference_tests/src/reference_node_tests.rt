mod blocks;
mod images;
mod memory;
mod messages;
mod play;
mod rows;
mod torn;

use blocks::{Transfer, plays_to};
use images::{cut_is_logged, is_handled, is_logged, second_is_updated, worn};
use memory::updated;
use messages::{APPLY, CANCEL, CHUNK, CHUNK_WRONG, GET, START, START_ANEW};
use mu_image::Meta;
use mu_reference_node::{Stop, What};
use play::{Move, holds};
use rows::{BLOCK_ROWS, HEARD_ROWS, START_ROWS, TRANSFER_ROWS, UPDATE_ROWS, Way};
use std::alloc::Global;
use torn::{TORN, booted};

// The number of the first row that a node doesn't do so.
fn first_wrong(alloc: Global, rows: &[(Way, &[Move])]) -> Option<usize> {
    for (index, (way, then)) in rows.iter().enumerate() {
        if holds(alloc, way.moves(), then) != Ok(true) {
            return Some(index);
        }
    }
    None
}

#[test]
fn what_a_node_tells_is_as_the_table_says(rt: HostRuntime) {
    assert_eq!(rt; first_wrong(rt.alloc(), &UPDATE_ROWS), None);
}

#[test]
fn updates_start_and_end_as_the_table_says(rt: HostRuntime) {
    assert_eq!(rt; first_wrong(rt.alloc(), &START_ROWS), None);
}

#[test]
fn transfers_are_as_the_table_says(rt: HostRuntime) {
    assert_eq!(rt; first_wrong(rt.alloc(), &TRANSFER_ROWS), None);
}

#[test]
fn blocks_and_chunks_are_as_the_table_says(rt: HostRuntime) {
    assert_eq!(rt; first_wrong(rt.alloc(), &BLOCK_ROWS), None);
}

#[test]
fn what_is_heard_puts_off_the_timeout(rt: HostRuntime) {
    assert_eq!(rt; first_wrong(rt.alloc(), &HEARD_ROWS), None);
}

#[test]
fn a_torn_event_leaves_the_old_state_until_its_last_operation(rt: HostRuntime) {
    for (row, (way, now, octets, operations, done, seen)) in TORN.iter().enumerate() {
        let booted = booted(rt.alloc(), *way, *now, *octets, *operations, *done);
        assert!(rt; booted == Ok(Some(*seen)), "row {row}");
    }
}

fn transfer(size: u32, chunk: u16, mode: u8) -> Transfer {
    Transfer {
        seed: 0,
        size,
        chunk,
        mode,
    }
}

#[test]
fn blocks_and_chunks_tile_the_image(rt: HostRuntime) {
    let alloc = rt.alloc();
    assert_eq!(rt;
        plays_to(alloc, transfer(8192, 376, 1), blocks::WHOLE),
        Ok((None, 1))
    );
    assert_eq!(rt;
        plays_to(alloc, transfer(8192, 376, 1), blocks::LATE),
        Ok((None, 1))
    );
    assert_eq!(rt;
        plays_to(alloc, transfer(10000, 200, 1), blocks::TILES),
        Ok((None, 1))
    );
    assert_eq!(rt;
        plays_to(alloc, transfer(10000, 200, 2), blocks::PULLED),
        Ok((None, 1))
    );
    assert_eq!(rt;
        plays_to(alloc, transfer(10000, 200, 1), blocks::HEARD),
        Ok((None, 1))
    );
}

#[test]
fn the_second_image_is_updated_alone(rt: HostRuntime) {
    assert_eq!(rt; second_is_updated(rt.alloc()), Ok(true));
}

#[test]
fn a_node_that_is_worn_is_as_it_was(rt: HostRuntime) {
    assert_eq!(rt; worn(rt.alloc()), Ok((Some(Stop::Worn), true, u32::MAX, 0)));
}

#[test]
fn packets_for_others_are_unread(rt: HostRuntime) {
    for (group, to, octets, handled) in [
        (0, 2, GET, true),
        (0, 3, GET, false),
        (0, 0, GET, false),
        (0xC000, 0xC000, GET, true),
        (0xC000, 0xC001, GET, false),
        (0xC000, 2, b"\x83\x10\x00".as_slice(), false),
        (0, 2, b"\x83\x14\x00\x00\x01\x00".as_slice(), false),
        (0, 2, b"".as_slice(), false),
        (0, 2, b"\x83\x0c\x00".as_slice(), false),
    ] {
        assert_eq!(rt;
            is_handled(rt.alloc(), group, to, octets),
            Ok(handled),
            "at {octets:?}"
        );
    }
}

const ID: u64 = 0x0001_0000_0000_0007;

const OTHER_ID: u64 = 0x0001_0000_0000_0008;

const OFFERED: Meta = Meta {
    size: 3,
    version: 2,
    digest: [
        0xba, 0x78, 0x16, 0xbf, 0x8f, 0x01, 0xcf, 0xea, 0x41, 0x41, 0x40, 0xde, 0x5d, 0xae, 0x22,
        0x23, 0xb0, 0x03, 0x61, 0xa3, 0x96, 0x17, 0x7a, 0x9c, 0xb4, 0x10, 0xff, 0x61, 0xf2, 0x00,
        0x15, 0xad,
    ],
};

const TOOK: What = What::Took {
    id: ID,
    index: 0,
    meta: OFFERED,
};

// The way to a phase, what comes or nothing where time passes, the moment, and the entries.
const LOGGED: [(Way, Option<&[u8]>, u64, &[What]); 12] = [
    (
        Way::New,
        Some(START),
        0,
        &[TOOK, What::Reached { id: ID, phase: 2 }],
    ),
    (Way::Ready, Some(START), 0, &[]),
    (
        Way::Late,
        Some(START),
        10000,
        &[What::Reached { id: ID, phase: 2 }],
    ),
    (
        Way::Late,
        Some(START_ANEW),
        10000,
        &[
            What::Took {
                id: OTHER_ID,
                index: 0,
                meta: OFFERED,
            },
            What::Reached {
                id: OTHER_ID,
                phase: 2,
            },
        ],
    ),
    (
        Way::Chunks,
        Some(CHUNK),
        0,
        &[What::Reached { id: ID, phase: 3 }],
    ),
    (Way::Full, None, 1, &[What::Reached { id: ID, phase: 4 }]),
    (
        Way::Whole,
        Some(APPLY),
        1,
        &[What::Asked { id: ID }, What::Reached { id: ID, phase: 6 }],
    ),
    (
        Way::Asked,
        None,
        2,
        &[What::Active {
            index: 0,
            meta: OFFERED,
        }],
    ),
    (Way::Whole, Some(CANCEL), 1, &[What::Canceled { id: ID }]),
    (
        Way::Chunks,
        None,
        10000,
        &[What::Reached { id: ID, phase: 1 }],
    ),
    (
        Way::Unfit,
        Some(START),
        1,
        &[TOOK, What::Reached { id: ID, phase: 2 }],
    ),
    (Way::New, Some(CHUNK_WRONG), 0, &[]),
];

#[test]
fn the_log_has_what_events_did(rt: HostRuntime) {
    let alloc = rt.alloc();
    for (row, (way, octets, now, want)) in LOGGED.iter().enumerate() {
        assert!(rt;
            is_logged(alloc, *way, *octets, *now, want) == Ok(true),
            "row {row}"
        );
    }
    assert_eq!(rt;
        cut_is_logged(alloc, Way::Chunks, &[What::Reached { id: ID, phase: 1 }]),
        Ok(true)
    );
    assert_eq!(rt; cut_is_logged(alloc, Way::Whole, &[]), Ok(true));
}

#[test]
fn a_refused_allocation_leaves_the_node_as_it_was(rt: HostRuntime) {
    assert_eq!(rt; updated(rt.alloc()), Some((7, 0)));
}
