// The node's tables: what each message does in every phase where it answers differently.
use super::messages::*;
use super::play::Move::{self, Say, Time};

const NEW: &[Move] = &[];

const READY: &[Move] = &[Say(0, START, ACTIVE)];

const LATE: &[Move] = &[Say(0, START, ACTIVE), Time(10000, NOTHING)];

const BLOCKS: &[Move] = &[Say(0, START, ACTIVE), Say(0, TRANSFER_START, T_BLOCK)];

const CHUNKS: &[Move] = &[
    Say(0, START, ACTIVE),
    Say(0, TRANSFER_START, T_BLOCK),
    Say(0, BLOCK_START, B_ALL),
];

const STOPPED: &[Move] = &[
    Say(0, START, ACTIVE),
    Say(0, TRANSFER_START, T_BLOCK),
    Time(10000, NOTHING),
];

const TAKEN_UP: &[Move] = &[
    Say(0, START, ACTIVE),
    Say(0, TRANSFER_START, T_BLOCK),
    Time(10000, NOTHING),
    Say(10000, START, ACTIVE),
];

const FULL: &[Move] = &[
    Say(0, START, ACTIVE),
    Say(0, TRANSFER_START, T_BLOCK),
    Say(0, BLOCK_START, B_ALL),
    Say(0, CHUNK, NOTHING),
];

const WHOLE: &[Move] = &[
    Say(0, START, ACTIVE),
    Say(0, TRANSFER_START, T_BLOCK),
    Say(0, BLOCK_START, B_ALL),
    Say(0, CHUNK, NOTHING),
    Time(1, NOTHING),
];

const UNFIT: &[Move] = &[
    Say(0, START, ACTIVE),
    Say(0, TRANSFER_START, T_BLOCK),
    Say(0, BLOCK_START, B_ALL),
    Say(0, CHUNK_WRONG, NOTHING),
    Time(1, NOTHING),
];

const ASKED: &[Move] = &[
    Say(0, START, ACTIVE),
    Say(0, TRANSFER_START, T_BLOCK),
    Say(0, BLOCK_START, B_ALL),
    Say(0, CHUNK, NOTHING),
    Time(1, NOTHING),
    Say(1, APPLY, APPLYING),
];

const UPDATED: &[Move] = &[
    Say(0, START, ACTIVE),
    Say(0, TRANSFER_START, T_BLOCK),
    Say(0, BLOCK_START, B_ALL),
    Say(0, CHUNK, NOTHING),
    Time(1, NOTHING),
    Say(1, APPLY, APPLYING),
    Time(2, NOTHING),
];

const PULLED: &[Move] = &[
    Say(0, START, ACTIVE),
    Say(0, TRANSFER_START_PULL, T_BLOCK_PULL),
    Say(0, BLOCK_START, B_ALL),
];

/// A way to a phase.
#[derive(Clone, Copy)]
pub(super) enum Way {
    New,
    Ready,
    Late,
    Blocks,
    Chunks,
    Stopped,
    TakenUp,
    Full,
    Whole,
    Unfit,
    Asked,
    Updated,
    Pulled,
}

impl Way {
    /// What comes on it.
    pub(super) fn moves(self) -> &'static [Move] {
        match self {
            Way::New => NEW,
            Way::Ready => READY,
            Way::Late => LATE,
            Way::Blocks => BLOCKS,
            Way::Chunks => CHUNKS,
            Way::Stopped => STOPPED,
            Way::TakenUp => TAKEN_UP,
            Way::Full => FULL,
            Way::Whole => WHOLE,
            Way::Unfit => UNFIT,
            Way::Asked => ASKED,
            Way::Updated => UPDATED,
            Way::Pulled => PULLED,
        }
    }
}

/// What a node tells of itself and of what is offered: the way to a phase, then what comes, with the answers.
pub(super) const UPDATE_ROWS: [(Way, &[Move]); 25] = [
    (Way::New, &[Say(0, GET, IDLE)]),
    (Way::Ready, &[Say(0, GET, ACTIVE)]),
    (Way::Late, &[Say(10000, GET, ERROR)]),
    (Way::Blocks, &[Say(0, GET, ACTIVE)]),
    (Way::Chunks, &[Say(0, GET, ACTIVE)]),
    (Way::Stopped, &[Say(10000, GET, ERROR)]),
    (Way::TakenUp, &[Say(10000, GET, ACTIVE)]),
    (Way::Full, &[Say(0, GET, VERIFYING)]),
    (Way::Whole, &[Say(1, GET, SUCCEEDED)]),
    (Way::Unfit, &[Say(1, GET, FAILED)]),
    (Way::Asked, &[Say(1, GET, APPLYING)]),
    (Way::Updated, &[Say(2, GET, IDLE)]),
    (Way::New, &[Say(0, INFORMATION, IMAGES)]),
    (Way::New, &[Say(0, INFORMATION_NONE, IMAGES_NONE)]),
    (Way::New, &[Say(0, INFORMATION_PAST, IMAGES_PAST)]),
    (Way::Asked, &[Say(1, INFORMATION, IMAGES)]),
    (Way::Updated, &[Say(2, INFORMATION, IMAGES_UPDATED)]),
    (Way::New, &[Say(0, CHECK, CHECKED)]),
    (Way::Whole, &[Say(1, CHECK, CHECKED)]),
    (Way::Updated, &[Say(2, CHECK, CHECKED_FAILED)]),
    (Way::New, &[Say(0, CHECK_EQUAL_VERSION, CHECKED_FAILED)]),
    (Way::New, &[Say(0, CHECK_NO_IMAGE, CHECKED_WRONG_INDEX)]),
    (Way::New, &[Say(0, CHECK_TOO_LARGE, CHECKED_FAILED)]),
    (Way::New, &[Say(0, CHECK_EMPTY, CHECKED_FAILED)]),
    (Way::New, &[Say(0, CHECK_SHORT, CHECKED_FAILED)]),
];

/// Update Start, Update Cancel, Update Apply: the way to a phase, then what comes, with the answers.
pub(super) const START_ROWS: [(Way, &[Move]); 38] = [
    (Way::New, &[Say(0, START, ACTIVE)]),
    (Way::Ready, &[Say(0, START, ACTIVE)]),
    (
        Way::Ready,
        &[
            Say(0, START_LONGER, ACTIVE_WRONG_PHASE),
            Say(0, GET, ACTIVE),
        ],
    ),
    (
        Way::Blocks,
        &[Say(0, START, ACTIVE), Say(0, TRANSFER_GET, T_BLOCK)],
    ),
    (Way::Full, &[Say(0, START, VERIFYING)]),
    (Way::Full, &[Say(0, START_ANEW, VERIFYING_WRONG_PHASE)]),
    (Way::Whole, &[Say(1, START, SUCCEEDED)]),
    (Way::Whole, &[Say(1, START_ANEW, SUCCEEDED_WRONG_PHASE)]),
    (Way::Asked, &[Say(1, START, APPLYING)]),
    (Way::Asked, &[Say(1, START_ANEW, APPLYING_WRONG_PHASE)]),
    (
        Way::Late,
        &[
            Say(10000, START, ACTIVE),
            Say(10000, TRANSFER_GET, T_WAITING),
        ],
    ),
    (Way::Late, &[Say(10000, START_LONGER, ACTIVE_LONGER)]),
    (Way::Stopped, &[Say(10000, START_ANEW, ACTIVE_ANEW)]),
    (
        Way::Stopped,
        &[
            Say(10000, START, ACTIVE),
            Say(10000, TRANSFER_GET, T_SUSPENDED),
        ],
    ),
    (
        Way::Unfit,
        &[Say(1, START, ACTIVE), Say(1, TRANSFER_GET, T_WAITING)],
    ),
    (Way::New, &[Say(0, START_EQUAL_VERSION, IDLE_CHECK_FAILED)]),
    (Way::New, &[Say(0, START_NO_IMAGE, IDLE_WRONG_INDEX)]),
    (
        Way::Late,
        &[
            Say(10000, START_EQUAL_VERSION, ERROR_CHECK_FAILED),
            Say(10000, GET, ERROR),
        ],
    ),
    (
        Way::Unfit,
        &[
            Say(1, START_EQUAL_VERSION, FAILED_CHECK_FAILED),
            Say(1, GET, FAILED),
        ],
    ),
    (Way::New, &[Say(0, CANCEL, IDLE)]),
    (Way::Ready, &[Say(0, CANCEL, IDLE), Say(0, GET, IDLE)]),
    (
        Way::Late,
        &[Say(10000, CANCEL, IDLE), Say(10000, GET, IDLE)],
    ),
    (Way::Blocks, &[Say(0, CANCEL, IDLE), Say(0, GET, IDLE)]),
    (Way::Chunks, &[Say(0, CANCEL, IDLE), Say(0, GET, IDLE)]),
    (
        Way::Stopped,
        &[Say(10000, CANCEL, IDLE), Say(10000, GET, IDLE)],
    ),
    (
        Way::TakenUp,
        &[Say(10000, CANCEL, IDLE), Say(10000, GET, IDLE)],
    ),
    (Way::Full, &[Say(0, CANCEL, IDLE), Say(0, GET, IDLE)]),
    (Way::Whole, &[Say(1, CANCEL, IDLE), Say(1, GET, IDLE)]),
    (Way::Unfit, &[Say(1, CANCEL, IDLE), Say(1, GET, IDLE)]),
    (
        Way::Asked,
        &[Say(1, CANCEL, APPLYING_WRONG_PHASE), Say(1, GET, APPLYING)],
    ),
    (Way::New, &[Say(0, APPLY, IDLE_WRONG_PHASE)]),
    (Way::Late, &[Say(10000, APPLY, ERROR_WRONG_PHASE)]),
    (Way::Ready, &[Say(0, APPLY, ACTIVE_WRONG_PHASE)]),
    (Way::Chunks, &[Say(0, APPLY, ACTIVE_WRONG_PHASE)]),
    (
        Way::Full,
        &[Say(0, APPLY, VERIFYING_WRONG_PHASE), Say(0, GET, VERIFYING)],
    ),
    (
        Way::Whole,
        &[Say(1, APPLY, APPLYING), Say(1, GET, APPLYING)],
    ),
    (Way::Unfit, &[Say(1, APPLY, FAILED_WRONG_PHASE)]),
    (Way::Asked, &[Say(1, APPLY, APPLYING)]),
];

/// BLOB Information and BLOB Transfer messages: the way to a phase, then what comes, with the answers.
pub(super) const TRANSFER_ROWS: [(Way, &[Move]); 65] = [
    (Way::New, &[Say(0, BLOB_INFORMATION, BLOB_LIMITS)]),
    (Way::Whole, &[Say(1, BLOB_INFORMATION, BLOB_LIMITS)]),
    (Way::New, &[Say(0, TRANSFER_GET, T_INACTIVE)]),
    (Way::Ready, &[Say(0, TRANSFER_GET, T_WAITING)]),
    (Way::Late, &[Say(10000, TRANSFER_GET, T_INACTIVE)]),
    (Way::Blocks, &[Say(0, TRANSFER_GET, T_BLOCK)]),
    (Way::Chunks, &[Say(0, TRANSFER_GET, T_CHUNK)]),
    (Way::Stopped, &[Say(10000, TRANSFER_GET, T_SUSPENDED)]),
    (Way::TakenUp, &[Say(10000, TRANSFER_GET, T_SUSPENDED)]),
    (Way::Full, &[Say(0, TRANSFER_GET, T_COMPLETE)]),
    (Way::Whole, &[Say(1, TRANSFER_GET, T_COMPLETE)]),
    (Way::Unfit, &[Say(1, TRANSFER_GET, T_INACTIVE)]),
    (Way::Asked, &[Say(1, TRANSFER_GET, T_COMPLETE)]),
    (Way::Ready, &[Say(0, TRANSFER_START_OTHER, T_WAITING_OTHER)]),
    (Way::Ready, &[Say(0, TRANSFER_START_LARGE, T_WAITING_LARGE)]),
    (Way::Ready, &[Say(0, TRANSFER_START_LOG_11, T_WAITING_LOG)]),
    (Way::Ready, &[Say(0, TRANSFER_START_LOG_15, T_WAITING_LOG)]),
    (
        Way::Ready,
        &[
            Say(0, TRANSFER_START_SIZE, T_WAITING_SIZE),
            Say(0, TRANSFER_GET, T_WAITING),
        ],
    ),
    (Way::Ready, &[Say(0, TRANSFER_START, T_BLOCK)]),
    (Way::Ready, &[Say(0, TRANSFER_START_PULL, T_BLOCK_PULL)]),
    (
        Way::TakenUp,
        &[Say(10000, TRANSFER_START_OTHER, T_SUSPENDED_OTHER)],
    ),
    (
        Way::TakenUp,
        &[Say(10000, TRANSFER_START_MTU, T_SUSPENDED_PARAMETER)],
    ),
    (
        Way::TakenUp,
        &[Say(10000, TRANSFER_START_SIZE, T_SUSPENDED_PARAMETER)],
    ),
    (Way::TakenUp, &[Say(10000, TRANSFER_START, T_BLOCK)]),
    (Way::Blocks, &[Say(0, TRANSFER_START_OTHER, T_BLOCK_OTHER)]),
    (
        Way::Blocks,
        &[Say(0, TRANSFER_START_MTU, T_BLOCK_WRONG_PHASE)],
    ),
    (Way::Blocks, &[Say(0, TRANSFER_START, T_BLOCK)]),
    (Way::Chunks, &[Say(0, TRANSFER_START_OTHER, T_CHUNK_OTHER)]),
    (
        Way::Chunks,
        &[Say(0, TRANSFER_START_MTU, T_CHUNK_WRONG_PHASE)],
    ),
    (Way::Chunks, &[Say(0, TRANSFER_START, T_CHUNK)]),
    (Way::Full, &[Say(0, TRANSFER_START_OTHER, T_COMPLETE_OTHER)]),
    (
        Way::Full,
        &[Say(0, TRANSFER_START_MTU, T_COMPLETE_WRONG_PHASE)],
    ),
    (Way::Full, &[Say(0, TRANSFER_START, T_COMPLETE)]),
    (
        Way::Whole,
        &[Say(1, TRANSFER_START_OTHER, T_COMPLETE_OTHER)],
    ),
    (
        Way::Whole,
        &[Say(1, TRANSFER_START_MTU, T_COMPLETE_WRONG_PHASE)],
    ),
    (Way::Whole, &[Say(1, TRANSFER_START, T_COMPLETE)]),
    (
        Way::Asked,
        &[Say(1, TRANSFER_START_OTHER, T_COMPLETE_OTHER)],
    ),
    (
        Way::Asked,
        &[Say(1, TRANSFER_START_MTU, T_COMPLETE_WRONG_PHASE)],
    ),
    (Way::Asked, &[Say(1, TRANSFER_START, T_COMPLETE)]),
    (Way::New, &[Say(0, TRANSFER_START, T_INACTIVE_WRONG_PHASE)]),
    (
        Way::Late,
        &[Say(10000, TRANSFER_START, T_INACTIVE_WRONG_PHASE)],
    ),
    (
        Way::Stopped,
        &[Say(10000, TRANSFER_START, T_SUSPENDED_WRONG_PHASE)],
    ),
    (
        Way::Unfit,
        &[Say(1, TRANSFER_START, T_INACTIVE_WRONG_PHASE)],
    ),
    (
        Way::Stopped,
        &[Say(10000, TRANSFER_START_OTHER, T_SUSPENDED_WRONG_PHASE)],
    ),
    (Way::New, &[Say(0, TRANSFER_CANCEL, T_INACTIVE)]),
    (Way::New, &[Say(0, TRANSFER_CANCEL_OTHER, T_INACTIVE)]),
    (Way::Unfit, &[Say(1, TRANSFER_CANCEL, T_INACTIVE)]),
    (Way::Unfit, &[Say(1, TRANSFER_CANCEL_OTHER, T_INACTIVE)]),
    (
        Way::Unfit,
        &[Say(1, TRANSFER_CANCEL, T_INACTIVE), Say(1, GET, FAILED)],
    ),
    (
        Way::Ready,
        &[Say(0, TRANSFER_CANCEL_OTHER, T_WAITING_OTHER)],
    ),
    (Way::Blocks, &[Say(0, TRANSFER_CANCEL_OTHER, T_BLOCK_OTHER)]),
    (Way::Chunks, &[Say(0, TRANSFER_CANCEL_OTHER, T_CHUNK_OTHER)]),
    (
        Way::Stopped,
        &[Say(10000, TRANSFER_CANCEL_OTHER, T_SUSPENDED_OTHER)],
    ),
    (
        Way::Full,
        &[Say(0, TRANSFER_CANCEL_OTHER, T_COMPLETE_OTHER)],
    ),
    (
        Way::Whole,
        &[Say(1, TRANSFER_CANCEL_OTHER, T_COMPLETE_OTHER)],
    ),
    (
        Way::Asked,
        &[Say(1, TRANSFER_CANCEL_OTHER, T_COMPLETE_OTHER)],
    ),
    (
        Way::Ready,
        &[Say(0, TRANSFER_CANCEL, T_INACTIVE), Say(0, GET, ERROR)],
    ),
    (
        Way::Blocks,
        &[Say(0, TRANSFER_CANCEL, T_INACTIVE), Say(0, GET, ERROR)],
    ),
    (
        Way::Chunks,
        &[Say(0, TRANSFER_CANCEL, T_INACTIVE), Say(0, GET, ERROR)],
    ),
    (
        Way::Stopped,
        &[
            Say(10000, TRANSFER_CANCEL, T_INACTIVE),
            Say(10000, GET, ERROR),
        ],
    ),
    (
        Way::TakenUp,
        &[
            Say(10000, TRANSFER_CANCEL, T_INACTIVE),
            Say(10000, GET, ERROR),
        ],
    ),
    (
        Way::Late,
        &[
            Say(10000, TRANSFER_CANCEL, T_INACTIVE),
            Say(10000, GET, ERROR),
        ],
    ),
    (
        Way::Full,
        &[
            Say(0, TRANSFER_CANCEL, T_COMPLETE_WRONG_PHASE),
            Say(0, GET, VERIFYING),
        ],
    ),
    (
        Way::Whole,
        &[
            Say(1, TRANSFER_CANCEL, T_COMPLETE_WRONG_PHASE),
            Say(1, GET, SUCCEEDED),
        ],
    ),
    (
        Way::Asked,
        &[
            Say(1, TRANSFER_CANCEL, T_COMPLETE_WRONG_PHASE),
            Say(1, GET, APPLYING),
        ],
    ),
];

/// BLOB Block and BLOB Chunk messages: the way to a phase, then what comes, with the answers.
pub(super) const BLOCK_ROWS: [(Way, &[Move]); 39] = [
    (Way::Chunks, &[Say(0, BLOCK_START, B_ALL)]),
    (
        Way::Chunks,
        &[
            Say(0, BLOCK_START_9, B_WRONG_PHASE_9),
            Say(0, BLOCK_GET, B_ALL),
        ],
    ),
    (Way::Blocks, &[Say(0, BLOCK_START_PAST, B_PAST)]),
    (Way::Blocks, &[Say(0, BLOCK_START_7, B_7)]),
    (Way::Blocks, &[Say(0, BLOCK_START_377, B_377)]),
    (
        Way::Blocks,
        &[Say(0, BLOCK_START, B_ALL), Say(0, TRANSFER_GET, T_CHUNK)],
    ),
    (Way::New, &[Say(0, BLOCK_START, B_WRONG_PHASE)]),
    (Way::Ready, &[Say(0, BLOCK_START, B_WRONG_PHASE)]),
    (Way::Late, &[Say(10000, BLOCK_START, B_WRONG_PHASE)]),
    (Way::Stopped, &[Say(10000, BLOCK_START, B_WRONG_PHASE)]),
    (Way::TakenUp, &[Say(10000, BLOCK_START, B_WRONG_PHASE)]),
    (Way::Full, &[Say(0, BLOCK_START, B_WRONG_PHASE)]),
    (Way::Whole, &[Say(1, BLOCK_START, B_WRONG_PHASE)]),
    (Way::Unfit, &[Say(1, BLOCK_START, B_WRONG_PHASE)]),
    (Way::Asked, &[Say(1, BLOCK_START, B_WRONG_PHASE)]),
    (Way::Chunks, &[Say(0, BLOCK_GET, B_ALL)]),
    (Way::Blocks, &[Say(0, BLOCK_GET, B_NONE)]),
    (Way::Full, &[Say(0, BLOCK_GET, B_HELD)]),
    (Way::Whole, &[Say(1, BLOCK_GET, B_HELD)]),
    (Way::Asked, &[Say(1, BLOCK_GET, B_HELD)]),
    (Way::New, &[Say(0, BLOCK_GET, B_NONE)]),
    (Way::Ready, &[Say(0, BLOCK_GET, B_NONE)]),
    (Way::Late, &[Say(10000, BLOCK_GET, B_NONE)]),
    (Way::Stopped, &[Say(10000, BLOCK_GET, B_NONE)]),
    (Way::TakenUp, &[Say(10000, BLOCK_GET, B_NONE)]),
    (Way::Unfit, &[Say(1, BLOCK_GET, B_NONE)]),
    (
        Way::Chunks,
        &[Say(0, CHUNK_PAST, NOTHING), Say(0, BLOCK_GET, B_ALL)],
    ),
    (
        Way::Chunks,
        &[Say(0, CHUNK_SHORT, NOTHING), Say(0, BLOCK_GET, B_ALL)],
    ),
    (
        Way::Chunks,
        &[
            Say(0, CHUNK, NOTHING),
            Say(0, BLOCK_GET, B_HELD),
            Say(0, GET, VERIFYING),
        ],
    ),
    (
        Way::Pulled,
        &[Say(0, CHUNK, P_EMPTY), Say(0, GET, VERIFYING)],
    ),
    (Way::New, &[Say(0, CHUNK, NOTHING), Say(0, GET, IDLE)]),
    (Way::Ready, &[Say(0, CHUNK, NOTHING), Say(0, GET, ACTIVE)]),
    (
        Way::Late,
        &[Say(10000, CHUNK, NOTHING), Say(10000, GET, ERROR)],
    ),
    (Way::Blocks, &[Say(0, CHUNK, NOTHING), Say(0, GET, ACTIVE)]),
    (
        Way::Stopped,
        &[Say(10000, CHUNK, NOTHING), Say(10000, GET, ERROR)],
    ),
    (Way::Full, &[Say(0, CHUNK, NOTHING), Say(0, GET, VERIFYING)]),
    (
        Way::Whole,
        &[Say(1, CHUNK, NOTHING), Say(1, GET, SUCCEEDED)],
    ),
    (Way::Unfit, &[Say(1, CHUNK, NOTHING), Say(1, GET, FAILED)]),
    (Way::Asked, &[Say(1, CHUNK, NOTHING), Say(1, GET, APPLYING)]),
];

/// What a server hears before its timeout, and what time does: the way to a phase, then what comes, with the answers.
pub(super) const HEARD_ROWS: [(Way, &[Move]); 36] = [
    (
        Way::Ready,
        &[
            Say(9999, START, ACTIVE),
            Time(10000, NOTHING),
            Say(10000, GET, ACTIVE),
        ],
    ),
    (
        Way::Ready,
        &[
            Say(9999, START_LONGER, ACTIVE_WRONG_PHASE),
            Time(10000, NOTHING),
            Say(10000, GET, ERROR),
        ],
    ),
    (
        Way::Ready,
        &[
            Say(9999, GET, ACTIVE),
            Time(10000, NOTHING),
            Say(10000, GET, ERROR),
        ],
    ),
    (
        Way::Ready,
        &[
            Say(9999, CHECK, CHECKED),
            Time(10000, NOTHING),
            Say(10000, GET, ERROR),
        ],
    ),
    (
        Way::Ready,
        &[
            Say(9999, TRANSFER_START, T_BLOCK),
            Time(10000, NOTHING),
            Say(10000, GET, ACTIVE),
        ],
    ),
    (
        Way::Ready,
        &[
            Say(9999, TRANSFER_START_OTHER, T_WAITING_OTHER),
            Time(10000, NOTHING),
            Say(10000, GET, ERROR),
        ],
    ),
    (
        Way::Ready,
        &[
            Say(9999, TRANSFER_START_SIZE, T_WAITING_SIZE),
            Time(10000, NOTHING),
            Say(10000, GET, ERROR),
        ],
    ),
    (
        Way::Ready,
        &[
            Say(9999, TRANSFER_CANCEL_OTHER, T_WAITING_OTHER),
            Time(10000, NOTHING),
            Say(10000, GET, ERROR),
        ],
    ),
    (
        Way::Ready,
        &[
            Say(9999, BLOCK_START, B_WRONG_PHASE),
            Time(10000, NOTHING),
            Say(10000, GET, ERROR),
        ],
    ),
    (
        Way::Ready,
        &[
            Say(9999, CHUNK, NOTHING),
            Time(10000, NOTHING),
            Say(10000, GET, ERROR),
        ],
    ),
    (
        Way::Ready,
        &[
            Say(9999, APPLY, ACTIVE_WRONG_PHASE),
            Time(10000, NOTHING),
            Say(10000, GET, ERROR),
        ],
    ),
    (
        Way::Blocks,
        &[
            Say(9999, TRANSFER_GET, T_BLOCK),
            Time(10000, NOTHING),
            Say(10000, GET, ERROR),
        ],
    ),
    (
        Way::Blocks,
        &[
            Say(9999, TRANSFER_START, T_BLOCK),
            Time(10000, NOTHING),
            Say(10000, GET, ACTIVE),
        ],
    ),
    (
        Way::Blocks,
        &[
            Say(9999, TRANSFER_START_MTU, T_BLOCK_WRONG_PHASE),
            Time(10000, NOTHING),
            Say(10000, GET, ERROR),
        ],
    ),
    (
        Way::Blocks,
        &[
            Say(9999, BLOCK_START, B_ALL),
            Time(10000, NOTHING),
            Say(10000, GET, ACTIVE),
        ],
    ),
    (
        Way::Blocks,
        &[
            Say(9999, BLOCK_START_PAST, B_PAST),
            Time(10000, NOTHING),
            Say(10000, GET, ERROR),
        ],
    ),
    (
        Way::Blocks,
        &[
            Say(9999, BLOCK_START_7, B_7),
            Time(10000, NOTHING),
            Say(10000, GET, ERROR),
        ],
    ),
    (
        Way::Blocks,
        &[
            Say(9999, BLOCK_GET, B_NONE),
            Time(10000, NOTHING),
            Say(10000, GET, ERROR),
        ],
    ),
    (
        Way::Chunks,
        &[
            Say(9999, TRANSFER_START, T_CHUNK),
            Time(10000, NOTHING),
            Say(10000, GET, ACTIVE),
        ],
    ),
    (
        Way::Chunks,
        &[
            Say(9999, TRANSFER_START_OTHER, T_CHUNK_OTHER),
            Time(10000, NOTHING),
            Say(10000, GET, ERROR),
        ],
    ),
    (
        Way::Chunks,
        &[
            Say(9999, BLOCK_START, B_ALL),
            Time(10000, NOTHING),
            Say(10000, GET, ACTIVE),
        ],
    ),
    (
        Way::Chunks,
        &[
            Say(9999, BLOCK_START_9, B_WRONG_PHASE_9),
            Time(10000, NOTHING),
            Say(10000, GET, ERROR),
        ],
    ),
    (
        Way::Chunks,
        &[
            Say(9999, BLOCK_GET, B_ALL),
            Time(10000, NOTHING),
            Say(10000, GET, ACTIVE),
        ],
    ),
    (
        Way::Chunks,
        &[
            Say(9999, CHUNK_PAST, NOTHING),
            Time(10000, NOTHING),
            Say(10000, GET, ERROR),
        ],
    ),
    (
        Way::Chunks,
        &[
            Say(9999, CHUNK_SHORT, NOTHING),
            Time(10000, NOTHING),
            Say(10000, GET, ERROR),
        ],
    ),
    (Way::New, &[Time(100000, NOTHING), Say(100000, GET, IDLE)]),
    (Way::Late, &[Time(100000, NOTHING), Say(100000, GET, ERROR)]),
    (
        Way::Stopped,
        &[Time(100000, NOTHING), Say(100000, GET, ERROR)],
    ),
    (
        Way::Whole,
        &[Time(100000, NOTHING), Say(100000, GET, SUCCEEDED)],
    ),
    (
        Way::Unfit,
        &[Time(100000, NOTHING), Say(100000, GET, FAILED)],
    ),
    (Way::Ready, &[Time(9999, NOTHING), Say(9999, GET, ACTIVE)]),
    (
        Way::Chunks,
        &[Time(10000, NOTHING), Say(10000, TRANSFER_GET, T_SUSPENDED)],
    ),
    (Way::Full, &[Time(1, NOTHING), Say(1, GET, SUCCEEDED)]),
    (Way::Asked, &[Time(2, NOTHING), Say(2, GET, IDLE)]),
    (
        Way::Pulled,
        &[
            Time(1, P_FIRST),
            Time(1000, NOTHING),
            Time(1001, P_FIRST),
            Say(1002, BLOCK_START, B_ALL),
            Time(2000, NOTHING),
        ],
    ),
    (Way::Blocks, &[Time(1, NOTHING), Say(1, GET, ACTIVE)]),
];
