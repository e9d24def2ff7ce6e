// Whom a client drops, and the row that it gives.
use crate::answers::{FIRST, ROUND, SECOND, block_status, information, update_status};
use crate::updating::{Update, answer, at_step};
use mu_report::Report;
use mu_updcli::Dropped;
use std::process::Abort;

// How the first receiver meets a step.
#[derive(Clone, Copy)]
enum Meets {
    Silently,
    Status(u8),
    // Its greatest size, log and number of chunks, its mtu, and whether it takes push.
    Limits(u32, u8, u16, u16, u8),
    Fruitlessly,
    Phase(u8),
}

// A row: its phase, its update status and its transfer status, and its progress.
type Row = (u8, u8, u8, u8);

// The mode and the step; how it is met; why the receiver is dropped, and its row.
type Case = (u8, u8, Meets, Option<Dropped>, Row);

const CASES: &[Case] = &[
    (
        1,
        1,
        Meets::Silently,
        Some(Dropped::Silent(1)),
        (10, 0, 0, 0),
    ),
    (
        1,
        2,
        Meets::Silently,
        Some(Dropped::Silent(2)),
        (10, 0, 0, 0),
    ),
    (
        1,
        3,
        Meets::Silently,
        Some(Dropped::Silent(3)),
        (2, 0, 0, 0),
    ),
    (
        1,
        4,
        Meets::Silently,
        Some(Dropped::Silent(4)),
        (2, 0, 0, 0),
    ),
    (
        1,
        5,
        Meets::Silently,
        Some(Dropped::Silent(5)),
        (2, 0, 0, 0),
    ),
    (
        2,
        6,
        Meets::Silently,
        Some(Dropped::Silent(6)),
        (2, 0, 0, 0),
    ),
    (
        1,
        7,
        Meets::Silently,
        Some(Dropped::Silent(7)),
        (2, 0, 0, 0),
    ),
    (
        1,
        8,
        Meets::Silently,
        Some(Dropped::Silent(8)),
        (2, 0, 0, 100),
    ),
    (1, 9, Meets::Silently, None, (4, 0, 0, 100)),
    (
        1,
        10,
        Meets::Silently,
        Some(Dropped::Silent(10)),
        (9, 0, 0, 100),
    ),
    (1, 11, Meets::Silently, None, (7, 0, 0, 0)),
    (
        1,
        3,
        Meets::Limits(4095, 12, 16, 380, 1),
        Some(Dropped::Status(3, 7)),
        (2, 0, 7, 0),
    ),
    (
        1,
        3,
        Meets::Limits(4096, 11, 16, 380, 1),
        Some(Dropped::Status(3, 2)),
        (2, 0, 2, 0),
    ),
    (
        1,
        3,
        Meets::Limits(4096, 12, 15, 380, 1),
        Some(Dropped::Status(3, 3)),
        (2, 0, 3, 0),
    ),
    (
        1,
        3,
        Meets::Limits(4096, 12, 16, 259, 1),
        Some(Dropped::Status(3, 3)),
        (2, 0, 3, 0),
    ),
    (
        1,
        3,
        Meets::Limits(4096, 12, 16, 3, 1),
        Some(Dropped::Status(3, 3)),
        (2, 0, 3, 0),
    ),
    (
        1,
        3,
        Meets::Limits(4096, 12, 16, 380, 0),
        Some(Dropped::Status(3, 8)),
        (2, 0, 8, 0),
    ),
    (
        1,
        3,
        Meets::Limits(4096, 12, 16, 260, 1),
        None,
        (2, 0, 0, 0),
    ),
    (
        2,
        3,
        Meets::Limits(4096, 12, 16, 380, 0),
        None,
        (2, 0, 0, 0),
    ),
    (
        1,
        7,
        Meets::Fruitlessly,
        Some(Dropped::Barren),
        (2, 0, 0, 0),
    ),
    (
        1,
        8,
        Meets::Phase(1),
        Some(Dropped::Phase(1)),
        (1, 0, 0, 100),
    ),
    (
        1,
        8,
        Meets::Phase(5),
        Some(Dropped::Phase(5)),
        (5, 0, 0, 100),
    ),
    (1, 8, Meets::Phase(3), None, (3, 0, 0, 100)),
    (1, 8, Meets::Phase(4), None, (4, 0, 0, 100)),
];

// The mode and the step; the greatest status; whether it is the row's update status; the row's phase and its progress.
const STEPS: &[(u8, u8, u8, bool, u8, u8)] = &[
    (1, 1, 7, true, 10, 0),
    (1, 2, 7, true, 2, 0),
    (1, 4, 10, false, 2, 0),
    (1, 5, 10, false, 2, 0),
    (2, 6, 10, false, 2, 0),
    (1, 7, 10, false, 2, 0),
    (1, 9, 7, true, 6, 100),
];

// The first receiver: why it was dropped, and its row.
fn first_of(rt: &impl Abort, update: &Update) -> (Option<Dropped>, Row) {
    let row = update.row(rt, 0);
    (
        update.cause(rt, 0),
        (
            row.phase,
            row.update_status,
            row.transfer_status,
            row.progress,
        ),
    )
}

// Five rounds pass. Nobody is dropped before the last.
fn be_silent(rt: &impl Abort, update: &mut Update) {
    for round in 1..5 {
        update.sent(rt, 1 + round * ROUND);
        assert_eq!(rt; update.cause(rt, 0), None, "round {round}");
    }
    update.sent(rt, 1 + 5 * ROUND);
}

// Five times all of the block's chunks are missing after they were sent. Nobody is dropped before the last.
fn be_fruitless(rt: &impl Abort, update: &mut Update) {
    answer(rt, update, SECOND, 7, 0, 2);
    for _ in 0..4 {
        update.tell_blob(rt, FIRST, &block_status(0, 256, Report::All), 2);
        assert_eq!(rt; update.cause(rt, 0), None);
        update.sent(rt, 3);
        update.sent(rt, 3);
    }
    update.tell_blob(rt, FIRST, &block_status(0, 256, Report::All), 4);
}

fn meet(rt: &impl Abort, update: &mut Update, step: u8, how: Meets) {
    match how {
        Meets::Silently => be_silent(rt, update),
        Meets::Status(status) => answer(rt, update, FIRST, step, status, 2),
        Meets::Limits(size, log, chunks, mtu, push) => {
            let message = information(size, log, chunks, mtu, push);
            update.tell_blob(rt, FIRST, &message, 2);
        }
        Meets::Fruitlessly => be_fruitless(rt, update),
        Meets::Phase(phase) => update.tell(rt, FIRST, &update_status(0, phase, 7), 2),
    }
}

fn met(rt: &impl Abort, mode: u8, step: u8, how: Meets) -> (Option<Dropped>, Row) {
    let mut update = at_step(rt, mode, step, 1);
    meet(rt, &mut update, step, how);
    first_of(rt, &update)
}

#[test]
fn each_drop_has_its_cause_and_its_row(rt: HostRuntime) {
    for (mode, step, how, cause, row) in CASES {
        assert_eq!(rt; met(&rt, *mode, *step, *how), (*cause, *row), "step {step}");
    }
}

#[test]
fn each_status_drops_with_its_step(rt: HostRuntime) {
    for (mode, step, most, of_update, phase, progress) in STEPS {
        for status in 1..=*most {
            let row = if *of_update {
                (*phase, status, 0, *progress)
            } else {
                (*phase, 0, status, *progress)
            };
            let want = (Some(Dropped::Status(*step, status)), row);
            assert_eq!(rt;
                met(&rt, *mode, *step, Meets::Status(status)),
                want,
                "step {step}"
            );
        }
    }
}
