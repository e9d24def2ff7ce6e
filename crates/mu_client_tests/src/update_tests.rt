use crate::answers::{FIRST, META, ROUND, SECOND, update_status};
use crate::updating::{Update, at_step};
use arrayvec::ArrayVec;
use mu_distmsg::ReceiverRow;
use mu_image::{Meta, fwid_of};
use mu_updcli::{Dropped, Stage};
use mu_updmsg::{Entry, UpdMsg};
use std::process::Abort;

// The row of receiver `i`: its phase and its progress.
fn row_of(rt: &impl Abort, update: &Update, i: u8) -> (u8, u8) {
    let row = update.row(rt, i);
    (row.phase, row.progress)
}

// The first receiver shows one image with this index and version.
fn show(rt: &impl Abort, update: &mut Update, first: u8, version: u32) {
    let id = fwid_of(0xFFFF, &Meta { version, ..META });
    let mut entries = ArrayVec::new();
    entries.push(Entry {
        id: id.as_slice(),
        uri: &[],
    });
    let message = UpdMsg::InformationStatus {
        count: 2,
        first,
        entries,
    };
    update.tell(rt, FIRST, &message, 3);
}

#[test]
fn a_check_that_nobody_answers_ends_after_five_rounds(rt: HostRuntime) {
    let mut update = Update::new(1);
    for round in 0..5 {
        assert_eq!(rt;
            update.sent(&rt, round * ROUND).as_slice(),
            [(FIRST, 0x0A, 0), (SECOND, 0x0A, 0)].as_slice()
        );
        assert!(rt; update.sent(&rt, round * ROUND + ROUND - 1).is_empty());
        assert_eq!(rt; update.cause(&rt, 1), None);
    }
    assert!(rt; update.sent(&rt, 5 * ROUND).is_empty());
    for i in 0..2 {
        assert_eq!(rt; update.cause(&rt, i), Some(Dropped::Silent(1)));
        assert_eq!(rt; row_of(&rt, &update, i), (10, 0));
    }
    assert!(rt; update.client.stage() == Stage::Ended);
}

#[test]
fn a_whole_update_ends_in_success(rt: HostRuntime) {
    let mut update = at_step(&rt, 1, 10, 1);
    assert!(rt; update.client.stage() == Stage::Applying);
    // Another index and another image don't count.
    show(&rt, &mut update, 1, 2);
    show(&rt, &mut update, 0, 3);
    assert_eq!(rt; row_of(&rt, &update, 0), (6, 100));
    show(&rt, &mut update, 0, 2);
    assert_eq!(rt; row_of(&rt, &update, 0), (8, 100));
    // The second is asked until its rounds are over.
    for round in 1..5 {
        assert_eq!(rt;
            update.sent(&rt, 1 + round * ROUND).as_slice(),
            [(SECOND, 0x08, 0)].as_slice()
        );
    }
    assert!(rt; update.sent(&rt, 1 + 5 * ROUND).is_empty());
    assert_eq!(rt; update.cause(&rt, 0), None);
    assert_eq!(rt; update.cause(&rt, 1), Some(Dropped::Silent(10)));
    assert_eq!(rt; row_of(&rt, &update, 1), (9, 100));
    assert!(rt; update.client.stage() == Stage::Ended);
}

#[test]
fn a_row_takes_phases_of_its_transfer_that_are_no_lower(rt: HostRuntime) {
    let mut update = at_step(&rt, 1, 8, 1);
    // Its phase is 2 now. The phase that is told, the transfer, and the row's phase then.
    for (phase, id, want) in [(3, 8, 2), (3, 7, 3), (2, 7, 3), (4, 7, 4), (3, 7, 4)] {
        update.tell(&rt, FIRST, &update_status(0, phase, id), 2);
        assert_eq!(rt; row_of(&rt, &update, 0), (want, 100));
    }
}

fn row_at(address: u16, phase: u8) -> ReceiverRow {
    ReceiverRow {
        address,
        phase,
        update_status: 0,
        transfer_status: 0,
        progress: 40,
        image_index: 0,
    }
}

#[test]
fn a_client_goes_on_at_each_stage(rt: HostRuntime) {
    let rows = [row_at(FIRST, 4), row_at(SECOND, 7)];
    // The stage, and what the first time event sends.
    let cases: [(Stage, &[(u16, u8, u16)]); 5] = [
        (Stage::Transfer, &[(FIRST, 0x0A, 0)]),
        (Stage::Verified, &[]),
        (Stage::Applying, &[(FIRST, 0x0F, 0)]),
        (Stage::Canceling, &[(SECOND, 0x0E, 0)]),
        (Stage::Ended, &[]),
    ];
    for (stage, want) in cases {
        let mut update = Update::resumed(&rows, stage);
        assert!(rt; update.client.stage() == stage);
        assert_eq!(rt; row_of(&rt, &update, 0), (4, 40));
        assert_eq!(rt; update.sent(&rt, 1).as_slice(), want);
    }
}

#[test]
fn applying_waits_for_a_time_event(rt: HostRuntime) {
    let mut update = Update::resumed(&[row_at(FIRST, 4)], Stage::Verified);
    assert!(rt; update.sent(&rt, 0).is_empty());
    assert!(rt; update.client.stage() == Stage::Verified);
    update.client.take_apply();
    assert!(rt; update.client.stage() == Stage::Applying);
    assert_eq!(rt;
        update.sent(&rt, 1).as_slice(),
        [(FIRST, 0x0F, 0)].as_slice()
    );
}

#[test]
fn cancelling_waits_for_a_time_event(rt: HostRuntime) {
    let mut update = Update::resumed(&[row_at(FIRST, 4)], Stage::Verified);
    assert!(rt; update.client.stage() == Stage::Verified);
    update.client.take_cancel();
    assert!(rt; update.client.stage() == Stage::Canceling);
    assert_eq!(rt; row_of(&rt, &update, 0), (7, 40));
    assert_eq!(rt;
        update.sent(&rt, 1).as_slice(),
        [(FIRST, 0x0E, 0)].as_slice()
    );
    update.tell(&rt, FIRST, &update_status(0, 2, 8), 2);
    assert!(rt; update.sent(&rt, 3).is_empty());
    assert!(rt; update.client.stage() == Stage::Ended);
}
