use mu_distributor_kept::{ReceiverRow, UploadPhase, has_address};

// A receiver whose other fields are 7.
fn row(address: u16) -> ReceiverRow {
    ReceiverRow {
        address,
        phase: 7,
        update_status: 7,
        transfer_status: 7,
        progress: 7,
        image_index: 7,
    }
}

#[test]
fn phases_of_uploads_have_their_numbers(rt: HostRuntime) {
    let phases = [
        UploadPhase::Idle,
        UploadPhase::TransferActive,
        UploadPhase::TransferError,
        UploadPhase::TransferSuccess,
    ];
    assert_eq!(rt; phases.map(UploadPhase::number), [0, 1, 2, 3]);
}

#[test]
fn an_address_is_found_where_it_stands(rt: HostRuntime) {
    let rows = [row(1), row(0x0102), row(0x7FFF)];
    let found = [1, 0x0102, 0x7FFF, 2, 7, 0x0101, 0x7FFE].map(|a| has_address(&rows, a));
    assert_eq!(rt; found, [true, true, true, false, false, false, false]);
    assert!(rt; !has_address(&[], 1));
}
