use arrayvec::ArrayVec;
use mu_codec::{Refusal, Why};
use mu_distmsg::{DistMsg, ReceiverRow, in_range, read, write};

fn refusal<'a>(at: u16, why: Why) -> Result<DistMsg<'a>, Refusal> {
    Err(Refusal { at, why })
}

fn row(progress: u8) -> ReceiverRow {
    ReceiverRow {
        address: 0x0102,
        phase: 10,
        update_status: 5,
        transfer_status: 9,
        progress,
        image_index: 3,
    }
}

fn start<'a>(label: Option<[u8; 16]>, group: Option<u16>) -> DistMsg<'a> {
    DistMsg::DistributionStart {
        appkey: 0x0FFF,
        ttl: 7,
        base: 0x0102,
        mode: 2,
        policy: 1,
        image: 3,
        label,
        group,
    }
}

fn idle<'a>() -> DistMsg<'a> {
    DistMsg::DistributionStatus {
        status: 13,
        phase: 0,
        group: None,
        appkey: None,
        ttl: None,
        base: None,
        mode: None,
        policy: None,
        image: None,
    }
}

fn active<'a>() -> DistMsg<'a> {
    DistMsg::DistributionStatus {
        status: 0,
        phase: 7,
        group: Some(0x8000),
        appkey: Some(1),
        ttl: Some(2),
        base: Some(3),
        mode: Some(1),
        policy: Some(0),
        image: Some(4),
    }
}

#[test]
fn each_row_is_read_and_written(rt: HostRuntime) {
    let id = 0x0807_0605_0403_0201;
    let mut added = ArrayVec::new();
    added.push((0x7FFF, 9));
    let mut listed = ArrayVec::new();
    listed.push(row(100));
    let capabilities = DistMsg::CapabilitiesStatus {
        receivers: 1,
        images: 2,
        max_size: 3,
        space: 4,
        remaining: 5,
        oob: 1,
        schemes: b"\x17",
    };
    let uploading = DistMsg::UploadStatus {
        status: 1,
        phase: 1,
        progress: Some(100),
        kind: Some(1),
        fwid: Some(b"ab"),
    };
    let not_uploading = DistMsg::UploadStatus {
        status: 1,
        phase: 0,
        progress: None,
        kind: None,
        fwid: None,
    };
    for (octets, message) in [
        (
            b"\x83\x11\xFF\x7F\x09".as_slice(),
            DistMsg::ReceiversAdd { entries: added },
        ),
        (b"\x83\x12", DistMsg::ReceiversDeleteAll),
        (
            b"\x83\x13\x0D\x02\x01",
            DistMsg::ReceiversStatus {
                status: 13,
                count: 0x0102,
            },
        ),
        (
            b"\x83\x14\x01\x00\x02\x00",
            DistMsg::ReceiversGet { first: 1, limit: 2 },
        ),
        (
            b"\x83\x15\x01\x00\x00\x00\x02\x01\x6D\xCA\x03",
            DistMsg::ReceiversList {
                count: 1,
                first: 0,
                entries: listed,
            },
        ),
        (b"\x83\x16", DistMsg::CapabilitiesGet),
        (
            b"\x83\x17\x01\x00\x02\x00\x03\x00\x00\x00\x04\x00\x00\x00\x05\x00\x00\x00\x01\x17",
            capabilities,
        ),
        (b"\x83\x18", DistMsg::DistributionGet),
        (
            b"\x83\x19\xFF\x0F\x07\x02\x01\x06\x03\x00ABCDEFGHIJKLMNOP",
            start(Some(*b"ABCDEFGHIJKLMNOP"), None),
        ),
        (
            b"\x83\x19\xFF\x0F\x07\x02\x01\x06\x03\x00\x00\x00",
            start(None, Some(0)),
        ),
        (
            b"\x83\x19\xFF\x0F\x07\x02\x01\x06\x03\x00\x00\xC0",
            start(None, Some(0xC000)),
        ),
        (b"\x83\x1A", DistMsg::DistributionSuspend),
        (b"\x83\x1B", DistMsg::DistributionCancel),
        (b"\x83\x1C", DistMsg::DistributionApply),
        (b"\x83\x1D\x0D\x00", idle()),
        (
            b"\x83\x1D\x00\x07\x00\x80\x01\x00\x02\x03\x00\x01\x04\x00",
            active(),
        ),
        (b"\x83\x1E", DistMsg::UploadGet),
        (
            b"\x83\x1F\x07\x02\x01\x01\x02\x03\x04\x05\x06\x07\x08\x01\x00\x00\x00\x01mab",
            DistMsg::UploadStart {
                ttl: 7,
                base: 0x0102,
                id,
                size: 1,
                metadata: b"m",
                fwid: b"ab",
            },
        ),
        (
            b"\x83\x20\x03u:xab",
            DistMsg::UploadStartOob {
                uri: b"u:x",
                fwid: b"ab",
            },
        ),
        (b"\x83\x21", DistMsg::UploadCancel),
        (b"\x83\x22\x01\x01\xE4ab", uploading),
        (b"\x83\x22\x01\x00", not_uploading),
        (b"\x83\x23ab", DistMsg::FirmwareGet { fwid: b"ab" }),
        (
            b"\x83\x24\x02\x01",
            DistMsg::FirmwareGetByIndex { index: 0x0102 },
        ),
        (b"\x83\x25ab", DistMsg::FirmwareDelete { fwid: b"ab" }),
        (b"\x83\x26", DistMsg::FirmwareDeleteAll),
        (
            b"\x83\x27\x00\x02\x00\xFF\xFF",
            DistMsg::FirmwareStatus {
                status: 0,
                count: 2,
                index: 0xFFFF,
                fwid: None,
            },
        ),
        (
            b"\x83\x27\x04\x02\x00\x01\x00ab",
            DistMsg::FirmwareStatus {
                status: 4,
                count: 2,
                index: 1,
                fwid: Some(b"ab"),
            },
        ),
    ] {
        assert_eq!(rt; read(octets), Ok(message), "at {octets:?}");
        let Ok(message) = read(octets) else {
            continue;
        };
        assert!(rt; in_range(&message));
        assert_eq!(rt; write(&message).as_slice(), octets);
    }
}

#[test]
fn the_first_wrong_field_is_refused(rt: HostRuntime) {
    for (octets, want) in [
        (b"\x83\x10".as_slice(), refusal(0, Why::Opcode)),
        (b"\x83\x28", refusal(0, Why::Opcode)),
        (b"\x83\x11", refusal(2, Why::Short)),
        (b"\x83\x11\x00\x00\x00", refusal(2, Why::Value)),
        (b"\x83\x11\x01\x00\x00\x00\x80\x00", refusal(5, Why::Value)),
        (b"\x83\x11\x01\x00\x00\x01\x00", refusal(7, Why::Short)),
        (b"\x83\x13\x0E\x00\x00", refusal(2, Why::Value)),
        (
            b"\x83\x15\x00\x00\x00\x00\x00\x80\x00\x00\x00",
            refusal(6, Why::Value),
        ),
        (
            b"\x83\x15\x00\x00\x00\x00\x01\x00\x00\xCC\x00",
            refusal(6, Why::Value),
        ),
        (
            b"\x83\x15\x00\x00\x00\x00\x01\x00\x00\x00",
            refusal(6, Why::Short),
        ),
        (b"\x83\x19\x00\x10", refusal(2, Why::Value)),
        (
            b"\x83\x19\x00\x00\x07\x02\x01\x03\x03\x00\x00\x00",
            refusal(7, Why::Value),
        ),
        (
            b"\x83\x19\x00\x00\x07\x02\x01\x01\x03\x00\xFF\xBF",
            refusal(10, Why::Value),
        ),
        (
            b"\x83\x19\x00\x00\x07\x02\x01\x01\x03\x00ABCDEFGHIJKLMNO",
            refusal(10, Why::Value),
        ),
        (
            b"\x83\x19\x00\x00\x07\x02\x01\x01\x03\x00\x00\xC0CDEFGHIJKLMNO",
            refusal(12, Why::Long),
        ),
        (
            b"\x83\x19\x00\x00\x07\x02\x01\x01\x03\x00ABCDEFGHIJKLMNOPQ",
            refusal(26, Why::Long),
        ),
        (b"\x83\x1D\x00\x01\xFF\x7F", refusal(4, Why::Value)),
        (b"\x83\x20\x03u:", refusal(3, Why::Short)),
        (b"\x83\x22\x01\x01\x65ab", refusal(4, Why::Value)),
        (b"\x83\x23a", refusal(2, Why::Short)),
        (b"\x83\x27\x00\x00\x00\x00\x00a", refusal(7, Why::Short)),
        ([0x83; 381].as_slice(), refusal(380, Why::Long)),
    ] {
        assert_eq!(rt; read(octets), want, "at {octets:?}");
    }
    let mut get = [0; 111];
    get[0] = 0x83;
    get[1] = 0x23;
    assert_eq!(rt; read(&get), refusal(110, Why::Long));
}

#[test]
fn what_has_no_octets_is_out_of_range(rt: HostRuntime) {
    let mut listed = ArrayVec::new();
    listed.push(row(99));
    let odd = DistMsg::ReceiversList {
        count: 1,
        first: 0,
        entries: listed,
    };
    assert!(rt; !in_range(&odd));
    assert!(rt;
        !in_range(&DistMsg::ReceiversAdd {
            entries: ArrayVec::new()
        })
    );
    assert!(rt; !in_range(&start(None, None)));
    assert!(rt; !in_range(&start(Some([0; 16]), Some(0))));
    assert!(rt; !in_range(&start(None, Some(0xBFFF))));
    for (metadata, want) in [(254, true), (255, false)] {
        let long = DistMsg::UploadStart {
            ttl: 0,
            base: 0,
            id: 0,
            size: 1,
            metadata: &[0; 255][..metadata],
            fwid: &[0; 108],
        };
        assert_eq!(rt; in_range(&long), want);
    }
}
