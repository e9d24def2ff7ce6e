use arrayvec::ArrayVec;
use mu_codec::{Refusal, Why};
use mu_updmsg::{Entry, UpdMsg, in_range, read, write};

fn refusal<'a>(at: u16, why: Why) -> Result<UpdMsg<'a>, Refusal> {
    Err(Refusal { at, why })
}

#[test]
fn each_row_is_read_and_written(rt: HostRuntime) {
    let mut entries = ArrayVec::new();
    entries.push(Entry {
        id: b"\xFF\xFFv1",
        uri: b"",
    });
    entries.push(Entry {
        id: b"ab",
        uri: b"u:x",
    });
    let status = UpdMsg::UpdateStatus {
        status: 2,
        phase: 6,
        ttl: Some(7),
        additional: Some(31),
        base: Some(0x0102),
        id: Some(0x0807_0605_0403_0201),
        index: Some(9),
    };
    let idle = UpdMsg::UpdateStatus {
        status: 7,
        phase: 0,
        ttl: None,
        additional: None,
        base: None,
        id: None,
        index: None,
    };
    for (octets, message) in [
        (
            b"\x83\x08\x01\xFF".as_slice(),
            UpdMsg::InformationGet {
                first: 1,
                limit: 255,
            },
        ),
        (
            b"\x83\x09\x02\x00\x04\xFF\xFFv1\x00\x02ab\x03u:x",
            UpdMsg::InformationStatus {
                count: 2,
                first: 0,
                entries,
            },
        ),
        (
            b"\x83\x0A\x00",
            UpdMsg::MetadataCheck {
                index: 0,
                metadata: b"",
            },
        ),
        (
            b"\x83\x0B\xFA\x05",
            UpdMsg::MetadataStatus {
                status: 2,
                additional: 31,
                index: 5,
            },
        ),
        (b"\x83\x0C", UpdMsg::UpdateGet),
        (
            b"\x83\x0D\x07\x02\x01\x01\x02\x03\x04\x05\x06\x07\x08\x00\xAA",
            UpdMsg::UpdateStart {
                ttl: 7,
                base: 0x0102,
                id: 0x0807_0605_0403_0201,
                index: 0,
                metadata: b"\xAA",
            },
        ),
        (b"\x83\x0E", UpdMsg::UpdateCancel),
        (b"\x83\x0F", UpdMsg::UpdateApply),
        (
            b"\x83\x10\xC2\x07\x1F\x02\x01\x01\x02\x03\x04\x05\x06\x07\x08\x09",
            status,
        ),
        (b"\x83\x10\x07", idle),
    ] {
        assert_eq!(rt; read(octets), Ok(message), "at {octets:?}");
        let again = read(octets);
        let Ok(message) = again else {
            continue;
        };
        assert!(rt; in_range(&message));
        assert_eq!(rt; write(&message).as_slice(), octets);
    }
}

#[test]
fn unused_bits_are_not_looked_at(rt: HostRuntime) {
    let set = b"\x83\x10\x38\x07\xFF\x02\x01\x01\x02\x03\x04\x05\x06\x07\x08\x09";
    let clear = b"\x83\x10\x20\x07\x1F\x02\x01\x01\x02\x03\x04\x05\x06\x07\x08\x09";
    assert_eq!(rt; read(set), read(clear));
}

#[test]
fn the_first_wrong_field_is_refused(rt: HostRuntime) {
    for (octets, want) in [
        (b"".as_slice(), refusal(0, Why::Short)),
        (b"\x83", refusal(0, Why::Short)),
        (b"\x83\x07", refusal(0, Why::Opcode)),
        (b"\x08", refusal(0, Why::Opcode)),
        (b"\x83\x08\x00", refusal(3, Why::Short)),
        (b"\x83\x08\x00\x00\x00", refusal(4, Why::Long)),
        (b"\x83\x09\x01\x00\x01a", refusal(4, Why::Value)),
        (b"\x83\x09\x01\x00\x6D", refusal(4, Why::Value)),
        (b"\x83\x09\x01\x00\x02a", refusal(5, Why::Short)),
        (b"\x83\x09\x01\x00\x02ab", refusal(7, Why::Short)),
        (b"\x83\x09\x01\x00\x02ab\x01", refusal(8, Why::Short)),
        (b"\x83\x0B\x00", refusal(3, Why::Short)),
        (b"\x83\x0C\x00", refusal(2, Why::Long)),
        (b"\x83\x10\xE0", refusal(2, Why::Value)),
        (b"\x83\x10\x20\x07\x00\x00", refusal(5, Why::Short)),
        (b"\x83\x10\x00\x07", refusal(3, Why::Long)),
        ([0x83; 381].as_slice(), refusal(380, Why::Long)),
    ] {
        assert_eq!(rt; read(octets), want, "at {octets:?}");
    }
    let mut check = [0; 259];
    check[0] = 0x83;
    check[1] = 0x0A;
    assert_eq!(rt; read(&check), refusal(258, Why::Long));
}

#[test]
fn what_has_no_octets_is_out_of_range(rt: HostRuntime) {
    let mut entries = ArrayVec::new();
    entries.push(Entry { id: b"a", uri: b"" });
    assert!(rt;
        !in_range(&UpdMsg::InformationStatus {
            count: 1,
            first: 0,
            entries
        })
    );
    assert!(rt;
        !in_range(&UpdMsg::MetadataCheck {
            index: 0,
            metadata: &[0; 256]
        })
    );
    assert!(rt;
        !in_range(&UpdMsg::MetadataStatus {
            status: 8,
            additional: 0,
            index: 0
        })
    );
    assert!(rt;
        !in_range(&UpdMsg::UpdateStatus {
            status: 0,
            phase: 1,
            ttl: None,
            additional: None,
            base: None,
            id: None,
            index: None,
        })
    );
}
