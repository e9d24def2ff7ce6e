use arrayvec::ArrayVec;
use mu_blobmsg::{BlobMsg, in_range, read, write};
use mu_codec::{Refusal, Why};
use mu_report::Report;

fn refusal<'a>(at: u16, why: Why) -> Result<BlobMsg<'a>, Refusal> {
    Err(Refusal { at, why })
}

fn block_status<'a>(status: u8, report: Report) -> BlobMsg<'a> {
    BlobMsg::BlockStatus {
        status,
        block: 0x0201,
        chunk_size: 0x0403,
        report,
    }
}

fn idle<'a>() -> BlobMsg<'a> {
    BlobMsg::TransferStatus {
        status: 0,
        mode: 0,
        phase: 0,
        id: None,
        size: None,
        log: None,
        mtu: None,
        blocks: None,
    }
}

#[test]
fn each_row_is_read_and_written(rt: HostRuntime) {
    let id = 0x0807_0605_0403_0201;
    let mut bits = ArrayVec::new();
    bits.push(0xFE);
    let mut listed = ArrayVec::new();
    listed.push(0x7F);
    listed.push(0x80);
    let mut missing = ArrayVec::new();
    missing.push(0x800);
    let waiting = BlobMsg::TransferStatus {
        status: 10,
        mode: 1,
        phase: 1,
        id: Some(id),
        size: None,
        log: None,
        mtu: None,
        blocks: None,
    };
    let running = BlobMsg::TransferStatus {
        status: 0,
        mode: 2,
        phase: 3,
        id: Some(id),
        size: Some(1),
        log: Some(32),
        mtu: Some(20),
        blocks: Some(b"\x05"),
    };
    let information = BlobMsg::BlobInformationStatus {
        min_log: 6,
        max_log: 32,
        max_chunks: 0x0201,
        max_chunk_size: 0x0403,
        max_size: 0x0807_0605,
        mtu: 0x0A09,
        push: 1,
        pull: 1,
    };
    for (octets, message) in [
        (b"\x83\x00".as_slice(), BlobMsg::TransferGet),
        (
            b"\x83\x01\x80\x01\x02\x03\x04\x05\x06\x07\x08\x01\x00\x00\x00\x06\x14\x00",
            BlobMsg::TransferStart {
                mode: 2,
                id,
                size: 1,
                log: 6,
                mtu: 20,
            },
        ),
        (
            b"\x83\x02\x01\x02\x03\x04\x05\x06\x07\x08",
            BlobMsg::TransferCancel { id },
        ),
        (b"\x83\x03\x00\x00", idle()),
        (b"\x83\x03\x4A\x01\x01\x02\x03\x04\x05\x06\x07\x08", waiting),
        (
            b"\x83\x03\x80\x03\x01\x02\x03\x04\x05\x06\x07\x08\x01\x00\x00\x00\x20\x14\x00\x05",
            running,
        ),
        (
            b"\x83\x04\x01\x02\x03\x04",
            BlobMsg::BlockStart {
                block: 0x0201,
                chunk_size: 0x0403,
            },
        ),
        (b"\x83\x05", BlobMsg::BlockGet),
        (b"\x83\x06", BlobMsg::BlobInformationGet),
        (
            b"\x83\x07\x06\x20\x01\x02\x03\x04\x05\x06\x07\x08\x09\x0A\x03",
            information,
        ),
        (
            b"\x66\x01\x00\xAA",
            BlobMsg::ChunkTransfer {
                chunk: 1,
                octets: b"\xAA",
            },
        ),
        (b"\x67\x0A\x01\x02\x03\x04", block_status(10, Report::All)),
        (
            b"\x67\x40\x01\x02\x03\x04",
            block_status(0, Report::Nothing),
        ),
        (
            b"\x67\x80\x01\x02\x03\x04\xFE",
            block_status(0, Report::Bits(bits)),
        ),
        (
            b"\x67\xC0\x01\x02\x03\x04\x7F\xC2\x80",
            block_status(0, Report::List(listed)),
        ),
        (b"\x68\xE0\xA0\x80", BlobMsg::PartialBlockReport { missing }),
    ] {
        assert_eq!(rt; read(octets), Ok(message), "at {octets:?}");
        let Ok(message) = read(octets) else {
            continue;
        };
        assert!(rt; in_range(&message));
        assert_eq!(rt; write(&message).as_slice(), octets);
    }
}

#[test]
fn unused_bits_are_not_looked_at(rt: HostRuntime) {
    assert_eq!(rt;
        read(b"\x67\x70\x01\x02\x03\x04"),
        read(b"\x67\x40\x01\x02\x03\x04")
    );
    assert_eq!(rt; read(b"\x83\x03\x30\x00"), read(b"\x83\x03\x00\x00"));
}

#[test]
fn the_first_wrong_field_is_refused(rt: HostRuntime) {
    for (octets, want) in [
        (b"".as_slice(), refusal(0, Why::Short)),
        (b"\x83\x08", refusal(0, Why::Opcode)),
        (b"\x83\x01\x3F", refusal(2, Why::Value)),
        (b"\x83\x01\xC0", refusal(2, Why::Value)),
        (b"\x83\x01\x40\x01", refusal(3, Why::Short)),
        (
            b"\x83\x01\x40\x01\x02\x03\x04\x05\x06\x07\x08\x00\x00\x00\x00\x05\x13\x00",
            refusal(11, Why::Value),
        ),
        (
            b"\x83\x01\x40\x01\x02\x03\x04\x05\x06\x07\x08\x01\x00\x00\x00\x21\x13\x00",
            refusal(15, Why::Value),
        ),
        (
            b"\x83\x01\x40\x01\x02\x03\x04\x05\x06\x07\x08\x01\x00\x00\x00\x20\x13\x00",
            refusal(16, Why::Value),
        ),
        (b"\x83\x03\x0B", refusal(2, Why::Value)),
        (b"\x83\x03\x00\x06", refusal(3, Why::Value)),
        (b"\x83\x03\x00\x00\x00", refusal(4, Why::Long)),
        (b"\x83\x05\x00", refusal(2, Why::Long)),
        (b"\x66\x01\x00", refusal(3, Why::Short)),
        (b"\x67\x00\x01\x02\x03\x04\x00", refusal(6, Why::Long)),
        (b"\x67\xC0\x01\x02\x03\x04\x01\xC2", refusal(7, Why::Short)),
        (b"\x68\x01\xC1\x80", refusal(2, Why::Value)),
    ] {
        assert_eq!(rt; read(octets), want, "at {octets:?}");
    }
}

#[test]
fn what_has_no_octets_is_out_of_range(rt: HostRuntime) {
    assert!(rt;
        !in_range(&BlobMsg::TransferStart {
            mode: 0,
            id: 0,
            size: 1,
            log: 6,
            mtu: 20
        })
    );
    assert!(rt;
        !in_range(&BlobMsg::ChunkTransfer {
            chunk: 0,
            octets: b""
        })
    );
    assert!(rt; !in_range(&block_status(11, Report::All)));
    let mut numbers = ArrayVec::new();
    for _ in 0..125 {
        assert!(rt; numbers.len() < 374);
        numbers.push(0xFFFF);
    }
    assert!(rt; !in_range(&block_status(0, Report::List(numbers))));
}
