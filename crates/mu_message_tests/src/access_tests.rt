ghost use Rattle.std.specs.Prelude.{◌<◌, ◌≤◌, length};
ghost use Rattle.mu_codec.specs.View.{packet_of};
ghost use Rattle.mu_access.specs.Datagram.{CanTravel};

use mu_access::{
    Message, canonical, datagram, in_range, read, show, show_octets, undatagram, write,
};
use mu_blobmsg::BlobMsg;
use mu_codec::{Packet, Payload, Refusal, Why, put_octets};
use mu_distmsg::DistMsg;
use mu_outside::BytesSink;
use mu_updmsg::UpdMsg;
use std::alloc::AllocError;

fn refusal(at: u16, why: Why) -> Refusal {
    Refusal { at, why }
}

fn packet(octets: &[u8]) -> Packet
    requires some { 0 < length octets.now }
    requires most { length octets.now ≤ 380 }
    ensures { CanTravel (packet_of result) }
{
    let mut payload = Payload::new();
    put_octets(&mut payload, octets);
    Packet {
        from: 0x0102,
        to: 0xC0FE,
        payload,
    }
}

#[test]
fn messages_of_all_models_are_read_and_written(rt: HostRuntime) {
    for (octets, message) in [
        (
            b"\x83\x06".as_slice(),
            Message::Blob(BlobMsg::BlobInformationGet),
        ),
        (
            b"\x66\x01\x00\xAA",
            Message::Blob(BlobMsg::ChunkTransfer {
                chunk: 1,
                octets: b"\xAA",
            }),
        ),
        (
            b"\x83\x08\x01\x02",
            Message::Upd(UpdMsg::InformationGet { first: 1, limit: 2 }),
        ),
        (b"\x83\x0F", Message::Upd(UpdMsg::UpdateApply)),
        (b"\x83\x12", Message::Dist(DistMsg::ReceiversDeleteAll)),
        (b"\x83\x26", Message::Dist(DistMsg::FirmwareDeleteAll)),
    ] {
        assert_eq!(rt; read(octets), Ok(message), "at {octets:?}");
        let Ok(message) = read(octets) else {
            continue;
        };
        assert!(rt; in_range(&message));
        assert_eq!(rt; write(&message).as_slice(), octets);
        let Ok(again) = canonical(octets) else {
            continue;
        };
        assert_eq!(rt; again.as_slice(), octets);
    }
}

#[test]
fn messages_of_all_models_are_shown(rt: HostRuntime) -> Result<(), AllocError> {
    for (octets, line) in [
        (
            b"\x68\x00\xC2\x80".as_slice(),
            b"partial-block-report missing=0,128\n".as_slice(),
        ),
        (b"\x83\x0F", b"update-apply\n"),
        (b"\x83\x23\xAA\x0B", b"firmware-get fwid=aa0b\n"),
    ] {
        let mut sink = BytesSink::new(rt.alloc(), 40, &[])?;
        let message = read(octets);
        assert!(rt; message.is_ok());
        if let Ok(message) = message {
            assert_eq!(rt; show(&message, &mut sink), Ok(()));
        }
        assert_eq!(rt; sink.bytes(), line);
        let mut other = BytesSink::new(rt.alloc(), 40, &[])?;
        assert_eq!(rt; show_octets(octets, &mut other), Ok(Ok(())));
        assert_eq!(rt; other.bytes(), line);
    }
    Ok(())
}

#[test]
fn opcodes_in_no_row_are_refused(rt: HostRuntime) {
    for (octets, want) in [
        (b"".as_slice(), refusal(0, Why::Short)),
        (b"\x83", refusal(0, Why::Short)),
        (b"\xBF", refusal(0, Why::Short)),
        (b"\x7F", refusal(0, Why::Opcode)),
        (b"\xC0\x00", refusal(0, Why::Opcode)),
        (b"\x65", refusal(0, Why::Opcode)),
        (b"\x69", refusal(0, Why::Opcode)),
        (b"\x83\x28", refusal(0, Why::Opcode)),
        (b"\x82\xFF", refusal(0, Why::Opcode)),
        (b"\x84\x08", refusal(0, Why::Opcode)),
        (b"\x66\x00", refusal(1, Why::Short)),
        ([0x66; 381].as_slice(), refusal(380, Why::Long)),
    ] {
        assert_eq!(rt; read(octets), Err(want), "at {octets:?}");
        assert!(rt; canonical(octets).is_err(), "at {octets:?}");
    }
}

#[test]
fn datagrams_carry_packets(rt: HostRuntime) {
    let one = packet(b"\x83\x0C");
    let octets = datagram(&one);
    assert_eq!(rt;
        octets.as_slice(),
        b"MU\x01\x00\x02\x01\xFE\xC0\x83\x0C".as_slice()
    );
    assert_eq!(rt; undatagram(octets.as_slice()), Ok(one));
    let mut most = [0x66; 389];
    most[..8].copy_from_slice(b"MU\x01\x00\x02\x01\xFE\xC0");
    assert_eq!(rt; undatagram(&most[..388]), Ok(packet(&[0x66; 380])));
    for (octets, want) in [
        (b"".as_slice(), refusal(0, Why::Short)),
        (b"NU", refusal(0, Why::Value)),
        (b"MV", refusal(1, Why::Value)),
        (b"MU\x02", refusal(2, Why::Value)),
        (b"MU\x01\x01", refusal(3, Why::Value)),
        (b"MU\x01", refusal(3, Why::Short)),
        (b"MU\x01\x00\x00", refusal(4, Why::Short)),
        (b"MU\x01\x00\x00\x80\x00", refusal(6, Why::Short)),
        (b"MU\x01\x00\x00\x00\x00\x00", refusal(4, Why::Value)),
        (b"MU\x01\x00\x00\x80\x01\x00\x01", refusal(4, Why::Value)),
        (b"MU\x01\x00\x01\x00\x00\x80\x01", refusal(6, Why::Value)),
        (b"MU\x01\x00\x01\x00\xFF\xBF", refusal(6, Why::Value)),
        (b"MU\x01\x00\x01\x00\x00\xC0", refusal(8, Why::Short)),
        (most.as_slice(), refusal(388, Why::Long)),
    ] {
        assert_eq!(rt; undatagram(octets), Err(want), "at {octets:?}");
    }
}
