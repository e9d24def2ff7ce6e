use mu_codec::{Packet, Payload};
use mu_world::Lines;
use std::test::Fail;

#[test]
fn lines_are_written_in_order(rt: HostRuntime) -> Result<(), Fail> {
    let mut lines = Lines::new(rt.alloc());
    assert_eq!(rt; lines.bytes(), b"".as_slice());
    let mut payload = Payload::new();
    assert!(rt;
        payload
            .try_extend_from_slice(&[0x83, 0x08, 0x00, 0x01])
            .is_ok()
    );
    let packet = Packet {
        from: 1,
        to: 0xC0FE,
        payload,
    };
    lines.sent(0, &packet)?;
    lines.sent(4294967295, &packet)?;
    lines.unread(10, 0x00A2)?;
    assert_eq!(rt;
        lines.bytes(),
        b"sent 0 0001 c0fe 83080001\nsent 4294967295 0001 c0fe 83080001\nunread 10 00a2\n".as_slice()
    );
    lines.clear();
    let mut digest = [0; 32];
    digest[0] = 0xCA;
    digest[31] = 0xBB;
    lines.active(2, 1, 1048576, &digest)?;
    assert_eq!(rt;
        lines.bytes(),
        b"active 0002 1 1048576 ca000000000000000000000000000000000000000000000000000000000000bb\n".as_slice()
    );
    lines.clear();
    lines.phase(0x00A2, 3, 4)?;
    lines.boot(0x7FFF, 4294967295, 256)?;
    assert_eq!(rt;
        lines.bytes(),
        b"phase 00a2 3 4\nboot 7fff 4294967295 256\n".as_slice()
    );
    Ok(())
}
