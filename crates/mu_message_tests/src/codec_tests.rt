use mu_codec::{
    Cursor, Outbox, Packet, Payload, Refusal, Why, put_octets, put_u8, put_u16, put_u32, put_u40,
    put_u64,
};
use std::test::Fail;

fn refusal(at: u16, why: Why) -> Refusal {
    Refusal { at, why }
}

#[test]
fn numbers_are_read_lowest_octet_first(rt: HostRuntime) {
    let octets = [
        1, 2, 3, 4, 5, 6, 7, 8, 9, 10, 11, 12, 13, 14, 15, 16, 17, 18, 19, 20,
    ];
    let mut cursor = Cursor::new(&octets);
    assert_eq!(rt; cursor.u8(), Ok(1));
    assert_eq!(rt; cursor.u16(), Ok(0x0302));
    assert_eq!(rt; cursor.u32(), Ok(0x0706_0504));
    assert_eq!(rt; cursor.u64(), Ok(0x0F0E_0D0C_0B0A_0908));
    assert_eq!(rt; cursor.place(), 15);
    assert_eq!(rt; cursor.left(), 5);
    assert_eq!(rt; cursor.end(), Err(refusal(15, Why::Long)));
    assert_eq!(rt; cursor.u40(), Ok(0x14_1312_1110));
    assert_eq!(rt; cursor.end(), Ok(()));
    assert_eq!(rt; cursor.u8(), Err(refusal(20, Why::Short)));
    assert_eq!(rt; cursor.left(), 0);
}

#[test]
fn what_lacks_is_refused_at_its_place(rt: HostRuntime) {
    let octets = [0x83, 0x09, 7];
    let mut cursor = Cursor::new(&octets);
    assert_eq!(rt; cursor.opcode(), Ok(0x8309));
    assert_eq!(rt; cursor.u16(), Err(refusal(2, Why::Short)));
    assert_eq!(rt; cursor.u32(), Err(refusal(2, Why::Short)));
    assert_eq!(rt; cursor.u64(), Err(refusal(2, Why::Short)));
    assert_eq!(rt; cursor.u40(), Err(refusal(2, Why::Short)));
    assert_eq!(rt; cursor.octets(2), Err(refusal(2, Why::Short)));
    assert_eq!(rt; cursor.sixteen(), Err(refusal(2, Why::Short)));
    assert_eq!(rt; cursor.u8_in(8, 9), Err(refusal(2, Why::Value)));
    assert_eq!(rt; cursor.counted(2, 108), Err(refusal(3, Why::Short)));
    assert_eq!(rt; cursor.counted(8, 108), Err(refusal(2, Why::Value)));
    assert_eq!(rt; cursor.rest(2, 108), Err(refusal(2, Why::Short)));
    assert_eq!(rt; cursor.rest(0, 0), Err(refusal(2, Why::Long)));
    assert_eq!(rt; cursor.refuse(Why::Value), refusal(2, Why::Value));
    assert_eq!(rt; cursor.u8_in(7, 7), Ok(7));
}

#[test]
fn ranges_and_parts_of_a_payload(rt: HostRuntime) {
    let octets = [
        0, 0, 0xFF, 0xBF, 0, 0xC0, 1, 0, 0, 0, 2, b'a', b'b', 9, 9, 9,
    ];
    let mut cursor = Cursor::new(&octets);
    assert_eq!(rt; cursor.u16_in(1, 0x7FFF), Err(refusal(0, Why::Value)));
    assert_eq!(rt; cursor.u16_zero_or(0xC000, 0xFFFF), Ok(0));
    assert_eq!(rt;
        cursor.u16_zero_or(0xC000, 0xFFFF),
        Err(refusal(2, Why::Value))
    );
    assert_eq!(rt; cursor.u16_in(0x8000, 0xBFFF), Ok(0xBFFF));
    assert_eq!(rt; cursor.u16_zero_or(0xC000, 0xFFFF), Ok(0xC000));
    assert_eq!(rt; cursor.u32_in(2, 3), Err(refusal(6, Why::Value)));
    assert_eq!(rt; cursor.u32_in(1, 1), Ok(1));
    assert_eq!(rt; cursor.counted(0, 255), Ok(b"ab".as_slice()));
    assert_eq!(rt; cursor.octets(1), Ok([9].as_slice()));
    assert_eq!(rt; cursor.rest(0, 2), Ok([9, 9].as_slice()));
    assert_eq!(rt; cursor.end(), Ok(()));
    let mut cursor = Cursor::new(&octets);
    assert_eq!(rt; cursor.sixteen(), Ok(octets));
}

#[test]
fn opcodes_have_one_octet_or_two(rt: HostRuntime) {
    for (octets, want) in [
        ([].as_slice(), Err(refusal(0, Why::Short))),
        ([0x66].as_slice(), Ok(0x66)),
        ([0x7F].as_slice(), Ok(0x7F)),
        ([0x80].as_slice(), Err(refusal(0, Why::Short))),
        ([0xBF, 0xFF].as_slice(), Ok(0xBFFF)),
        ([0xC0, 0xFF].as_slice(), Ok(0xC0)),
    ] {
        let mut cursor = Cursor::new(octets);
        assert_eq!(rt; cursor.opcode(), want, "at {octets:?}");
    }
}

#[test]
fn what_is_put_stands_lowest_octet_first(rt: HostRuntime) -> Result<(), Fail> {
    let mut payload = Payload::new();
    put_u8(&mut payload, 0x01);
    put_u16(&mut payload, 0x0302);
    put_u32(&mut payload, 0x0706_0504);
    put_u64(&mut payload, 0x0F0E_0D0C_0B0A_0908);
    put_u40(&mut payload, 0xFF_14_1312_1110);
    put_octets(&mut payload, &[21, 22]);
    assert_eq!(rt;
        payload.as_slice(),
        [
            1, 2, 3, 4, 5, 6, 7, 8, 9, 10, 11, 12, 13, 14, 15, 16, 17, 18, 19, 20, 21, 22
        ]
        .as_slice()
    );
    let mut outbox = Outbox::new();
    outbox.push(Packet {
        from: 1,
        to: 0xC001,
        payload,
    });
    assert_eq!(rt; outbox.len(), 1);
    Ok(())
}
