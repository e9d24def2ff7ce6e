use mu_outside::{BytesSink, Failed};
use mu_shown::{show_blob, show_distribution, show_update};
use mu_updmsg::UpdMsg;
use std::alloc::AllocError;

#[test]
fn numbers_of_a_list_are_joined_by_commas(rt: HostRuntime) -> Result<(), AllocError> {
    for (octets, line) in [
        (
            b"\x67\xC0\x00\x00\xC8\x00\x00\x09".as_slice(),
            b"block-status status=0 format=3 block=0 chunk-size=200 missing=0,9\n".as_slice(),
        ),
        (
            b"\x67\x80\x01\x00\xC8\x00\x0A\xF1",
            b"block-status status=0 format=2 block=1 chunk-size=200 bits=0af1\n",
        ),
        (b"\x68", b"partial-block-report missing=\n"),
    ] {
        let mut sink = BytesSink::new(rt.alloc(), 200, &[])?;
        let message = mu_blobmsg::read(octets);
        assert!(rt; message.is_ok());
        if let Ok(message) = message {
            assert_eq!(rt; show_blob(&message, &mut sink), Ok(()));
        }
        assert_eq!(rt; sink.bytes(), line);
    }
    Ok(())
}

#[test]
fn fields_that_are_there_are_shown(rt: HostRuntime) -> Result<(), AllocError> {
    for (octets, line) in [
        (
            b"\x83\x0A\x01".as_slice(),
            b"metadata-check index=1 metadata=\n".as_slice(),
        ),
        (b"\x83\x10\x00", b"update-status status=0 phase=0\n"),
        (
            b"\x83\x09\x02\x00\x02\xAA\x0B\x00\x03\x01\x02\xFF\x01\x68",
            b"information-status count=2 first=0 entries=aa0b:,0102ff:68\n",
        ),
    ] {
        let mut sink = BytesSink::new(rt.alloc(), 200, &[])?;
        let message = mu_updmsg::read(octets);
        assert!(rt; message.is_ok());
        if let Ok(message) = message {
            assert_eq!(rt; show_update(&message, &mut sink), Ok(()));
        }
        assert_eq!(rt; sink.bytes(), line);
    }
    Ok(())
}

#[test]
fn parts_of_an_entry_are_joined_by_colons(rt: HostRuntime) -> Result<(), AllocError> {
    let mut sink = BytesSink::new(rt.alloc(), 200, &[])?;
    let message = mu_distmsg::read(b"\x83\x15\x01\x00\x00\x00\x02\x00\x04\xC8\x00");
    assert!(rt; message.is_ok());
    if let Ok(message) = message {
        assert_eq!(rt; show_distribution(&message, &mut sink), Ok(()));
    }
    assert_eq!(rt;
        sink.bytes(),
        b"receivers-list count=1 first=0 entries=2:8:0:0:50:0\n".as_slice()
    );
    Ok(())
}

#[test]
fn a_sink_that_fails_ends_the_line(rt: HostRuntime) -> Result<(), AllocError> {
    let message = UpdMsg::InformationGet { first: 1, limit: 2 };
    let mut sink = BytesSink::new(rt.alloc(), 19, &[])?;
    assert_eq!(rt; show_update(&message, &mut sink), Err(Failed));
    assert_eq!(rt; sink.bytes(), b"information-get fir".as_slice());
    Ok(())
}
